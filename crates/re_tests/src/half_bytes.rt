//! The tables of half bytes by which sets of bytes are looked for.
use re_runs::Nibbles;
use re_syntax::ByteSet;
use std::process::Abort;

// Sets whose members, and no other bytes, pass: their high halves go with few rows of low ones.
static SETS: [&[u8]; 9] = [
    b"a",
    b"qz",
    b"abcdef",
    b"0123456789",
    b"ABCDEFGHIJKLMNOPQRSTUVWXYZ",
    b"\t\n\x0b\x0c\r ",
    b"0123456789ABCDEFabcdef",
    b"\x00\x7f\xff",
    b"!0AQaq\x91",
];

fn sets() -> &'static [&'static [u8]] {
    &SETS
}

fn set_of(members: &[u8]) -> ByteSet {
    let mut set = ByteSet::empty();
    for byte in members {
        set = set.union(ByteSet::only(*byte));
    }
    set
}

fn assert_members_alone(rt: &impl Abort, members: &[u8]) {
    let set = set_of(members);
    let tables = Nibbles::of(&set).expect(rt, "tables");
    for byte in 0..256usize {
        let passes = tables.bits(byte as u8) != 0;
        assert_eq!(rt; passes, set.has(byte as u8), "{byte} of {members:?}");
    }
}

#[test]
fn members_pass_and_no_others(rt: HostRuntime) {
    for members in sets() {
        assert_members_alone(&rt, members);
    }
}
