//! A splice, while each allocation fails in turn, and one that allocates nothing.
//!
//! Where no library refuses requests, as tools/refuse_growths.sh has it, each is granted, and each
//! splice is made once.
use super::comparison::assert_same;
use super::findings::kept_of;
use super::marks::{refuse, was_refused};
use super::splices::{splice_kept, splice_plain, texts_of};
use std::alloc::Global;
use std::process::Abort;
use std::test::Fail;

/// How many requests a splice makes at most.
const MOST: usize = 1_000;

/// The most bytes of a chunk to which lines are added: three lines fill it.
const LIMIT: u32 = 9;

/// Puts `new` lines in the place of five over three chunks, while the N-th allocation fails;
/// whether one did. Where the splice was refused for that, all is as it was.
fn assert_refusal(rt: &impl Abort, alloc: Global, new: usize, n: usize) -> Result<bool, Fail> {
    let mut texts = texts_of(alloc, 12)?;
    let mut lines = kept_of::<LIMIT>(alloc, &texts, b"ab")?;
    let fresh = texts_of(alloc, new)?;
    let kept = kept_of::<LIMIT>(alloc, &fresh, b"ab")?;
    refuse(alloc, n)?;
    let given = splice_kept(alloc, &mut lines, 2, 5, &kept);
    let refused = was_refused(alloc);
    match given {
        Ok(made) => {
            assert!(rt; made, "the lines are there");
            splice_plain(&mut texts, 2, 5, fresh)?;
        }
        Err(_) => assert!(rt; refused, "request {n}"),
    }
    assert_same(rt, &lines, &texts, b"ab");
    Ok(refused)
}

/// Refuses each request of a splice of `new` lines in turn. Without new lines it makes none.
fn assert_each_refused(rt: &impl Abort, alloc: Global, new: usize) -> Result<(), Fail> {
    for n in 1..=MOST {
        if !assert_refusal(rt, alloc, new, n)? {
            return Ok(());
        }
        assert!(rt; new > 0, "request {n}");
    }
    Err(Fail::from("a splice asks for memory again and again"))
}

#[test]
fn splices_without_memory(rt: HostRuntime) -> Result<(), Fail> {
    for new in [0, 1, 4, 9] {
        assert_each_refused(&rt, rt.alloc(), new)?;
    }
    Ok(())
}
