//! A script, while its devices fail at each byte of it and of its replies.
use grep_cmd::{Script, ScriptEnd, ScriptFault};
use grep_core::{Limited, Tally};
use re_auto::fresh_meter;
use std::alloc::Global;

/// How many states each pattern of a script may keep.
const STATES: usize = 16;

/// A script of 30 bytes, whose replies are 20.
const SCRIPT: &[u8] = b"file f 1\nab\npatterns 1\na\nshow\n";

const REPLIES: &[u8] = b"ok\nok\no ab\nstatus 0\n";

/// Runs the script, of which this number of bytes is read, and then each read fails; of the replies that
/// number is written. Its answer and its replies.
fn replies_to(
    alloc: Global,
    read: usize,
    written: usize,
) -> (Result<ScriptEnd, ScriptFault>, Vec<u8>) {
    let mut reader = Tally::new(Limited::new(SCRIPT, usize::MAX, read));
    let replies = Limited::new(Vec::new(alloc), usize::MAX, written);
    let mut writer = Tally::new(replies);
    let mut meter = fresh_meter();
    let mut script = Script::new(alloc, STATES);
    let answer = script.answer(alloc, &mut reader, &mut writer, &mut meter);
    (answer, writer.into_inner().into_inner())
}

/// How many bytes of the replies are written once `read` bytes of the script were read.
fn answered_by(read: usize) -> usize {
    match read {
        0..12 => 0,
        12..25 => 3,
        25..30 => 6,
        _ => 20,
    }
}

#[test]
fn devices_fail(rt: HostRuntime) {
    for read in 0..=SCRIPT.len() {
        let (answer, replies) = replies_to(rt.alloc(), read, usize::MAX);
        assert_eq!(rt; answer, Err(ScriptFault::Read), "{read}");
        let count = answered_by(read);
        assert!(rt; count <= REPLIES.len());
        assert_eq!(rt; replies.as_slice(), &REPLIES[..count], "{read}");
    }
    for written in 0..=REPLIES.len() {
        let (answer, replies) = replies_to(rt.alloc(), usize::MAX, written);
        let wanted = if written < REPLIES.len() {
            Err(ScriptFault::Write)
        } else {
            Ok(ScriptEnd::Clean)
        };
        assert_eq!(rt; answer, wanted, "{written}");
        assert_eq!(rt; replies.as_slice(), &REPLIES[..written], "{written}");
    }
}
