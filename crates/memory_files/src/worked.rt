//! Two commands on files in memory, whose bytes are worked by hand.
ghost use Rattle.std.specs.Prelude.{◌≡◌};
ghost use Rattle.grep_core.specs.{declared.status.Status.TheVariants.Error, Run.{writer, devices}};
ghost use Rattle.grep_utility.specs.Working.Worked.{row_output, row_words, row_messages};
ghost use Rattle.grep_utility.specs.Working.Worked.{broken_messages, broken_words, broken_output};
ghost use Rattle.grep_utility.specs.{Working.Known.WritesJust, Words.texts_of};

use crate::files::{Content, MemoryFile, MemoryFiles};
use grep_core::CountedWrite;
use grep_utility::{Files, run_grep};
use re_search::Meter;
use std::alloc::Global;

/// The command on a file `h`, which has the lines `b`, `c` and `a`, where there is no other file: its
/// status, and how many failures of files were counted. For the words `-n -B 2 a h missing`, where
/// that is one and no write failed, the output is `h-1-b`, `h-2-c` and `h:3:a`, the message says
/// that `missing` cannot be opened, and the status is 2, unless memory ran out.
pub fn run_row<W: CountedWrite, M: CountedWrite>(
    alloc: Global,
    words: &[String],
    out: &mut W,
    messages: &mut M,
    meter: &mut Meter,
) -> (u8, u64)
    ensures { texts_of words.now ≡ row_words → WritesJust 1 row_output row_messages Error
        (devices (writer W.contents W.failures out.old) (writer M.contents M.failures messages.old)
        0 meter.old)
        (devices (writer W.contents W.failures out.new) (writer M.contents M.failures messages.new)
        result.1 meter.new) result.0 }
{
    let listed = [MemoryFile {
        name: "h",
        content: Some(Content::new(b"b\nc\na\n")),
    }];
    let mut files = MemoryFiles::new(&listed, Content::new(b""));
    let status = run_grep(alloc, words, &mut files, out, messages, meter);
    (status, Files::failures(&files))
}

/// The command on a file `f`, whose reads give the lines `a` and `b` and the first byte of a third,
/// and then fail: its status, how many failures of files were counted, how many readers came back,
/// and how many of their reads failed. For the words `-n a f`, where these three are one and no
/// write failed, the output is `1:a`, the message says that a read of `f` failed, and the status is
/// 2, unless memory ran out.
pub fn run_broken<W: CountedWrite, M: CountedWrite>(
    alloc: Global,
    words: &[String],
    out: &mut W,
    messages: &mut M,
    meter: &mut Meter,
) -> (u8, u64, u64, u64)
    ensures { texts_of words.now ≡ broken_words → result.2 ≡ 1 → result.3 ≡ 1 →
        WritesJust 1 broken_output broken_messages Error
        (devices (writer W.contents W.failures out.old) (writer M.contents M.failures messages.old)
        0 meter.old)
        (devices (writer W.contents W.failures out.new) (writer M.contents M.failures messages.new)
        result.1 meter.new) result.0 }
{
    let listed = [MemoryFile {
        name: "f",
        content: Some(Content {
            bytes: b"a\nb\na\nc\n",
            step: usize::MAX,
            left: 5,
        }),
    }];
    let mut files = MemoryFiles::new(&listed, Content::new(b""));
    let status = run_grep(alloc, words, &mut files, out, messages, meter);
    (status, files.failed, files.returned, files.broken)
}
