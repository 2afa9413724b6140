//! Reads, writes and messages that fail, at each byte.
use crate::harness::{Limits, UNLIMITED, assert_command, assert_written, commanded, file, folder};
use memory_files::{Content, MemoryFile};
use std::alloc::Global;
use std::process::Abort;
use std::test::Fail;

/// A command whose file `h` fails after this many bytes, from the first number to the second; its
/// output; whether the failed read is reported; its exit status.
type CutRow = (&'static str, usize, usize, &'static [u8], bool, u8);

static CUT: [CutRow; 20] = [
    ("-n a h k", 0, 3, b"k:2:a\n", true, 2),
    ("-n a h k", 4, 6, b"h:1:aba\nk:2:a\n", true, 2),
    ("-n a h k", 7, 8, b"h:1:aba\nh:2:ca\nk:2:a\n", true, 2),
    ("-s a h k", 4, 6, b"h:aba\nk:a\n", false, 2),
    ("-c a h k", 0, 3, b"h:0\nk:1\n", true, 2),
    ("-c a h k", 4, 6, b"h:1\nk:1\n", true, 2),
    ("-c a h k", 7, 8, b"h:2\nk:1\n", true, 2),
    ("-o a h k", 0, 3, b"k:a\n", true, 2),
    ("-o a h k", 4, 6, b"h:a\nh:a\nk:a\n", true, 2),
    ("-o a h k", 7, 8, b"h:a\nh:a\nh:a\nk:a\n", true, 2),
    ("-l a h k", 0, 3, b"k\n", true, 2),
    ("-l a h k", 4, 8, b"h\nk\n", false, 0),
    ("-l c h k", 0, 6, b"", true, 2),
    ("-l c h k", 7, 8, b"h\n", false, 0),
    ("-q a h k", 0, 3, b"", true, 0),
    ("-q a h k", 4, 8, b"", false, 0),
    ("-q c h k", 0, 6, b"", true, 2),
    ("-v a h k", 0, 8, b"k:b\n", true, 2),
    ("-v c h", 0, 3, b"", true, 2),
    ("-v c h", 4, 8, b"aba\n", true, 2),
];

/// Commands whose file fails.
fn cut_rows() -> &'static [CutRow] {
    &CUT
}

/// A file whose reads fail after this many bytes.
fn cut_after(left: usize) -> MemoryFile<'static> {
    let content = Content::new(b"aba\nca\nd");
    MemoryFile {
        name: "h",
        content: Some(Content {
            step: 2,
            left,
            ..content
        }),
    }
}

#[test]
fn failed_reads_are_reported(rt: HostRuntime) -> Result<(), Fail> {
    for (line, from, to, output, reported, status) in cut_rows() {
        let messages = if *reported {
            "grep: h: read error\n"
        } else {
            ""
        };
        let row = (*line, b"".as_slice(), *output, messages, *status);
        for left in *from..=*to {
            let folder = [cut_after(left), file("k", b"b\na\n")];
            let files = folder.as_slice();
            assert_command(&rt, rt.alloc(), row, files, 1)?;
        }
    }
    Ok(())
}

/// A command; its output; how many bytes of it are before its message; that message.
type WrittenRow = (&'static str, &'static [u8], usize, &'static [u8]);

static WRITTEN: [WrittenRow; 6] = [
    ("b", b"b\nab\n", 0, b""),
    ("-n -o a h k", b"h:1:a\nh:1:a\nk:2:a\n", 0, b""),
    (
        "-c a f nofile h",
        b"f:2\nh:1\n",
        4,
        b"grep: nofile: cannot open\n",
    ),
    (
        "-l a f nofile h",
        b"f\nh\n",
        2,
        b"grep: nofile: cannot open\n",
    ),
    ("-s -v -n a k nofile h", b"k:1:b\n", 0, b""),
    (
        "a f nofile h",
        b"f:a\nf:ba\nh:aba\n",
        9,
        b"grep: nofile: cannot open\n",
    ),
];

/// Commands whose output is cut.
fn written_rows() -> &'static [WrittenRow] {
    &WRITTEN
}

const WRITE_ERROR: &[u8] = b"grep: write error\n";

/// Compares what the row's command gives where this number of bytes is written.
fn assert_cut_output(
    rt: &impl Abort,
    alloc: Global,
    row: WrittenRow,
    room: usize,
) -> Result<(), Fail> {
    let (line, output, before, message) = row;
    let folder = folder();
    let files = folder.as_slice();
    let input = Content::new(b"b\nab\nB\n");
    let limits = Limits {
        step: 3,
        output: room,
        messages: usize::MAX,
    };
    let front = &output[..output.len().min(room)];
    let reported = if room < before { b"" } else { message };
    let command = commanded(alloc, line, files, input, limits)?;
    assert_eq!(rt; command.answer, 2, "{line}, {room}");
    let mut messages = reported.to_vec(alloc)?;
    messages.extend_from_slice(WRITE_ERROR)?;
    assert_written(rt, &command, front, &messages, line, room);
    Ok(())
}

#[test]
fn failed_writes_end_the_run(rt: HostRuntime) -> Result<(), Fail> {
    for row in written_rows() {
        for room in 0..row.1.len() {
            assert_cut_output(&rt, rt.alloc(), *row, room)?;
        }
    }
    Ok(())
}

/// A command; its message; its output before the message; its output; its exit status.
type MessageRow = (
    &'static str,
    &'static [u8],
    &'static [u8],
    &'static [u8],
    u8,
);

static TOLD: [MessageRow; 5] = [
    (
        "a f nofile h",
        b"grep: nofile: cannot open\n",
        b"f:a\nf:ba\n",
        b"f:a\nf:ba\nh:aba\n",
        2,
    ),
    (
        "-c a g f",
        b"grep: g: read error\n",
        b"g:1\n",
        b"g:1\nf:2\n",
        2,
    ),
    ("-l -v a g k", b"grep: g: read error\n", b"", b"k\n", 2),
    ("-q a nofile f", b"grep: nofile: cannot open\n", b"", b"", 0),
    ("-s a nofile g", b"", b"", b"g:ab\n", 2),
];

/// Commands whose message is cut.
fn message_rows() -> &'static [MessageRow] {
    &TOLD
}

/// Compares what the row's command gives where this number of bytes of messages is
/// written.
fn assert_cut_message(
    rt: &impl Abort,
    alloc: Global,
    row: MessageRow,
    room: usize,
) -> Result<(), Fail> {
    let (line, message, before, output, status) = row;
    let folder = folder();
    let files = folder.as_slice();
    let input = Content::new(b"");
    let limits = Limits {
        step: 5,
        output: usize::MAX,
        messages: room,
    };
    let is_cut = room < message.len();
    let front = &message[..message.len().min(room)];
    let output = if is_cut { before } else { output };
    let status = if is_cut { 2 } else { status };
    let command = commanded(alloc, line, files, input, limits)?;
    assert_eq!(rt; command.answer, status, "{line}, {room}");
    assert_written(rt, &command, output, front, line, room);
    Ok(())
}

#[test]
fn failed_messages_end_the_run(rt: HostRuntime) -> Result<(), Fail> {
    for row in message_rows() {
        for room in 0..=row.1.len() {
            assert_cut_message(&rt, rt.alloc(), *row, room)?;
        }
    }
    Ok(())
}

/// Commands that write nothing to standard output, the last because each write fails, and what they
/// report.
static GIVEN_UP: [(&str, &[u8]); 6] = [
    ("-e a -e [ f", b"grep: pattern 2: UnclosedBracket at 0\n"),
    ("-f nofile f", b"grep: nofile: cannot open\n"),
    ("-f g f", b"grep: g: read error\n"),
    (
        "-E -F a",
        b"grep: -E and -F together\nusage: grep [-E|-F] [-cilnoqsvx] [-A NUM] [-B NUM] [-C NUM] [-e LIST]... [-f FILE]... [LIST] [FILE...]\n",
    ),
    (
        "-ne",
        b"grep: option -e needs an argument\nusage: grep [-E|-F] [-cilnoqsvx] [-A NUM] [-B NUM] [-C NUM] [-e LIST]... [-f FILE]... [LIST] [FILE...]\n",
    ),
    ("a f", b"grep: write error\n"),
];

/// Commands that write nothing to standard output, and what they report.
fn given_up() -> &'static [(&'static str, &'static [u8])] {
    &GIVEN_UP
}

#[test]
fn failed_messages_are_not_written_again(rt: HostRuntime) -> Result<(), Fail> {
    let folder = folder();
    let files = folder.as_slice();
    for (line, text) in given_up() {
        for room in 0..=text.len() {
            let limits = Limits {
                step: 7,
                output: 0,
                messages: room,
            };
            let command = commanded(rt.alloc(), line, files, Content::new(b""), limits)?;
            let front = &text[..text.len().min(room)];
            assert_eq!(rt; command.answer, 2, "{line}, {room}");
            assert_written(&rt, &command, b"", front, line, room);
        }
    }
    Ok(())
}

// The first line counts once its newline was read.
#[test]
fn failed_standard_input_is_reported(rt: HostRuntime) -> Result<(), Fail> {
    let reported = b"grep: (standard input): read error\n";
    for left in 0..=5 {
        let content = Content::new(b"ab\ncd");
        let input = Content { left, ..content };
        let count = if left < 3 { b"0\n" } else { b"1\n" };
        let command = commanded(rt.alloc(), "-c .", &[], input, UNLIMITED)?;
        assert_eq!(rt; command.answer, 2);
        assert_written(&rt, &command, count, reported, "-c .", left);
    }
    Ok(())
}
