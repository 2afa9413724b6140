//! A search doesn't read the file to which it writes rows: it would find them again, endlessly.

use grep_core::Options;
use std::fs::{File, Metadata};
use std::os::unix::fs::MetadataExt;
use std::{fs, io};

/// A file of the system, under any name.
#[derive(Clone, Copy, PartialEq, Eq, Drop)]
struct FileIdentity {
    device: u64,
    inode: u64,
}

impl FileIdentity {
    /// The regular file with this metadata. Devices and pipes have none: they don't grow by what is
    /// written to them.
    fn of_regular(metadata: io::Result<Metadata>) -> Option<FileIdentity> {
        let metadata = metadata.ok()?;
        metadata.is_file().then_some(FileIdentity {
            device: metadata.dev(),
            inode: metadata.ino(),
        })
    }
}

/// Recognizes the inputs that are standard output. As in GNU grep, standard output is guarded if it
/// is a regular file and rows are written as they are found: not under `-c`, `-l` and `-q`. A
/// pattern file may be standard output, since it is read before a row is written.
#[derive(Drop)]
pub struct OutputGuard {
    output: Option<FileIdentity>,
    /// Whether rows are written while an input is read.
    writes_rows: bool,
}

impl OutputGuard {
    /// Identifies standard output, to which no row is written yet. If the system does not say which
    /// file it is, none is guarded.
    pub fn new(rt: &HostRuntime) -> OutputGuard {
        OutputGuard {
            output: FileIdentity::of_regular(fs::metadata(rt, "/dev/stdout")),
            writes_rows: false,
        }
    }

    /// The inputs from here on are searched with these options.
    pub fn begin_search(&mut self, options: &Options) {
        self.writes_rows = !options.leaves_early() && !options.count;
    }

    /// Whether some file is guarded.
    fn is_set(&self) -> bool {
        self.writes_rows && self.output.is_some()
    }

    /// Whether this file is the guarded file.
    pub fn is_file(&self, file: &File) -> bool {
        self.is_set() && FileIdentity::of_regular(file.metadata()) == self.output
    }

    /// Whether standard input is the guarded file.
    pub fn is_standard_input(&self, rt: &HostRuntime) -> bool {
        self.is_set() && FileIdentity::of_regular(fs::metadata(rt, "/dev/stdin")) == self.output
    }
}
