//! The files of the system, and standard input.
ghost use Rattle.std.specs.Prelude.{◌≡◌, false};
ghost use Rattle.{grep_core.specs.Run.count_more, grep.specs.Working.Disk.{known_bytes, folder_of}};

use crate::guard::OutputGuard;
use grep_core::{CountedRead, Options, Tally};
use grep_utility::Files;
use std::fs::File;
use std::io::{ErrorKind, Read, Stdin};
use std::{fs, io};

/// What is read: standard input, a file, or nothing. Contracts know of it what they know of its
/// device, so a failed read is passed on as one.
#[derive(Drop)]
pub enum Stream<I, F> {
    StandardInput(I),
    File(F),
    /// No byte is left of it.
    Empty,
    /// The file to which rows are written: no byte of it is read.
    Output,
}

impl<I: Read, F: Read> Read for Stream<I, F> {
    ghost remaining = { known_bytes I.remaining F.remaining };

    fn read(&mut self, buf: &mut [u8]) -> io::Result<usize> {
        match self {
            Stream::StandardInput(input) => input.read(buf),
            Stream::File(file) => file.read(buf),
            Stream::Empty => Ok(0),
            Stream::Output => Err(io::Error::from(ErrorKind::InvalidInput)),
        }
    }
}

/// The files of the system by their names, and standard input. A folder is opened as a file is,
/// and its first read fails.
#[derive(Drop)]
pub struct DiskFiles<'a> {
    rt: &'a HostRuntime,
    guard: OutputGuard,
    /// Standard input was used.
    input_used: bool,
    /// How many attempts to open a file, and reads of closed streams, have failed.
    failed: u64,
}

impl<'a> DiskFiles<'a> {
    /// All files, none of them opened, and standard input, not yet used. Each read of an input that
    /// is standard output fails while rows are written.
    pub fn new(rt: &'a HostRuntime) -> DiskFiles<'a>
        ensures unused { result.input_used ≡ false }
        ensures none_failed { result.failed ≡ 0 }
    {
        DiskFiles {
            rt,
            guard: OutputGuard::new(rt),
            input_used: false,
            failed: 0,
        }
    }
}

/// Nothing is known of a file's bytes, nor whether it can be opened. Standard input is known to be
/// empty from its second use on.
impl Files for DiskFiles<'_> {
    type Reader = Tally<Stream<Stdin, File>>;

    ghost folder = { λ d. folder_of d.input_used };

    ghost failures = { λ d. d.failed };

    fn standard(&mut self) -> Tally<Stream<Stdin, File>> {
        let is_output = self.guard.is_standard_input(self.rt);
        if self.input_used {
            return Tally::new(Stream::Empty);
        }
        self.input_used = true;
        if is_output {
            return Tally::new(Stream::Output);
        }
        Tally::new(Stream::StandardInput(self.rt.stdin()))
    }

    fn open(&mut self, name: &str) -> Option<Tally<Stream<Stdin, File>>> {
        match fs::open(self.rt, name) {
            Ok(file) if self.guard.is_file(&file) => Some(Tally::new(Stream::Output)),
            Ok(file) => Some(Tally::new(Stream::File(file))),
            Err(_) => {
                self.failed = self.failed.saturating_add(1);
                None
            }
        }
    }

    fn begin_search(&mut self, options: &Options) {
        self.guard.begin_search(options);
    }

    fn close(&mut self, reader: Tally<Stream<Stdin, File>>) {
        self.failed = self.failed.saturating_add(reader.failures());
    }

    fn failures(&self) -> u64 {
        self.failed
    }
}
