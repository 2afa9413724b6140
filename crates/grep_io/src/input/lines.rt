// The lines that a reader gives, one at a time, and their numbers.
ghost use Rattle.std.specs.Prelude.{◌≡◌, ◌+◌, ◌≤◌, [], ◌++◌, Ok, Err, IfOk, IfErr, MatchBool};
ghost use Rattle.std.specs.Prelude.{IsTrue, ⊤, false, length, take};
ghost use Rattle.re_trees.specs.{Lines.lines_of, Bytes.Text};
ghost use Rattle.re_runs.specs.Working.Blocks.{IsBlock};
ghost use Rattle.grep_io.specs.Working.Numbered.{HasReadBefore, PassesNext, AreAhead, HandsNext};
ghost use Rattle.grep_io.specs.Working.LineReader.{HandsOut, IsCutOff, IsUsedUp, RunsOutOfMemory};
ghost use Rattle.grep_io.specs.{Working.Held.HasWholeLine, Reading.{IsOneLineAndFew, most_lines}};

use crate::devices::counted::CountedRead;
use crate::input::newlines::count_newlines;
use crate::input::window::{Refill, Window};
use std::alloc::{AllocError, Global};
use std::marker::Model;

/// Why no line could be handed out.
#[derive(Clone, Copy, Debug, PartialEq, Eq, Drop)]
pub enum ReadFault {
    /// A read failed, in this call or in an earlier one.
    Device,
    /// An allocation failed. Nothing is lost, and the next call continues with the same line.
    Memory,
}

impl From<AllocError> for ReadFault {
    ghost use Rattle.std.specs.Prelude.{◌≡◌};
    ghost use Rattle.grep_io.specs.declared.input.lines.ReadFault.{ReadFault};

    ghost from_gives = { λ e r. r ≡ ReadFault.Memory };

    fn from(_: AllocError) -> ReadFault {
        ReadFault::Memory
    }
}

/// How far a reader of lines has read.
#[derive(Clone, Copy, Debug, PartialEq, Eq)]
pub enum Stage {
    /// There may be more to read.
    Open,
    /// The end was read.
    Ended,
    /// A read failed.
    Failed,
}

/// Whole lines, in one piece.
#[derive(Clone, Copy)]
pub struct Block<'a> {
    /// The lines, each with its newline.
    pub bytes: &'a [u8],
    /// How many they are.
    pub count: u64,
}

/// The lines of a reader (XBD 3.206; a last line may lack its newline). 65,536 bytes are asked of
/// the reader at a time, and no more is held than the longest line and one such portion.
/// Lines can be numbered from 1, as far as a `u64` goes.
/// Contracts see it as the reader, what was taken from it and not handed out, the line that was
/// handed out last, and how far it has read; and besides them how many lines were numbered.
#[derive(Drop)]
pub struct Lines<R: CountedRead> {
    reader: R,
    window: Window,
    stage: Stage,
    number: u64,
}

impl<R: CountedRead> Model for Lines<R> {
    ghost use Rattle.grep_io.specs.Working.LineReader.{IsStageOf};
    ghost use Rattle.grep_io.specs.Working.Numbered.{Numbered};

    ghost Value = { Numbered R };

    ghost view = { λ a. record {
      lines = record {
        reader = a.reader;
        ahead = a.window.ahead;
        line = a.window.line;
        stage = a.stage;
      };
      number = a.number;
    } };

    ghost invariant = { λ a. IsStageOf R.remaining R.failures R.may_be_read a.stage
        a.window.ahead a.reader };
}

impl<R: CountedRead> Lines<R> {
    /// The lines of the reader, from which nothing was read yet. The reader is returned if the
    /// allocation fails.
    pub fn new(alloc: Global, reader: R) -> Result<Lines<R>, R>
        requires { R.may_be_read reader }
        ensures ok { IfOk result
            (λ lines. lines ≡ record {
              lines = record { reader = reader; ahead = []; line = []; stage = Stage.Open };
              number = 0;
            }) }
        ensures err { IfErr result (λ returned_readers. returned_readers ≡ reader) }
    {
        match Window::new(alloc) {
            Ok(window) => Ok(Lines {
                reader,
                window,
                stage: Stage::Open,
                number: 0,
            }),
            Err(_) => Err(reader),
        }
    }

    /// The line that the last call of `next_line` or `next_numbered` handed out, without its
    /// newline; empty where that call handed out none, and after `pass`.
    pub fn line(&self) -> &[u8]
        ensures { result.now ≡ self.now.lines.line }
    {
        self.window.line()
    }

    /// How many bytes were taken from the reader, less those of the lines handed out.
    pub fn held(&self) -> usize
        ensures { result ≡ length self.now.lines.ahead }
    {
        self.window.len()
    }

    /// Whether the next line is held with its newline, so that no read is needed for it.
    pub fn has_line(&self) -> bool
        ensures { HasWholeLine self.now.lines.ahead result }
    {
        self.window.has_line()
    }

    /// The next lines, each with its newline, as far as they are held in one piece.
    pub fn ready(&self) -> &[u8]
        ensures block { IsBlock result.now }
        ensures ahead { (rest : Text) × (self.now.lines.ahead ≡ result.now ++ rest) }
        ensures none_at_end { self.now.lines.stage ≡ Stage.Ended → self.now.lines.ahead ≡ [] }
    {
        self.window.ready()
    }

    /// The number of the line that the last call of `next_numbered` handed out, or of the last that
    /// was passed; 0 before the first.
    pub fn number(&self) -> u64
        ensures { result ≡ self.now.number }
    {
        self.number
    }

    /// The next lines, each with its newline, as far as they are held in one piece, and how many
    /// they are; none if not all of them can still be numbered.
    pub fn ready_lines(&self) -> Block<'_>
        ensures { AreAhead self.now result.bytes.now result.count }
    {
        let bytes = self.ready();
        let count = count_newlines(bytes);
        if count > u64::MAX - self.number {
            return Block {
                bytes: &[],
                count: 0,
            };
        }
        Block { bytes, count }
    }

    /// Whether that many lines more can still be numbered.
    pub fn may_number(&self, count: usize) -> bool
        ensures room { IsTrue result → self.now.number + count ≤ most_lines }
        ensures numbered { self.now.number ≤ most_lines }
    {
        count as u64 <= u64::MAX - self.number
    }

    /// Passes the next `count` lines, which have `bytes` bytes, without handing them out.
    pub fn pass(&mut self, bytes: usize, count: u64)
        requires { (block : Text) × (bytes ≡ length block) × AreAhead self.old block count }
        ensures passed { PassesNext R.remaining R.failures self.old self.new
            (lines_of (take bytes self.old.lines.ahead)) }
        ensures ahead { self.old.lines.ahead ≡
            take bytes self.old.lines.ahead ++ self.new.lines.ahead }
        ensures none_shown { self.new.lines.line ≡ [] }
        ensures same_loan { R.loan self.new.lines.reader ≡ R.loan self.old.lines.reader }
    {
        self.number += count;
        self.window.pass(bytes);
    }

    /// The reader, without the bytes that are held.
    pub fn into_reader(self) -> R
        ensures { result ≡ self.lines.reader }
    {
        let Lines {
            reader,
            window: _,
            stage: _,
            number: _,
        } = self;
        reader
    }

    /// Hands out the next line, and returns whether there was one. Any number of lines can be handed
    /// out so; they are not numbered.
    ///
    /// Returns `ReadFault::Device` in the call in which a read fails and in every later one. After
    /// `ReadFault::Memory` the next call continues with the same line.
    pub fn next_line(&mut self) -> Result<bool, ReadFault>
        ensures line { IfOk result (λ more. MatchBool more
            (HandsOut R.remaining R.failures self.old.lines self.new.lines)
            (IsUsedUp R.remaining R.failures self.old.lines self.new.lines)) }
        ensures device { result ≡ Err ReadFault.Device
            → IsCutOff R.remaining R.failures self.old.lines self.new.lines }
        ensures memory { result ≡ Err ReadFault.Memory
            → RunsOutOfMemory R.remaining R.failures self.old.lines self.new.lines }
        ensures same_number { self.new.number ≡ self.old.number }
        ensures same_loan { R.loan self.new.lines.reader ≡ R.loan self.old.lines.reader }
        ensures over { self.old.lines.stage ≡ Stage.Ended → result ≡ Ok false }
        ensures sticky { self.old.lines.stage ≡ Stage.Failed → result ≡ Err ReadFault.Device }
    {
        match self.stage {
            Stage::Open => self.read_on(),
            Stage::Ended => {
                self.window.let_go();
                Ok(false)
            }
            Stage::Failed => {
                self.window.let_go();
                Err(ReadFault::Device)
            }
        }
    }

    /// Hands out and numbers the next line, and returns whether there was one. Where one more
    /// begins than a `u64` can number, that is a failed read.
    ///
    /// Returns `ReadFault::Device` if a read fails, or if one more line begins than can be
    /// numbered. After `ReadFault::Memory` the next call continues with the same line.
    pub fn next_numbered(&mut self) -> Result<bool, ReadFault>
        ensures next { HandsNext R.remaining R.failures self.old self.new result }
        ensures held { IsOneLineAndFew self.new.lines.ahead }
        ensures before { IfOk result (λ more. MatchBool more
            (HasReadBefore R.remaining R.failures self.old self.new) ⊤) }
        ensures same_loan { R.loan self.new.lines.reader ≡ R.loan self.old.lines.reader }
    {
        match self.next_line() {
            Ok(true) if self.number == u64::MAX => Err(ReadFault::Device),
            Ok(true) => {
                self.number += 1;
                Ok(true)
            }
            Ok(false) => Ok(false),
            Err(ReadFault::Device) => Err(ReadFault::Device),
            Err(ReadFault::Memory) => Err(ReadFault::Memory),
        }
    }

    // Reads until a line is whole, or there is nothing more to read.
    fn read_on(&mut self) -> Result<bool, ReadFault>
        requires { self.old.lines.stage ≡ Stage.Open }
        ensures line { IfOk result (λ more. MatchBool more
            (HandsOut R.remaining R.failures self.old.lines self.new.lines)
            (IsUsedUp R.remaining R.failures self.old.lines self.new.lines)) }
        ensures device { result ≡ Err ReadFault.Device
            → IsCutOff R.remaining R.failures self.old.lines self.new.lines }
        ensures memory { result ≡ Err ReadFault.Memory
            → RunsOutOfMemory R.remaining R.failures self.old.lines self.new.lines }
        ensures same_number { self.new.number ≡ self.old.number }
        ensures same_loan { R.loan self.new.lines.reader ≡ R.loan self.old.lines.reader }
    {
        loop {
            if self.window.next_line()? {
                return Ok(true);
            }
            match self.window.refill(&mut self.reader)? {
                Refill::More => {}
                Refill::Ended => {
                    self.stage = Stage::Ended;
                    return Ok(!self.window.line().is_empty());
                }
                Refill::Failed => {
                    self.stage = Stage::Failed;
                    return Err(ReadFault::Device);
                }
            }
        }
    }
}
