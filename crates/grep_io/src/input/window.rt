// The buffer of a reader of lines.
ghost use Rattle.std.specs.Prelude.{◌≡◌, ◌+◌, ◌-◌, ◌^◌, ◌<◌, ◌≤◌, [], ◌∷◌, ◌++◌, ⊤, get_or, IfOk};
ghost use Rattle.std.specs.Prelude.{OnErr, IfSome, MatchBool, length, take, drop, slice_range};
ghost use Rattle.std.specs.Prelude.{vec_len};
ghost use Rattle.re_trees.specs.{Bytes.Text, Lines.{newline, HasNoNewline}};
ghost use Rattle.re_runs.specs.Working.Blocks.{IsBlock, PassesAll};
ghost use Rattle.grep_io.specs.{Counted.{PullConsumes, Counts, ReadsOn}, Working.Refilled.Refilled};
ghost use Rattle.grep_io.specs.Working.Held.{HasWholeLine, waiting, last_line, LastLineFits};
ghost use Rattle.grep_io.specs.{declared.input.window.Refill.Refill, Reading.IsOneLineAndFew};

use crate::devices::counted::CountedRead;
use memchr::memrchr;
use re_runs::first_newline;
use std::alloc::{AllocError, Global};
use std::marker::Model;

// How many bytes are asked of the reader at a time.
const ROOM: usize = 65_536;

// Where the line is that was handed out last.
#[derive(Clone, Copy)]
enum LastLine {
    Nothing,
    // In the buffer, from the first place up to the second.
    Short(usize, usize),
    // All that was spilled.
    Long,
}

/// What a refill did.
#[derive(Clone, Copy)]
pub enum Refill {
    /// It read bytes.
    More,
    /// It found the end.
    Ended,
    /// The read failed.
    Failed,
}

/// The bytes that were taken from a reader and not handed out, and the line handed out last.
// `buffer[start..end]` is read and not handed out, and has no newline from `last` on. What was read
// before and continues into it is spilled.
#[derive(Drop)]
pub struct Window {
    buffer: Vec<u8>,
    start: usize,
    last: usize,
    end: usize,
    spill: Vec<u8>,
    shown: LastLine,
}

impl Model for Window {
    ghost use Rattle.std.specs.Prelude.{◌++◌, slice_range, vec_len};
    ghost use Rattle.grep_io.specs.Working.Held.{Held, waiting, last_line, IsSound};

    ghost Value = { Held };

    ghost view = { λ a. record {
      ahead = waiting a.shown a.spill.items ++ slice_range a.buffer.items a.start a.end;
      line = last_line a.shown a.spill.items a.buffer.items;
    } };

    ghost invariant = { λ a. IsSound a.buffer.items a.start a.last a.end a.shown a.spill.items };
}

impl Window {
    /// Nothing is held.
    pub fn new(alloc: Global) -> Result<Window, AllocError>
        ensures { IfOk result (λ w. w ≡ record { ahead = []; line = [] }) }
    {
        let mut buffer = Vec::new(alloc);
        buffer.resize(ROOM, 0)?;
        Ok(Window {
            buffer,
            start: 0,
            last: 0,
            end: 0,
            spill: Vec::new(alloc),
            shown: LastLine::Nothing,
        })
    }

    /// The line handed out last.
    pub fn line(&self) -> &[u8]
        ensures { result.now ≡ self.now.line }
    {
        match self.shown {
            LastLine::Nothing => &[],
            LastLine::Short(from, to) => &self.buffer[from..to],
            LastLine::Long => &self.spill,
        }
    }

    /// How many bytes are ahead.
    pub fn len(&self) -> usize
        ensures { result ≡ length self.now.ahead }
    {
        let spilled = match self.shown {
            LastLine::Long => 0,
            _ => self.spill.len(),
        };
        spilled + (self.end - self.start)
    }

    /// Whether a line that is ahead is whole.
    pub fn has_line(&self) -> bool
        ensures { HasWholeLine self.now.ahead result }
    {
        self.start < self.last
    }

    /// The first lines that are ahead, each with its newline, as far as they lie in one piece.
    pub fn ready(&self) -> &[u8]
        ensures block { IsBlock result.now }
        ensures ahead { (rest : Text) × (self.now.ahead ≡ result.now ++ rest) }
    {
        if self.len() > self.end - self.start {
            return &[];
        }
        &self.buffer[self.start..self.last]
    }

    /// Passes the first bytes that are ahead, which are whole lines.
    pub fn pass(&mut self, count: usize)
        requires { PassesAll (λ _. ⊤) self.old.ahead count }
        ensures ahead { self.old.ahead ≡ take count self.old.ahead ++ self.new.ahead }
        ensures line { self.new.line ≡ [] }
    {
        empty_where_shown(&mut self.spill, self.shown);
        self.shown = LastLine::Nothing;
        if count > 0 {
            self.start += count - self.spill.len();
            self.spill.clear();
        }
    }

    /// Forgets the line handed out last.
    pub fn let_go(&mut self)
        ensures ahead { self.new.ahead ≡ self.old.ahead }
        ensures line { self.new.line ≡ [] }
    {
        empty_where_shown(&mut self.spill, self.shown);
        self.shown = LastLine::Nothing;
    }

    /// Hands out the next line, where its newline is ahead.
    pub fn next_line(&mut self) -> Result<bool, AllocError>
        ensures more { IfOk result (λ more. MatchBool more
            (self.old.ahead ≡ self.new.line ++ newline ∷ self.new.ahead)
            (self.new.ahead ≡ self.old.ahead)) }
        ensures no_newline { IfOk result (λ more. MatchBool more
            (HasNoNewline self.new.line) (HasNoNewline self.new.ahead × (self.new.line ≡ []))) }
        ensures few { IfOk result (λ more. MatchBool more (length self.new.ahead < 65536) ⊤) }
        ensures err { OnErr result ((self.new.ahead ≡ self.old.ahead) × (self.new.line ≡ [])) }
        ensures err_few { OnErr result (IsOneLineAndFew self.new.ahead) }
    {
        empty_where_shown(&mut self.spill, self.shown);
        self.shown = LastLine::Nothing;
        let Some(length) = first_newline(&self.buffer[self.start..self.end]) else {
            return Ok(false);
        };
        let at = self.start + length;
        self.shown = show(&self.buffer, self.start, at, &mut self.spill)?;
        self.start = at + 1;
        Ok(true)
    }

    /// Reads once, where no line ends in what is ahead. At the end all that was ahead is handed
    /// out.
    pub fn refill<R: CountedRead>(&mut self, reader: &mut R) -> Result<Refill, AllocError>
        requires no_line { HasNoNewline self.old.ahead }
        requires open { R.may_be_read reader.old }
        ensures ok { IfOk result
            (Refilled R.remaining R.failures self.old self.new reader.old reader.new) }
        ensures bound { length self.new.ahead < 2 ^ 64 }
        ensures err { OnErr result ((self.new.ahead ≡ self.old.ahead) × (self.new.line ≡ [])) }
        ensures err_few { OnErr result (IsOneLineAndFew self.new.ahead) }
        ensures err_reader { OnErr result (reader.new ≡ reader.old) }
        ensures open { IfOk result (λ did. did ≡ Refill.More → R.may_be_read reader.new) }
        ensures same_loan { R.loan reader.new ≡ R.loan reader.old }
    {
        empty_where_shown(&mut self.spill, self.shown);
        self.shown = LastLine::Nothing;
        self.spill
            .extend_from_slice(&self.buffer[self.start..self.end])?;
        self.start = 0;
        self.last = 0;
        self.end = 0;
        match pull_over(reader, &mut self.buffer) {
            None => Ok(Refill::Failed),
            Some(0) => {
                self.shown = LastLine::Long;
                Ok(Refill::Ended)
            }
            Some(count) => {
                self.last = lines_end(&self.buffer[..count]);
                self.end = count;
                Ok(Refill::More)
            }
        }
    }
}

// One read over the whole buffer.
fn pull_over<R: CountedRead>(reader: &mut R, buffer: &mut Vec<u8>) -> Option<usize>
    requires some { 0 < vec_len buffer.old }
    requires open { R.may_be_read reader.old }
    ensures len { vec_len buffer.new ≡ vec_len buffer.old }
    ensures bound { IfSome result (λ n. n ≤ vec_len buffer.new) }
    ensures bytes { PullConsumes (R.remaining reader.old) (R.remaining reader.new) result
        buffer.new.items }
    ensures counted { Counts (R.failures reader.old) (R.failures reader.new) result }
    ensures open { ReadsOn R.may_be_read reader.new result }
    ensures same_loan { R.loan reader.new ≡ R.loan reader.old }
{
    reader.pull(buffer.as_mut_slice())
}

/// Where the lines that have a newline end: after the last newline.
pub fn lines_end(bytes: &[u8]) -> usize
    ensures within { result ≤ length bytes.now }
    ensures ended { 0 < result → get_or bytes.now (result - 1) 0 ≡ newline }
    ensures cut_off { HasNoNewline (drop result bytes.now) }
{
    match memrchr(b'\n', bytes) {
        Some(at) => at + 1,
        None => 0,
    }
}

// Shows the line that begins with what was spilled and continues in the buffer.
fn show(buffer: &[u8], from: usize, to: usize, spill: &mut Vec<u8>) -> Result<LastLine, AllocError>
    requires ordered { from ≤ to }
    requires within { to ≤ length buffer.now }
    requires short { to ≤ 65536 }
    ensures line { IfOk result (λ shown. last_line shown spill.new.items buffer.now
        ≡ spill.old.items ++ slice_range buffer.now from to) }
    ensures none_waiting { IfOk result (λ shown. waiting shown spill.new.items ≡ []) }
    ensures fits { IfOk result LastLineFits }
    ensures err { OnErr result (spill.new.items ≡ spill.old.items) }
{
    if spill.is_empty() {
        return Ok(LastLine::Short(from, to));
    }
    spill.extend_from_slice(&buffer[from..to])?;
    Ok(LastLine::Long)
}

// Forgets what was spilled where it is the line that was handed out.
fn empty_where_shown(spill: &mut Vec<u8>, shown: LastLine)
    ensures { spill.new.items ≡ waiting shown spill.old.items }
{
    match shown {
        LastLine::Long => spill.clear(),
        _ => {}
    }
}
