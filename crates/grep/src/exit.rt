//! How the program reports its own faults, and how it ends.
ghost use Rattle.std.specs.Prelude.{◌≡◌};
ghost use Rattle.{grep_core.specs.Run.writer, grep_utility.specs.Texts.{out_of_memory, usage}};
ghost use Rattle.grep.specs.Exit.{words_refused, ReportsWriteError, EndsAs};

use grep_core::{Buffered, CountedWrite, WriteFault};
use grep_utility::{FAILED, OUT_OF_MEMORY, Program, USAGE, WRITE_ERROR, fail};

/// What the program reports of itself.
#[tactic(auto, unfolding(grep_utility::specs::Texts::usage))]
pub fn program() -> Program
    ensures words { result.words_refused.now ≡ words_refused }
    ensures usage { result.usage.now ≡ usage }
    ensures memory { result.out_of_memory.now ≡ out_of_memory }
{
    Program {
        words_refused: b"grep: words must be UTF-8",
        usage: USAGE,
        out_of_memory: OUT_OF_MEMORY,
    }
}

/// Reports that the output could not be written, unless a message could not be written before, and
/// returns the exit status.
fn report_write_error<M: CountedWrite>(messages: &mut M) -> u8
    ensures status { result ≡ 2 }
    ensures reported { ReportsWriteError (writer M.contents M.failures messages.old)
        (writer M.contents M.failures messages.new) }
{
    if messages.failures() > 0 {
        return FAILED;
    }
    fail(messages, WRITE_ERROR)
}

/// Sends the buffered output, and returns the exit status: the one that was found, or 2 if the
/// output could not be sent, which is reported. If a write of the output failed before, nothing is
/// sent.
pub fn finish<W: CountedWrite, M: CountedWrite>(
    out: &mut Buffered<W>,
    messages: &mut M,
    found: u8,
) -> u8
    ensures { EndsAs W.contents W.failures out.old out.new
        (writer M.contents M.failures messages.old) (writer M.contents M.failures messages.new)
        found result }
{
    if out.failures() > 0 {
        return found;
    }
    match out.send() {
        Ok(()) => found,
        Err(WriteFault) => report_write_error(messages),
    }
}
