//! The whole command (XCU grep).
ghost use Rattle.std.specs.Prelude.{List, ◌≡◌};
ghost use Rattle.re_search.specs.Working.Matchers.{AreAlike, expressions_of};
ghost use Rattle.re_search.specs.declared.matcher.Matcher.{Matcher};
ghost use Rattle.grep_core.specs.{Sources.Returns, Run.{writer, devices}};
ghost use Rattle.grep_utility.specs.{Folder.{sources_named, searched}, Words.texts_of};
ghost use Rattle.grep_utility.specs.Command.{CommandGives, SearchEnds};

use crate::files::Files;
use crate::message_texts::{end_search, write_command_fault};
use crate::operands::Operands;
use crate::prepare::prepare;
use crate::texts::FAILED;
use crate::usage::write_usage_fault;
use crate::words::{Request, read_words};
use grep_core::{CountedWrite, SearchRequest, Sources, search_all};
use re_search::{Matcher, Meter};
use std::alloc::Global;

/// Several matchers. A call that names [`Matcher`], which holds what is `'static`, can't be proved
/// where a type argument has a lifetime, as that of [`Operands`].
pub trait Matchers {
    /// The matchers.
    ghost items: { Self → List Matcher };

    /// Lends them.
    fn lend(&mut self) -> &mut [Matcher]
        ensures { result.now ≡ items self.old };
}

impl Matchers for Vec<Matcher> {
    ghost items = { λ matchers. matchers.items };

    fn lend(&mut self) -> &mut [Matcher] {
        self
    }
}

/// Searches sources, and returns the exit status.
fn search_sources<S: Sources, L: Matchers, W: CountedWrite, N: CountedWrite>(
    search: &SearchRequest,
    matchers: &mut L,
    sources: &mut S,
    out: &mut W,
    messages: &mut N,
    meter: &mut Meter,
) -> u8
    requires in_order { S.stands_at sources.old 0 }
    requires alike { AreAlike search.now.options.line_regexp (L.items matchers.old) }
    ensures same_loan { S.loan sources.new ≡ S.loan sources.old }
    ensures ends { SearchEnds (expressions_of (L.items matchers.old)) search.now.options
        (S.listed sources.old) (Returns S.returned_readers sources.old sources.new)
        (devices (writer W.contents W.failures out.old) (writer N.contents N.failures messages.old)
        (S.failures sources.old) meter.old)
        (devices (writer W.contents W.failures out.new) (writer N.contents N.failures messages.new)
        (S.failures sources.new) meter.new) result }
{
    let found = search_all(search, sources, matchers.lend(), out, messages, meter);
    end_search(messages, found)
}

/// Searches the files of a request, and returns the exit status.
fn search_request<F: Files, W: CountedWrite, N: CountedWrite>(
    alloc: Global,
    request: &Request,
    matchers: &mut Vec<Matcher>,
    files: &mut F,
    out: &mut W,
    messages: &mut N,
    meter: &mut Meter,
) -> u8
    requires alike { AreAlike request.now.options.line_regexp matchers.old.items }
    ensures { SearchEnds (expressions_of matchers.old.items) request.now.options
        (sources_named (F.folder files.old) (searched (texts_of request.now.files.items)))
        (Returns F.returned_readers files.old files.new)
        (devices (writer W.contents W.failures out.old) (writer N.contents N.failures messages.old)
        (F.failures files.old) meter.old)
        (devices (writer W.contents W.failures out.new) (writer N.contents N.failures messages.new)
        (F.failures files.new) meter.new) result }
{
    files.begin_search(&request.options);
    let search = SearchRequest {
        alloc,
        options: request.options,
    };
    let mut operands = Operands::new(&mut *files, &request.files);
    let status = search_sources(&search, matchers, &mut operands, out, messages, meter);
    let _files = operands.into_files();
    status
}

/// The whole command (XCU grep), with the words that follow its name: writes standard output and
/// standard error, and returns the exit status.
///
/// The status is 0 where a line was selected, 1 where none was, and 2 on an error. It is 2, with
/// nothing written to standard output, for the first of these reasons, which a message reports:
///
/// 1. Words are refused, as [`read_words`] says: the fault and a line on how grep is used.
/// 2. A pattern file can't be opened or read: `grep: NAME: cannot open`, `grep: NAME: read error`.
///    `-s` doesn't silence these. Pattern files are read in the order of their options.
/// 3. There are more than 65,535 patterns: `grep: too many patterns`.
/// 4. A pattern is refused: `grep: pattern N: KIND at AT`, with N the number of the first such
///    pattern over all lists and pattern files, from 1, and AT a place in it, in bytes from 0.
///
/// Otherwise the files are searched in order, or standard input if none is named. A file that can't
/// be opened or read is reported, but not under `-s`, and the search continues after it. The status
/// is then 2, but 0 where a line was selected under `-q`. The word `-`, as a file or a pattern
/// file, is standard input, which is empty from its second use on.
///
/// If a write to standard output fails, a beginning of the output was written, `grep: write error`
/// is reported and the status is 2. If a message can't be written, the status is 2 and nothing more
/// is reported. If an allocation fails, `grep: out of memory` is reported and the status is 2. No
/// write is tried again, and neither device is flushed at the end.
///
/// The meter counts at most as many steps, and at most as many passed bytes, as one search of each
/// line for each pattern costs. The parts of a line cost one more search of it, however many they
/// are. Before the files are searched nothing is counted.
pub fn run_grep<F: Files, W: CountedWrite, M: CountedWrite>(
    alloc: Global,
    words: &[String],
    files: &mut F,
    out: &mut W,
    messages: &mut M,
    meter: &mut Meter,
) -> u8
    ensures { CommandGives (F.folder files.old) (Returns F.returned_readers files.old files.new)
        (devices (writer W.contents W.failures out.old) (writer M.contents M.failures messages.old)
        (F.failures files.old) meter.old)
        (devices (writer W.contents W.failures out.new) (writer M.contents M.failures messages.new)
        (F.failures files.new) meter.new)
        result (texts_of words.now) }
{
    let request = match read_words(alloc, words) {
        Ok(request) => request,
        Err(fault) => {
            let _ = write_usage_fault(messages, fault);
            return FAILED;
        }
    };
    match prepare(alloc, &request, files) {
        Ok(mut matchers) => {
            search_request(alloc, &request, &mut matchers, files, out, messages, meter)
        }
        Err(fault) => {
            let _ = write_command_fault(messages, fault);
            FAILED
        }
    }
}
