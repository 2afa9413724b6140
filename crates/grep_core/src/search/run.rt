//! The one pass over all sources.
ghost use Rattle.std.specs.Prelude.{◌≡◌};
ghost use Rattle.re_search.specs.Working.Matchers.{AreAlike, AreSame, expressions_of};
ghost use Rattle.grep_core.specs.{Run.{writer, RunGives, devices}, Sources.Returns};

use crate::output::summary::status_of;
use crate::search::file::search_source;
use crate::search::requests::{SearchRequest, SourceRequest};
use crate::sources::Sources;
use crate::status::{FileFound, RunFault, Status};
use grep_io::CountedWrite;
use re_search::{LineParts, Matcher, Meter};

/// One pass over all sources, in order, each opened at most once and read once from front to back
/// (XCU grep). It writes the output and the messages that grep's definition gives for the files for
/// which the sources stand, and returns its status. Every reader is returned. The matchers are
/// those of the patterns, and `-i` is theirs to heed.
///
/// Under `-q` nothing is read after the first selected line, and under `-l` a source is left there;
/// what is left unread may be anything that agrees with what is known of the source. A source of
/// more than `u64::MAX` lines is broken after that number of lines.
///
/// The meter counts at most as many steps, and at most as many passed bytes, as one search of each
/// line by each matcher costs, and one more where parts are written.
///
/// What a buffering writer holds is sent before a read, which may wait, and before a message; what
/// it holds at the end is left to the caller.
///
/// Returns `RunFault::Write` or `RunFault::MessageWrite` if a write fails; what is due for the
/// sources before is written then, and a beginning of what follows, and no further source is
/// opened. Returns `RunFault::Memory` if an allocation fails; the output and the messages for the
/// sources before that one are written then, and the rows of its first lines. These are the lines
/// that were done, and no more than a buffer or a line was read after them. No failed read, open or
/// write is tried again.
pub fn search_all<S: Sources, W: CountedWrite, N: CountedWrite>(
    request: &SearchRequest,
    sources: &mut S,
    matchers: &mut [Matcher],
    out: &mut W,
    messages: &mut N,
    meter: &mut Meter,
) -> Result<Status, RunFault>
    requires in_order { S.stands_at sources.old 0 }
    requires alike { AreAlike request.now.options.line_regexp matchers.old }
    ensures same_loan { S.loan sources.new ≡ S.loan sources.old }
    ensures run { RunGives (expressions_of matchers.old) request.now.options (S.listed sources.old)
        (Returns S.returned_readers sources.old sources.new)
        (devices (writer W.contents W.failures out.old) (writer N.contents N.failures messages.old)
        (S.failures sources.old) meter.old)
        (devices (writer W.contents W.failures out.new) (writer N.contents N.failures messages.new)
        (S.failures sources.new) meter.new) result }
    ensures same_matchers { AreSame matchers.old matchers.new }
{
    let mut line_parts = LineParts::new(request.alloc);
    let count = sources.count();
    let many = count >= 2;
    let mut some = false;
    let mut faulty = false;
    for k in 0..count {
        let source = SourceRequest {
            search: &*request,
            place: k,
            many,
            shown: some,
        };
        let found = match search_source(
            &source,
            sources,
            matchers,
            &mut line_parts,
            out,
            messages,
            meter,
        ) {
            Ok(found) => found,
            Err(fault) => return Err(fault),
        };
        if request.options.quiet & found.has_selected() {
            return Ok(Status::Selected);
        }
        some |= found.has_selected();
        faulty |= found.end.is_fault();
    }
    Ok(status_of(some, faulty))
}
