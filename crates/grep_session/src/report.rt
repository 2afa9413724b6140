//! What grep writes for the kept files, and its status. No line is searched and nothing is
//! allocated: all is computed from what is kept.
ghost use Rattle.std.specs.Prelude.{◌≡◌, All, List, [], ◌∷◌, map};
ghost use Rattle.{re_syntax.specs.Expression.Expression, grep_core.specs.Output.form};
ghost use Rattle.grep_core.specs.Working.Groups.{GroupedAs};
ghost use Rattle.grep_session.specs.Working.Kept.{kept_lines, kept_file, file_with, IsFileKept};
ghost use Rattle.grep_session.specs.Working.Report.{FileFits, WritesGroups, any_selected};
ghost use Rattle.grep_session.specs.Working.Report.{any_missing, status_by_files, status_given};
ghost use Rattle.grep_session.specs.Working.Report.{Reports, ReportsMessages};

use crate::counts::count_all;
use crate::kept::KeptFile;
use crate::layout::Layout;
use crate::lines::write_lines;
use grep_core::{
    CountedWrite, FileEnd, FileFound, FileRequest, Options, Status, WriteFault, report_fault,
    status_of, write_summary,
};

/// Writes the output for one file. `some` says whether a group of lines was written before, and is
/// returned for the file after it.
fn write_file<W: CountedWrite>(
    layout: &Layout,
    some: bool,
    file: &KeptFile,
    out: &mut W,
) -> Result<bool, WriteFault>
    requires { FileFits layout.now.request.options file.now }
    ensures { (es : List Expression) → IsFileKept es layout.now.request.options file.now →
        WritesGroups W.contents W.failures
        (GroupedAs es layout.now.request.options layout.now.request.many
        (form layout.now.request.options)
        (file_with layout.now.request.name.now (kept_lines file.now) ∷ []))
        (form layout.now.request.options) layout.now.margin.now some out.old out.new result }
{
    let Some(lines) = &file.lines else {
        let end = FileEnd::Missing;
        let found = FileFound { end, selected: 0 };
        write_summary(&layout.request, found, out, layout.margin)?;
        return Ok(some);
    };
    let now = write_lines(layout, some, lines, out)?;
    let selected = count_all(lines, &layout.request.options);
    let end = FileEnd::Whole;
    let found = FileFound { end, selected };
    write_summary(&layout.request, found, out, layout.margin)?;
    Ok(now)
}

/// Writes what grep writes to standard error about the files (XCU grep, STDERR), each line after the
/// margin: the messages up to the file at which a run stops under `-q`.
///
/// If a write fails, `WriteFault` is returned, and a beginning of the messages was written. The
/// write is not tried again.
pub fn write_messages<W: CountedWrite>(
    files: &[KeptFile],
    options: &Options,
    margin: &[u8],
    out: &mut W,
) -> Result<(), WriteFault>
    ensures { (es : List Expression) → All (IsFileKept es options.now) files.now
        → ReportsMessages W.contents W.failures es options.now (map kept_file files.now) margin.now
        out.old out.new result }
{
    for file in files {
        report_fault(options.no_messages, &file.name, file.end(), out, margin)?;
        if options.quiet & file.has_selected(options) {
            return Ok(());
        }
    }
    Ok(())
}

/// Whether a line of some file is selected.
fn any_selected(files: &[KeptFile], options: &Options) -> bool
    ensures { result ≡ any_selected options.now files.now }
{
    files.iter().any(|file| file.has_selected(options))
}

/// Whether some file cannot be opened.
fn any_missing(files: &[KeptFile]) -> bool
    ensures { result ≡ any_missing files.now }
{
    files.iter().any(|file| file.end().is_fault())
}

/// The status of grep for the files (XCU grep, EXIT STATUS), where it is known whether some line is
/// selected.
#[tactic(auto, using(crate::proofs::lemmas::KeptLaws::status_in_turn))]
pub fn status_given(files: &[KeptFile], options: &Options, some: bool) -> Status
    ensures { result ≡ status_given options.now files.now some }
{
    if options.quiet & some {
        return Status::Selected;
    }
    status_of(some, any_missing(files))
}

/// The status of grep for the files.
pub fn status(files: &[KeptFile], options: &Options) -> Status
    ensures { result ≡ status_by_files options.now files.now }
{
    status_given(files, options, any_selected(files, options))
}

/// Writes what grep writes to standard output for the files (XCU grep, STDOUT), each line after the
/// margin, and returns its status, if what is kept of the files is right.
///
/// If a write fails, `WriteFault` is returned, and a beginning of the output was written. The write
/// is not tried again.
pub fn write_report<W: CountedWrite>(
    files: &[KeptFile],
    options: &Options,
    margin: &[u8],
    out: &mut W,
) -> Result<Status, WriteFault>
    requires { All (FileFits options.now) files.now }
    ensures { (es : List Expression) → All (IsFileKept es options.now) files.now
        → Reports W.contents W.failures es options.now (map kept_file files.now) margin.now out.old
        out.new result }
{
    let many = files.len() >= 2;
    let mut some = false;
    for file in files {
        let request = FileRequest {
            options: *options,
            many,
            name: &file.name,
        };
        some = write_file(&Layout { request, margin }, some, file, out)?;
    }
    Ok(status(files, options))
}
