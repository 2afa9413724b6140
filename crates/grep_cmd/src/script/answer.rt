//! How a command is done and answered.
ghost use Rattle.std.specs.Prelude.{IfOk, [], IfErr, ◌∷◌, codes, Bool, Some, List, ◌≡◌, map, ◌≢◌};
ghost use Rattle.re_syntax.specs.{Bytes.Text, Lines.joined};
ghost use Rattle.grep_core.specs.{Working.Numbered.HasHanded, Reading.IsOneLineAndFew};
ghost use Rattle.grep_session.specs.Touched.{NeedsNoMemory, TakesSteps};
ghost use Rattle.grep_session.specs.{declared.fault.EditFault.TheVariants.Memory, Edits.EditGives};
ghost use Rattle.grep_session.specs.Marks.{MarksGiven, Watched};
ghost use Rattle.script_commands.specs.{declared.command.CountedEdit.CountedEdit, Commands.counts};
ghost use Rattle.script_commands.specs.{Commands.line_command, Working.ReadCommands.line_meant};
ghost use Rattle.script_commands.specs.Working.ReadCommands.{pattern_meant, counted_meant};
ghost use Rattle.grep_cmd.specs.Replies.{AreShown, ReportsChanges, ReportsPage, reply_to};
ghost use Rattle.grep_cmd.specs.{Replies.version_line, Working.Reported.LeavesReport};
ghost use Rattle.grep_cmd.specs.Working.Answered.{AnswersLine, Replied, answer_for, state_of};
ghost use Rattle.grep_cmd.specs.declared.script.reply.Answer.{Answer};

use crate::reports::{show, show_changes, show_page};
use crate::script::counted::take_lines;
use crate::script::pattern_lines::take_texts;
use crate::script::reply::{Answer, write_reply};
use crate::script::{ScriptFault, VERSION};
use grep_core::{CountedRead, CountedWrite, Lines, WriteFault, write_line, write_line_after};
use grep_session::{EditFault, Meter, Session};
use script_commands::{
    Command, CountedCommand, CountedEdit, FileEdit, LineEdit, PatternEdit, join_lines, read_command,
};
use std::alloc::{AllocError, Global};

/// Makes an edit for which the command line is enough.
fn make_edit(session: &mut Session, edit: LineEdit, meter: &mut Meter) -> Result<(), EditFault>
    ensures gives { EditGives (line_meant edit) session.old.inputs session.new.inputs result }
    ensures same_states { session.new.states ≡ session.old.states }
    ensures marks { MarksGiven (line_meant edit) session.old session.new.marks result }
    ensures steps { TakesSteps (line_meant edit) session.old.inputs meter.old meter.new }
    ensures memory { NeedsNoMemory (line_meant edit) session.old.inputs →
        IfErr result (λ fault. fault ≢ Memory) }
{
    match edit {
        LineEdit::AddMissing(name) => session.add_missing(name),
        LineEdit::DropFile(file) => session.drop_file(file),
        LineEdit::DropPattern(pattern) => session.drop_pattern(pattern, meter),
        LineEdit::SetFlag(flag, on) => session.set_flag(flag, on, meter),
        LineEdit::SetSyntax(syntax) => session.set_syntax(syntax, meter),
        LineEdit::SetContext(context) => {
            session.set_context(context);
            Ok(())
        }
    }
}

/// Makes an edit of patterns by a list.
fn put_list(
    session: &mut Session,
    edit: PatternEdit,
    list: Vec<u8>,
    meter: &mut Meter,
) -> Result<(), EditFault>
    ensures gives { EditGives (pattern_meant edit list.items) session.old.inputs session.new.inputs
        result }
    ensures same_states { session.new.states ≡ session.old.states }
    ensures marks { MarksGiven (pattern_meant edit list.items) session.old session.new.marks
        result }
    ensures steps { TakesSteps (pattern_meant edit list.items) session.old.inputs meter.old
        meter.new }
    ensures memory { NeedsNoMemory (pattern_meant edit list.items) session.old.inputs →
        IfErr result (λ fault. fault ≢ Memory) }
{
    match edit {
        PatternEdit::Add => session.add_patterns(&list, meter),
        PatternEdit::Change(pattern) => session.change_pattern(pattern, list, meter),
    }
}

/// Makes an edit of patterns by the lines. They are joined first; the allocation for that may fail.
fn put_patterns(
    alloc: Global,
    session: &mut Session,
    edit: PatternEdit,
    lines: Vec<Vec<u8>>,
    meter: &mut Meter,
) -> Result<Result<(), EditFault>, AllocError>
    ensures gives { IfOk result
        (λ answer.
        EditGives (pattern_meant edit (joined (map (λ l. l.items) lines.items))) session.old.inputs
        session.new.inputs answer) }
    ensures same_states { IfOk result (λ _. session.new.states ≡ session.old.states) }
    ensures marks { IfOk result
        (λ answer.
        MarksGiven (pattern_meant edit (joined (map (λ l. l.items) lines.items))) session.old
        session.new.marks answer) }
    ensures steps { IfOk result
        (λ _. TakesSteps (pattern_meant edit (joined (map (λ l. l.items) lines.items)))
        session.old.inputs meter.old meter.new) }
    ensures idle { IfErr result (λ _. meter.new ≡ meter.old) }
    ensures kept { IfErr result (λ _. session.new ≡ session.old) }
    ensures memory { IfOk result
        (λ answer. NeedsNoMemory (pattern_meant edit (joined (map (λ l. l.items) lines.items)))
        session.old.inputs → IfErr answer (λ fault. fault ≢ Memory)) }
{
    let list = join_lines(alloc, &lines)?;
    Ok(put_list(session, edit, list, meter))
}

/// Writes the reply to an edit that was answered so.
fn reply_to_edit<W: CountedWrite>(
    answer: Result<(), EditFault>,
    out: &mut W,
) -> Result<Answer, ScriptFault>
    ensures { Replied W.contents W.failures out.old out.new (reply_to answer ∷ [])
        (answer_for answer) result }
{
    match write_reply(out, answer) {
        Ok(answer) => Ok(answer),
        Err(WriteFault) => Err(ScriptFault::Write),
    }
}

/// Writes this line as the reply to a command that was answered so.
fn reply_with<W: CountedWrite>(
    text: &[u8],
    answer: Answer,
    out: &mut W,
) -> Result<Answer, ScriptFault>
    ensures { Replied W.contents W.failures out.old out.new (text.now ∷ []) answer result }
{
    match write_line(out, text) {
        Ok(()) => Ok(answer),
        Err(WriteFault) => Err(ScriptFault::Write),
    }
}

/// Writes the report.
fn reply_to_show<W: CountedWrite>(session: &Session, out: &mut W) -> Result<Answer, ScriptFault>
    ensures { (shown : List Text) × AreShown session.now.inputs shown ×
        Replied W.contents W.failures out.old out.new shown Answer.Accepted result }
{
    match show(session, out) {
        Ok(()) => Ok(Answer::Accepted),
        Err(WriteFault) => Err(ScriptFault::Write),
    }
}

/// Writes what changed.
fn reply_to_changes<W: CountedWrite>(
    session: &mut Session,
    has_text: bool,
    out: &mut W,
) -> Result<Answer, ScriptFault>
    ensures { (rows : List Text) × (then : Watched) ×
        ReportsChanges has_text session.old then rows ×
        Replied W.contents W.failures out.old out.new rows Answer.Accepted result ×
        LeavesReport session.old session.new then result }
{
    match show_changes(session, has_text, out) {
        Ok(()) => Ok(Answer::Accepted),
        Err(WriteFault) => Err(ScriptFault::Write),
    }
}

/// Writes a page of the hits.
fn reply_to_page<W: CountedWrite>(
    session: &Session,
    first: usize,
    count: usize,
    has_text: bool,
    out: &mut W,
) -> Result<Answer, ScriptFault>
    ensures { (rows : List Text) × ReportsPage has_text session.now.inputs first count rows ×
        Replied W.contents W.failures out.old out.new rows Answer.Accepted result }
{
    match show_page(session, first, count, has_text, out) {
        Ok(()) => Ok(Answer::Accepted),
        Err(WriteFault) => Err(ScriptFault::Write),
    }
}

/// Writes the version.
fn reply_to_version<W: CountedWrite>(out: &mut W) -> Result<Answer, ScriptFault>
    ensures { Replied W.contents W.failures out.old out.new (version_line ∷ [])
        Answer.Accepted result }
{
    match write_line_after(out, b"occur ", VERSION.as_bytes()) {
        Ok(()) => Ok(Answer::Accepted),
        Err(WriteFault) => Err(ScriptFault::Write),
    }
}

/// Sets whether the rows of hits have their text, and writes the reply.
fn reply_to_text<W: CountedWrite>(
    on: bool,
    has_text: &mut bool,
    out: &mut W,
) -> Result<Answer, ScriptFault>
    ensures set { has_text.new ≡ on }
    ensures replied { Replied W.contents W.failures out.old out.new (codes "ok" ∷ [])
        Answer.Accepted result }
{
    *has_text = on;
    reply_with(b"ok", Answer::Accepted, out)
}

/// Takes the lines that a command counts, edits patterns by them, and writes the reply.
fn answer_patterns<R: CountedRead, W: CountedWrite>(
    alloc: Global,
    lines: &mut Lines<R>,
    count: usize,
    edit: PatternEdit,
    session: &mut Session,
    meter: &mut Meter,
    out: &mut W,
) -> Result<Answer, ScriptFault>
    ensures answers { (texts : Bool) (reader : R) (handed : List Text) (line : Text) →
        HasHanded R.remaining R.failures reader lines.old handed
        → line_command line ≡ Some (counts count (counted_meant (CountedEdit.PutPatterns edit)))
        → AnswersLine R.remaining R.failures reader handed line lines.new meter.old meter.new
        (state_of session.old texts) (state_of session.new texts)
        W.contents W.failures out.old out.new result }
    ensures held { IsOneLineAndFew lines.old.lines.ahead → IsOneLineAndFew lines.new.lines.ahead }
    ensures same_loan { R.loan lines.new.lines.reader ≡ R.loan lines.old.lines.reader }
{
    let taken = match take_texts(alloc, lines, count, out) {
        Ok(Some(taken)) => taken,
        Ok(None) => return reply_with(b"refused Truncated", Answer::Truncated, out),
        Err(fault) => return Err(fault),
    };
    match put_patterns(alloc, session, edit, taken, meter) {
        Ok(answer) => reply_to_edit(answer, out),
        Err(_) => Err(ScriptFault::Memory),
    }
}

/// Takes the lines that a command counts, makes its edit, and writes the reply.
fn answer_counted<R: CountedRead, W: CountedWrite>(
    alloc: Global,
    lines: &mut Lines<R>,
    counted: CountedCommand,
    session: &mut Session,
    meter: &mut Meter,
    out: &mut W,
) -> Result<Answer, ScriptFault>
    requires { (reader : R) × (handed : List Text) ×
        HasHanded R.remaining R.failures reader lines.old handed }
    ensures answers { (texts : Bool) (reader : R) (handed : List Text) (line : Text) →
        HasHanded R.remaining R.failures reader lines.old handed
        → line_command line ≡ Some (counts counted.count (counted_meant counted.edit))
        → AnswersLine R.remaining R.failures reader handed line lines.new meter.old meter.new
        (state_of session.old texts) (state_of session.new texts)
        W.contents W.failures out.old out.new result }
    ensures held { IsOneLineAndFew lines.old.lines.ahead → IsOneLineAndFew lines.new.lines.ahead }
    ensures same_loan { R.loan lines.new.lines.reader ≡ R.loan lines.old.lines.reader }
{
    let CountedCommand { count, edit } = counted;
    let edit = match edit {
        CountedEdit::PutLines(edit) => edit,
        CountedEdit::PutPatterns(edit) => {
            return answer_patterns(alloc, lines, count, edit, session, meter, out);
        }
    };
    let taken = match take_lines(alloc, lines, count, out) {
        Ok(Some(taken)) => taken,
        Ok(None) => return reply_with(b"refused Truncated", Answer::Truncated, out),
        Err(fault) => return Err(fault),
    };
    match edit {
        FileEdit::Add(name) => reply_to_edit(session.add_file(name, taken, meter), out),
        FileEdit::Splice {
            file,
            start,
            removed,
        } => reply_to_edit(session.splice(file, start, removed, taken, meter), out),
    }
}

/// Does what the command line that was handed out last asks for, and writes the reply.
pub fn answer_command<R: CountedRead, W: CountedWrite>(
    alloc: Global,
    lines: &mut Lines<R>,
    session: &mut Session,
    has_text: &mut bool,
    meter: &mut Meter,
    out: &mut W,
) -> Result<Answer, ScriptFault>
    requires { (reader : R) × (handed : List Text) ×
        HasHanded R.remaining R.failures reader lines.old handed }
    ensures answers { (reader : R) (handed : List Text) →
        HasHanded R.remaining R.failures reader lines.old handed
        → AnswersLine R.remaining R.failures reader handed lines.old.lines.line lines.new
        meter.old meter.new (state_of session.old has_text.old)
        (state_of session.new has_text.new) W.contents W.failures out.old out.new result }
    ensures held { IsOneLineAndFew lines.old.lines.ahead → IsOneLineAndFew lines.new.lines.ahead }
    ensures same_loan { R.loan lines.new.lines.reader ≡ R.loan lines.old.lines.reader }
{
    match read_command(alloc, lines.line()) {
        Ok(Some(Command::Edit(edit))) => reply_to_edit(make_edit(session, edit, meter), out),
        Ok(Some(Command::Counted(counted))) => {
            answer_counted(alloc, lines, counted, session, meter, out)
        }
        Ok(Some(Command::Show)) => reply_to_show(session, out),
        Ok(Some(Command::Changes)) => reply_to_changes(session, *has_text, out),
        Ok(Some(Command::Page(first, count))) => {
            reply_to_page(session, first, count, *has_text, out)
        }
        Ok(Some(Command::Version)) => reply_to_version(out),
        Ok(Some(Command::Text(on))) => reply_to_text(on, has_text, out),
        Ok(None) => reply_with(b"refused BadCommand", Answer::Refused, out),
        Err(_) => Err(ScriptFault::Memory),
    }
}
