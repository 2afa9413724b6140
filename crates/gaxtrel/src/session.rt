//! The calls for a live session.
ghost use Rattle.std.specs.Prelude.{◌≡◌, ◌≤◌, ◌↔◌, ◌⊎◌, ◌++◌, ◌∷◌, Some, None, [], drop, length};
ghost use Rattle.re_syntax.specs.{Lines.newline, Profile.most_states};
ghost use Rattle.{re_meter.specs.Meters.fresh, grep_cmd.specs.Replies.new_state};
ghost use Rattle.gaxtrel.specs.Live.{IsNoEdit, IsOneCommand, LiveKept, text_over};
ghost use Rattle.gaxtrel.specs.Calls.{AnswersCommands, IsEmpty, IsMisused, session_in, steps_of};

use crate::edit::script_of;
use crate::held::Held;
use crate::holder::GaxtrelHolder;
use crate::live::Live;
use crate::numbers::MISUSED;
use crate::work::no_work;
use re_auto::fresh_meter;
use std::alloc::Global;

/// How many states of its automaton a pattern may keep at most.
const MOST_STATES: usize = 65_536;

/// Makes a session without files, patterns and options, in which each pattern may keep so many
/// states. What `session` held before is freed. Answers 0; or 2 if memory is refused, 3 if `states`
/// is 0 or above 65,536: then `session` holds none.
#[unsafe(no_mangle)]
pub extern "C" fn gaxtrel_session_open(
    alloc: Global,
    session: &mut GaxtrelHolder,
    states: usize,
) -> u32
    ensures opened { result ≡ 0 →
        session_in session.new.handle.held
        ≡ Some (record { state = new_state states; replies = [] }) }
    ensures none { (result ≡ 0 → ⊥) → session.new.handle.held ≡ None }
    ensures three { (result ≡ 1 → ⊥) × (result ≤ 3) }
    ensures work { steps_of session.new.work ≡ fresh }
    ensures range { (result ≡ 3) ↔ ((1 ≤ states) × (states ≤ most_states) → ⊥) }
{
    *session = GaxtrelHolder::empty(alloc);
    if states == 0 {
        return 3;
    }
    if states > MOST_STATES {
        return 3;
    }
    match Box::new(alloc, Held::Session(Live::new(alloc, states))) {
        Ok(boxed) => {
            *session = GaxtrelHolder::of(boxed, &fresh_meter());
            0
        }
        Err(_) => 2,
    }
}

/// Answers the commands of a text, one after the other, and keeps the replies until the next call
/// of this function; how many bytes they have goes to `count`. Answers 0; or 1 if a command was
/// refused, 2 if memory was refused, 3 if `session` holds no session.
#[unsafe(no_mangle)]
pub extern "C" fn gaxtrel_session_answer(
    alloc: Global,
    session: &mut GaxtrelHolder,
    commands: &[u8],
    count: &mut usize,
) -> u32
    ensures { AnswersCommands session.old.handle.held session.new.handle.held session.new.work
        result commands.now count.old count.new }
{
    let Some(mut boxed) = session.take(alloc) else {
        return 3;
    };
    let Held::Session(live) = &mut *boxed else {
        return session.put_back(boxed, MISUSED);
    };
    let mut meter = fresh_meter();
    let ended = live.answer(alloc, commands, &mut meter);
    *count = live.count();
    *session = GaxtrelHolder::of(boxed, &meter);
    ended
}

/// Answers a command with the lines that it counts, as `gaxtrel_session_answer` answers it, a
/// newline and the lines: so no line is taken for a command. Answers 3, and does nothing, if the
/// command has a newline, or counts more or fewer lines; 2, and does nothing, if memory is refused
/// before that is known.
#[unsafe(no_mangle)]
pub extern "C" fn gaxtrel_session_edit(
    alloc: Global,
    session: &mut GaxtrelHolder,
    command: &[u8],
    lines: &[u8],
    count: &mut usize,
) -> u32
    ensures { (IsOneCommand command.now lines.now
        × AnswersCommands session.old.handle.held session.new.handle.held session.new.work result
        (command.now ++ newline ∷ lines.now) count.old count.new)
        ⊎ (IsNoEdit command.now lines.now result
        × (session.new.handle.held ≡ session.old.handle.held)
        × (steps_of session.new.work ≡ fresh) × (count.new ≡ count.old)) }
{
    let script = match script_of(alloc, command, lines) {
        Ok(script) => script,
        Err(answer) => {
            session.work = no_work();
            return answer;
        }
    };
    gaxtrel_session_answer(alloc, session, &script, count)
}

/// The replies to the last commands: how many bytes they have goes to `count`, and those from a
/// place on over `into`, as many as it has room for. Answers 0; or 3 if `session` holds no session.
#[unsafe(no_mangle)]
pub extern "C" fn gaxtrel_session_replies(
    alloc: Global,
    session: &mut GaxtrelHolder,
    from: usize,
    into: &mut [u8],
    count: &mut usize,
) -> u32
    ensures read { (kept : LiveKept) → session_in session.old.handle.held ≡ Some kept →
        (result ≡ 0) × (session.new.handle.held ≡ session.old.handle.held)
        × (count.new ≡ length kept.replies)
        × (into.new ≡ text_over (drop from kept.replies) into.old) }
    ensures none { session_in session.old.handle.held ≡ None → IsMisused
        session.old.handle.held session.new.handle.held session.new.work result
        × (into.new ≡ into.old) × (count.new ≡ count.old) }
    ensures work { steps_of session.new.work ≡ fresh }
{
    let Some(boxed) = session.take(alloc) else {
        return 3;
    };
    let Held::Session(live) = &*boxed else {
        return session.put_back(boxed, MISUSED);
    };
    live.put_replies(from, into);
    *count = live.count();
    *session = GaxtrelHolder::of(boxed, &fresh_meter());
    0
}

/// Frees what `session` holds. It then holds none.
#[unsafe(no_mangle)]
pub extern "C" fn gaxtrel_session_free(alloc: Global, session: &mut GaxtrelHolder)
    ensures { IsEmpty session.new.handle.held session.new.work }
{
    *session = GaxtrelHolder::empty(alloc);
}
