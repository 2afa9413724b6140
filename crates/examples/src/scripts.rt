//! Scripts that are answered.

// crates/grep_cmd/README.md
use grep_cmd::{Script, ScriptFault};
use grep_core::Tally;
use re_auto::fresh_meter;
use std::alloc::Global;

/// The replies to a script.
fn replies(alloc: Global, text: &[u8]) -> Result<Vec<u8>, ScriptFault> {
    let mut script = Script::new(alloc, 256);
    let mut reader = Tally::new(text);
    let mut writer = Tally::new(Vec::new(alloc));
    script.answer(alloc, &mut reader, &mut writer, &mut fresh_meter())?;
    Ok(writer.into_inner())
}
// end

#[test]
fn a_script_is_answered(rt: HostRuntime) {
    let replies = replies(rt.alloc(), b"file f 1\nab\npatterns 1\na\nshow\n");
    assert!(rt;
        replies.is_ok_and(|text| text.as_slice() == b"ok\nok\no ab\nstatus 0\n".as_slice())
    );
}
