//! Scripts of a session, and all of the utility grep: from bytes to bytes.
#![tactic(auto)]

mod laws;
mod reports;
mod script;

pub use grep_utility::{
    FAILED, Files, Matchers, OUT_OF_MEMORY, PatternSource, Request, USAGE, UsageFault, WRITE_ERROR,
    read_words, run_grep, searchers_of, write_usage_fault,
};
pub use laws::editors_follow;
pub use reports::show;
pub use script::{Script, ScriptEnd, ScriptFault, VERSION};
