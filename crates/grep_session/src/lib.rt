//! Files and patterns that are edited, and what grep writes for them after each edit, from kept
//! verdicts.
#![tactic(auto)]

mod caches;
mod change;
mod columns;
mod counts;
mod fault;
mod found;
mod hit;
mod kept;
mod laws;
mod layout;
mod line_matches;
mod line_parts;
mod lines;
mod marks;
mod new_lines;
mod options;
mod pattern_matchers;
mod patterns;
mod removal;
mod replaced_lines;
mod report;
mod search;
mod session;
mod shown;
mod vec_push;
mod verdicts;

pub use caches::Caches;
pub use fault::EditFault;
pub use hit::Hit;
pub use laws::{accepted_edits_decide, edits_are_determined};
pub use line_marks::{Mark, Stretch};
pub use new_lines::NewLines;
pub use re_search::Meter;
pub use session::Session;
