//! One matcher: what decides whether a line is matched by an expression, and finds its matched
//! parts, in counted work.
#![tactic(auto)]

mod ahead;
mod cached;
mod line_match;
mod prefilter;
mod scan_backoff;
mod string_set;
mod strings;
mod sweeps;
mod window;

pub use ahead::Ahead;
pub use cached::Cached;
pub use line_match::LineMatch;
pub use re_ends::Window;
pub use string_set::add_line;
pub use strings::{Look, Strings};
pub use window::rest_of;
