//! Matchers and live sessions for programs that are not Rattle: a static library with the calls of
//! `gaxtrel.h`.
#![tactic(auto)]

mod array;
mod compile;
mod each;
mod edit;
mod handle;
mod held;
mod holder;
mod line_parts;
mod live;
mod loose;
mod numbers;
mod options;
mod part;
mod patterns;
mod search;
mod session;
mod text_lines;
mod text_reader;
mod text_search;
mod version;
mod which;
mod work;

pub use holder::GaxtrelHolder;
pub use numbers::GaxtrelFault;
pub use options::GaxtrelOptions;
pub use part::GaxtrelPart;
pub use text_lines::GaxtrelLine;
pub use work::GaxtrelWork;
