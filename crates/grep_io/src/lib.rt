//! Input and output: the devices that are read and written, with their failures counted, and the
//! lines of a reader.
#![tactic(auto)]

mod devices;
mod input;

pub use devices::buffered::Buffered;
pub use devices::counted::{CountedRead, CountedWrite, Tally, WriteFault};
pub use devices::device::{ReadDevice, WriteDevice};
pub use devices::limited::Limited;
pub use devices::push::push_all;
pub use devices::whole_lines::WholeLines;
pub use input::lines::{Block, Lines, ReadFault, Stage};
pub use input::newlines::count_newlines;
pub use input::window::lines_end;
