//! Devices: what is read and written, with its failures counted.

pub mod buffered;
pub mod byte_buffer;
pub mod counted;
pub mod device;
pub mod limited;
pub mod push;
pub mod whole_lines;
