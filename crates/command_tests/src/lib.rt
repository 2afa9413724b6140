//! The tests of `grep_core`, `grep_session`, `grep_live`, `grep_utility` and `grep_cmd`: nothing but
//! tests, by what these show.
#![tactic(auto)]

#[cfg(test)]
mod devices;
#[cfg(test)]
mod faults;
#[cfg(test)]
mod harness;
#[cfg(test)]
mod long_lines;
#[cfg(test)]
mod marks;
#[cfg(test)]
mod memory;
#[cfg(test)]
mod scripts;
#[cfg(test)]
mod sessions;
