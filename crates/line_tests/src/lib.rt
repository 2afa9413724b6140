//! The tests of `line_finds` and `line_chunks`: nothing but tests, by what these show.
#![tactic(auto)]

#[cfg(test)]
mod comparison;
#[cfg(test)]
mod findings;
#[cfg(test)]
mod marks;
#[cfg(test)]
mod memory;
#[cfg(test)]
mod splices;
