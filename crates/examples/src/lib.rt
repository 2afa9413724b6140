//! The code that the pages show, and calls of the worked commands: nothing but examples, each with a
//! test.
#![tactic(auto)]

#[cfg(test)]
mod automata;
#[cfg(test)]
mod chunks;
#[cfg(test)]
mod finds;
#[cfg(test)]
mod lines;
#[cfg(test)]
mod marks;
#[cfg(test)]
mod matchers;
#[cfg(test)]
mod scripts;
#[cfg(test)]
mod sessions;
#[cfg(test)]
mod trees;
#[cfg(test)]
mod utility;
#[cfg(test)]
mod watched;
#[cfg(test)]
mod worked;
