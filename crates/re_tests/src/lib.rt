//! The tests of `re_auto`, `re_ends`, `re_search` and the tables of `re_runs`: nothing but tests,
//! by what these show.
#![tactic(auto)]

#[cfg(test)]
mod automata;
#[cfg(test)]
mod cache;
#[cfg(test)]
mod ends;
#[cfg(test)]
#[cfg(test)]
mod half_bytes;
#[cfg(test)]
mod line_parts;
#[cfg(test)]
mod matchers;
#[cfg(test)]
mod plain;
