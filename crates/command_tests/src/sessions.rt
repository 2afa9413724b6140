//! Sessions under edits: what they return, show and report, and in how many steps.
mod caches;
mod edits;
mod harness;
mod memory;
mod watched;
mod worked;
