//! The ends of all strings at the places of a line.
ghost use Rattle.std.specs.Prelude.{◌≡◌, ℕ, ◌+◌, ◌^◌, ◌<◌, ◌≤◌, length};
ghost use Rattle.{re_trees.specs.Working.PutEnds.AddsEnds, re_strings.specs.Working.Keys.keys};
ghost use Rattle.re_strings.specs.Working.FixedSets.{IsTable, Labels, Occurs, IsTableOf, EndsWith};

use crate::aho_corasick::{AhoCorasick, step};
use crate::keys::key_of;

impl AhoCorasick {
    /// Gives each place of the stretch of a line the greatest end of the strings, not the empty one,
    /// that begin there, if `ends` has no greater one. The stretch begins at `start`. It goes over each
    /// byte once: its caller counts a step for each.
    pub fn add_ends(&self, line: &[u8], start: usize, ends: &mut [usize])
        requires table { IsTable self.now }
        requires fits { length ends.old ≡ length line.now }
        requires small { start + length line.now < 2 ^ 64 }
        ensures { (all : Labels) → IsTableOf all self.now →
            AddsEnds
            (λ i m. (j : ℕ) × (m < start + j)
            × Occurs all.strings 0 (keys self.now.fold line.now) i j) line.now ends.old ends.new }
    {
        let mut node = 0;
        'places: for place in 0..line.len() {
            let byte = key_of(self.fold, line[place]);
            node = step(&self.trie, &self.steps, &self.fails, node, byte);
            self.put_outputs(node, place + 1, start + (place + 1), ends);
        }
    }

    // Puts this end of the line where each string begins that the node ends with. It is the end `end`
    // of the stretch.
    fn put_outputs(&self, node: usize, end: usize, top: usize, ends: &mut [usize])
        requires table { IsTable self.now }
        requires in_trie { node < length self.now.trie.bytes.items }
        ensures { (all : Labels) → IsTableOf all self.now → length (all.label node) ≤ end →
            AddsEnds
            (λ i m. (n : ℕ) × (m < top) × (i + n ≡ end) × EndsWith all.strings (all.label node) n)
            ends.old ends.old ends.new }
    {
        let mut output = self.outputs[node] as usize;
        'outputs: while output > 0 {
            let start = end.saturating_sub(self.depths[output] as usize);
            put_end(ends, start, top);
            output = self.outputs[self.fails[output] as usize] as usize;
        }
    }
}

/// Puts this end at a place, if that has no greater one. There may be no such place.
pub fn put_end(ends: &mut [usize], start: usize, end: usize)
    ensures { AddsEnds (λ i m. (i ≡ start) × (m < end)) ends.old ends.old ends.new }
{
    if start < ends.len() && ends[start] < end {
        ends[start] = end;
    }
}
