//! The tree of the beginnings of some strings.
ghost use Rattle.std.specs.Prelude.{◌≡◌, ℕ, ◌+◌, ◌<◌, ◌≤◌, [], ◌∷◌, ◌++◌, length, slice_index};
ghost use Rattle.std.specs.Prelude.{MatchOption, IfSome};
ghost use Rattle.re_strings.specs.Working.FixedSets.{IsTrie, IsTrieOf, IsFront, Labels};

use memchr::memchr;

// Up to so many children are compared one by one: for so few a call of `memchr` costs more.
const FEW_CHILDREN: usize = 16;

/// A tree whose nodes are the beginnings of some strings, shorter ones first. Each has the byte
/// that it adds to its parent.
#[derive(Drop)]
pub struct Trie {
    /// The first child of each node; the children of a node are next to each other. One more entry
    /// ends those of the last node.
    pub first: Vec<u32>,
    /// The last byte of each node; any value for the root.
    pub bytes: Vec<u8>,
}

impl Trie {
    /// The child of the node for this byte.
    #[inline]
    pub fn child(&self, node: usize, byte: u8) -> Option<usize>
        requires trie { IsTrie self.now.first.items self.now.bytes.items }
        requires within { node < length self.now.bytes.items }
        ensures beyond { IfSome result
            (λ m. (node < m) × (m < length self.now.bytes.items) ×
            (m < slice_index self.now.first.items (node + 1))) }
        ensures reported { (all : Labels) → IsTrieOf all self.now.first.items self.now.bytes.items
            → MatchOption result (IsFront all.strings (all.label node ++ byte ∷ []) → ⊥)
            (λ m. all.label m ≡ all.label node ++ byte ∷ []) }
    {
        let from = self.first[node] as usize;
        let to = self.first[node + 1] as usize;
        if to - from > FEW_CHILDREN {
            let place = memchr(byte, &self.bytes[from..to])?;
            return Some(from + place);
        }
        'children: for child in from..to {
            if self.bytes[child] == byte {
                return Some(child);
            }
        }
        None
    }
}
