//! The sources that a run reads.
ghost use Rattle.std.specs.Prelude.{◌≡◌, ℕ, ◌+◌, ◌<◌, List, [], ◌∷◌, Option, IfSome, length, ⊤};
ghost use Rattle.{grep_io.specs.Reading.Source, grep_core.specs.Run.count_more};
ghost use Rattle.grep_core.specs.Sources.{source_at, Opens, Returns};

use grep_io::CountedRead;

/// Files, streams or pieces of memory, by their places in a list, counted from 0. They are opened
/// in order, each at most once, and read from front to back; their readers are returned.
pub trait Sources {
    /// What a source is read by.
    type Reader: CountedRead;

    /// The sources, in order: the name of each; whether it can be opened and which bytes it has,
    /// where that is known. The bytes are those of one reading from front to back.
    ghost listed: { Self → List Source };

    /// How many attempts to open a source, and reads of returned readers, have failed.
    ghost failures: { Self → ℕ };

    /// What the returned readers had left, in order: any history of them that a caller keeps. What
    /// it promises holds of what was read from each source before its reader was returned.
    ghost returned_readers: { Self → List (Option (List ℕ)) → Type 0 } = { λ _ _. ⊤ };

    /// The sources are at this place: the one there may be opened next.
    ghost stands_at: { Self → ℕ → Type 0 } = { λ _ _. ⊤ };

    /// Which loan the sources are, or hold, by the name of its referent's value in proofs. It is
    /// the same for all that hold none.
    ghost loan: { Self → ℕ } = { λ _. 0 };

    /// How many sources there are.
    fn count(&self) -> usize
        ensures { result ≡ length (listed self.now) };

    /// The name of a source, as output and messages show it.
    fn name(&self, k: usize) -> &[u8]
        requires { k < length (listed self.now) }
        ensures { result.now ≡ (source_at (listed self.now) k).name };

    /// Opens the next source. `None`: it could not be opened, which is counted as a failure.
    fn open(&mut self, k: usize) -> Option<Self::Reader>
        requires place { k < length (listed self.old) }
        requires in_order { stands_at self.old k }
        ensures listed { listed self.new ≡ listed self.old }
        ensures next { stands_at self.new (k + 1) }
        ensures none_back { Returns returned_readers self.old self.new [] }
        ensures same_loan { loan self.new ≡ loan self.old }
        ensures given { Opens Self.Reader.remaining Self.Reader.failures
            (source_at (listed self.old) k)
            (failures self.old) (failures self.new) result }
        ensures readable { IfSome result Self.Reader.may_be_read };

    /// Takes a reader back, and counts its failures.
    fn close(&mut self, reader: Self::Reader)
        ensures listed { listed self.new ≡ listed self.old }
        ensures same_place { (k : ℕ) → stands_at self.old k → stands_at self.new k }
        ensures back { Returns returned_readers self.old self.new (Self.Reader.remaining reader ∷ []) }
        ensures same_loan { loan self.new ≡ loan self.old }
        ensures counted { failures self.new ≡
            count_more (failures self.old) (Self.Reader.failures reader) };

    /// How many attempts to open a source, and reads of returned readers, have failed. The count
    /// stays at the greatest `u64`.
    fn failures(&self) -> u64
        ensures { result ≡ failures self.now };
}
