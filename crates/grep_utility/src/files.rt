//! The files that a command may name.
ghost use Rattle.std.specs.Prelude.{◌≡◌, ℕ, ⊤, List, [], ◌∷◌, Option, IfSome};
ghost use Rattle.grep_core.specs.{Run.count_more, Sources.{Opens, Returns}};
ghost use Rattle.grep_utility.specs.Folder.{Folder, file_named, input_used, is_standard};
ghost use Rattle.grep_utility.specs.Folder.{display_name, source_named, after_use};

use grep_core::{CountedRead, Options};

/// Files by their names, and standard input.
pub trait Files {
    /// What a file, or standard input, is read by.
    type Reader: CountedRead;

    /// What is known of the files: whether each can be opened, and its bytes; and the bytes that
    /// standard input has left.
    ghost folder: { Self → Folder };

    /// How many attempts to open a file, and reads of returned readers, have failed.
    ghost failures: { Self → ℕ };

    /// What the returned readers had left, in order: any history of them that a caller keeps.
    ghost returned_readers: { Self → List (Option (List ℕ)) → Type 0 } = { λ _ _. ⊤ };

    /// A reader of standard input; none of its reads has failed. From the second call on there is
    /// nothing to read.
    fn standard(&mut self) -> Self::Reader
        ensures used { folder self.new ≡ input_used (folder self.old) }
        ensures bytes { Self.Reader.remaining result ≡ (folder self.old).input }
        ensures fresh { Self.Reader.failures result ≡ 0 }
        ensures readable { Self.Reader.may_be_read result }
        ensures counted { failures self.new ≡ failures self.old }
        ensures none_back { Returns returned_readers self.old self.new [] };

    /// A reader of the file, from its first byte on; none of its reads has failed. `None`: it could
    /// not be opened, which is counted as a failure.
    fn open(&mut self, name: &str) -> Option<Self::Reader>
        ensures kept { folder self.new ≡ folder self.old }
        ensures opened { Opens Self.Reader.remaining Self.Reader.failures
            (file_named (folder self.old) name.now)
            (failures self.old) (failures self.new) result }
        ensures readable { IfSome result Self.Reader.may_be_read }
        ensures none_back { Returns returned_readers self.old self.new [] };

    /// What is opened from here on is searched with these options, and its rows may be written
    /// before it is read to its end. What was opened before has patterns, and was read to its end.
    fn begin_search(&mut self, _options: &Options)
        ensures kept { folder self.new ≡ folder self.old }
        ensures counted { failures self.new ≡ failures self.old }
        ensures none_back { Returns returned_readers self.old self.new [] }
    {}

    /// Takes a reader back, and counts its failures.
    fn close(&mut self, reader: Self::Reader)
        ensures kept { folder self.new ≡ folder self.old }
        ensures counted { failures self.new ≡
            count_more (failures self.old) (Self.Reader.failures reader) }
        ensures back { Returns returned_readers self.old self.new (Self.Reader.remaining reader ∷ []) };

    /// How many attempts to open a file, and reads of returned readers, have failed. The count
    /// stays at the greatest `u64`.
    fn failures(&self) -> u64
        ensures { result ≡ failures self.now };
}

/// Whether the word names standard input (XBD 12.2, Guideline 13).
fn is_standard(name: &str) -> bool
    ensures { result ≡ is_standard name.now }
{
    name == "-"
}

/// The name of the source that the word names, as output and messages show it.
pub fn display_name(name: &str) -> &[u8]
    ensures { result.now ≡ display_name name.now }
{
    if is_standard(name) {
        return b"(standard input)";
    }
    name.as_bytes()
}

/// Opens the source that the word names.
pub fn open_named<F: Files>(files: &mut F, name: &str) -> Option<F::Reader>
    ensures used { F.folder files.new ≡ after_use (F.folder files.old) name.now }
    ensures opened { Opens F.Reader.remaining F.Reader.failures
        (source_named (F.folder files.old) name.now)
        (F.failures files.old) (F.failures files.new) result }
    ensures readable { IfSome result F.Reader.may_be_read }
    ensures none_back { Returns F.returned_readers files.old files.new [] }
{
    if is_standard(name) {
        return Some(files.standard());
    }
    files.open(name)
}
