//! Bytes by the positions that take them: bytes with equal rows share a class.
ghost use Rattle.std.specs.Prelude.{◌≡◌, ℕ, ◌*◌, ◌<◌, ◌≤◌, ◌≢◌, ◌↔◌, IsTrue, IfOk, length};
ghost use Rattle.re_auto.specs.Working.{ByteClasses.{IsClassed, AreClasses}, Tables.Marks};
ghost use Rattle.re_auto.specs.Working.Bits.{row_of, Has};

use crate::bits;
use std::alloc::{AllocError, Global};

/// A class for each byte and a row for each class.
#[derive(Drop)]
pub struct Classes {
    /// The class of each of the 256 bytes.
    pub class_of: Vec<u8>,
    /// The row of each class.
    pub takes: Vec<u64>,
}

/// The classes of the bytes, each of which has a row.
pub fn classes_of(alloc: Global, rows: &[u64], width: usize) -> Result<Classes, AllocError>
    requires { length rows.now ≡ 256 * width }
    ensures { IfOk result (AreClasses rows.now width) }
{
    let mut class_of = Vec::with_capacity(alloc, 256)?;
    let mut takes = Vec::new(alloc);
    let mut count = 0;
    'bytes: for c in 0..256usize {
        let class = add_class(&mut takes, width, count, bits::row(rows, width, c))?;
        count = count.max(class + 1);
        class_of.push(class as u8)?;
    }
    Ok(Classes { class_of, takes })
}

// The class of a row. A new class is added where none has the row.
fn add_class(
    takes: &mut Vec<u64>,
    width: usize,
    count: usize,
    row: &[u64],
) -> Result<usize, AllocError>
    requires table { length takes.old.items ≡ count * width }
    requires same { length row.now ≡ width }
    ensures { IfOk result (IsClassed count width row.now takes.old.items takes.new.items) }
{
    let class = find_class(takes, width, count, row);
    if class == count {
        takes.extend_from_slice(row)?;
    }
    Ok(class)
}

// The first class that has this row, or the number of classes where none has.
fn find_class(takes: &[u64], width: usize, count: usize, row: &[u64]) -> usize
    requires table { length takes.now ≡ count * width }
    requires same { length row.now ≡ width }
    ensures within { result ≤ count }
    ensures found { result < count → row_of takes.now width result ≡ row.now }
    ensures first { (k : ℕ) → k < result → row_of takes.now width k ≢ row.now }
{
    'classes: for class in 0..count {
        if bits::row(takes, width, class) == row {
            return class;
        }
    }
    count
}

/// For each byte whether its row has a member in common with the set.
pub fn bytes_meeting(rows: &[u64], width: usize, set: &[u64]) -> [bool; 256]
    requires table { length rows.now ≡ 256 * width }
    requires same { length set.now ≡ width }
    ensures { Marks result (λ c. (q : ℕ) × Has set.now q × Has (row_of rows.now width c) q) }
{
    let mut marks = [false; 256];
    'bytes: for c in 0..256usize {
        marks[c] = bits::meets(set, bits::row(rows, width, c));
    }
    marks
}
