//! Groups of positions by their greatest ends at a place of a line, and a step back on them.
ghost use Rattle.std.specs.Prelude.{◌^◌, ◌↔◌, ◌⊎◌, suc, IsTrue, length, ◌≤◌, ◌-◌, ℕ, ◌≡◌, ◌+◌, ◌*◌};
ghost use Rattle.std.specs.Prelude.{◌/◌, Bool, ◌∷◌, slice_index, vec_capacity, ◌++◌, List, ◌<◌, []};
ghost use Rattle.std.specs.{Prelude.IfOk, Int.bit_at};
ghost use Rattle.re_trees.specs.{Expression.Expression, Holds.positions};
ghost use Rattle.re_trees.specs.Working.Trees.{expression_of};
ghost use Rattle.re_auto.specs.Working.{Positions.part_of, Ranges.Covers, Bits.Has};
ghost use Rattle.{re_auto.specs.Working.Tables.most_words, re_ends.specs.Working.Closing.AreClosed};
ghost use Rattle.re_ends.specs.Working.Closing.{AreNoneMet, CanEnd, AreMet, AreMembers, Byte};
ghost use Rattle.re_ends.specs.Working.Groups.{half_of, group_of, In, IsRow, IsStep, Names};
ghost use Rattle.re_ends.specs.Working.Groups.{HasGroups, IsFirstIn, AreGroupsFor, numbers_of};

use crate::list::Run;
use crate::preceding::Preceding;
use re_auto::{Automaton, WordRange, bits};
use re_trees::MOST_POSITIONS;
use std::alloc::{AllocError, Global};

// A piece of a row is the number of its group times this, plus the number of a half of a word times
// `HALF`, plus the members of that half.
const GROUP: u64 = 1 << 48;

const HALF: u64 = 1 << 32;

// No words of a set.
const NO_WORDS: WordRange = WordRange { first: 0, past: 0 };

/// What a step back makes for an automaton.
#[derive(Drop)]
pub struct Groups {
    preceding: Preceding,
    left: Vec<u64>,
    met: Vec<u64>,
    /// The pieces of the groups.
    pub row: Vec<u64>,
    /// For each group in turn the number of the group after the byte whose end it has. Where that is
    /// their number, the end is the place after the byte.
    pub runs: Vec<Run>,
    /// How many groups there are.
    pub count: u16,
    /// A number that equal rows share.
    pub hash: u64,
}

impl Groups {
    /// Room for this automaton.
    pub fn new(alloc: Global, automaton: &Automaton) -> Result<Groups, AllocError>
        ensures { IfOk result (AreGroupsFor (expression_of automaton.now)) }
    {
        let size = automaton.size();
        if size > MOST_POSITIONS {
            return Err(AllocError);
        }
        let preceding = Preceding::of(alloc, automaton)?;
        let left = Vec::from_slice(alloc, automaton.taking(0))?;
        let met = vec![in alloc; 0u64; left.len()]?;
        let row = Vec::with_capacity(alloc, size)?;
        let runs = Vec::with_capacity(alloc, size)?;
        Ok(Groups {
            preceding,
            left,
            met,
            row,
            runs,
            count: 0,
            hash: 0,
        })
    }

    /// Steps back over a byte from the groups after it. `at_end` says that it is the line's last.
    pub fn step(&mut self, automaton: &Automaton, after: &[u64], byte: u8, at_end: bool)
        requires made { AreGroupsFor (expression_of automaton.now) self.old }
        requires after { IsRow (positions (expression_of automaton.now)) after.now }
        ensures made { AreGroupsFor (expression_of automaton.now) self.new }
        ensures row { IsRow (positions (expression_of automaton.now)) self.new.row.items }
        ensures right { IsStep (part_of (expression_of automaton.now) 0) at_end after.now byte
            (numbers_of self.new.runs.items) self.new.row.items }
        ensures count { self.new.count ≡ length (numbers_of self.new.runs.items) }
    {
        self.begin(automaton, byte);
        let count = self.close_all(after);
        bits::copy(&mut self.met, automaton.ending(at_end));
        let all = WordRange {
            first: 0,
            past: self.met.len() as u8,
        };
        self.close(all, count);
        self.hash = hash_of(&self.row);
    }

    // Leaves all positions that take the byte, in no group.
    fn begin(&mut self, automaton: &Automaton, byte: u8)
        requires { AreGroupsFor (expression_of automaton.now) self.old }
        ensures { (at_end : Bool) (after : List ℕ) (count : ℕ) →
            IsRow (positions (expression_of automaton.now)) after → HasGroups after count →
            AreNoneMet (record {
              e = expression_of automaton.now;
              code = byte;
              at_end = at_end;
              after = after;
              count = count;
            }) self.new }
    {
        bits::copy(&mut self.left, automaton.taking(byte));
        bits::clear(&mut self.met);
        self.row.clear();
        self.runs.clear();
        self.count = 0;
    }

    // Closes the groups after the byte in turn. Returns their number.
    fn close_all(&mut self, after: &[u64]) -> u16
        requires { (b : Byte) × (b.after ≡ after.now) × AreNoneMet b self.old }
        ensures { (b : Byte) → b.after ≡ after.now → AreNoneMet b self.old →
            (result ≡ b.count) × AreGroupsFor b.e self.new × AreClosed b b.count self.new }
    {
        let mut group = 0;
        let mut range = NO_WORDS;
        'pieces: for i in 0..after.len() {
            range = self.turn(after, i, group, range);
            let piece = after[i];
            group = (piece / GROUP) as u16;
            let preceding = &self.preceding;
            range = preceding.add_to(&mut self.met, range, word_of(piece), members_of(piece));
        }
        if after.is_empty() {
            return 0;
        }
        self.close(range, group);
        group + 1
    }

    // Closes the group if the next piece is of another one. Returns the range of those met then.
    #[inline(always)]
    fn turn(&mut self, after: &[u64], i: usize, group: u16, range: WordRange) -> WordRange
        requires i { i < length after.now }
        requires met { (b : Byte) × (b.after ≡ after.now) × AreMet b i group range self.old }
        ensures { (b : Byte) → b.after ≡ after.now → AreMet b i group range self.old →
            AreMet b i (group_of (slice_index after.now i)) result self.new }
    {
        if (after[i] / GROUP) as u16 == group {
            return range;
        }
        self.close(range, group);
        NO_WORDS
    }

    // Makes a group of those left that can have the end of this group after the byte, if there are any.
    fn close(&mut self, range: WordRange, group: u16)
        requires made { (b : Byte) × AreGroupsFor b.e self.old × AreClosed b group self.old }
        requires covers { Covers range self.old.met.items }
        ensures none { (q : ℕ) → Has self.new.met.items q → ⊥ }
        ensures made { (e : Expression) → AreGroupsFor e self.old → AreGroupsFor e self.new }
        ensures closed { (b : Byte) → AreGroupsFor b.e self.old → AreClosed b group self.old →
            ((q : ℕ) → Has self.old.met.items q ↔ CanEnd b group q) →
            AreClosed b (suc group) self.new }
    {
        let left = &mut self.left;
        take_met(&mut self.met, left, range, self.count, &mut self.row);
        if has_last(&self.row, self.count) {
            add_number(&mut self.runs, group);
            self.count += 1;
        }
    }
}

// Whether the last group that there can be has a member.
#[inline(always)]
fn has_last(row: &[u64], group: u16) -> bool
    requires { AreMembers group row.now }
    ensures { IsTrue result ↔ ((q : ℕ) × In row.now group q) }
{
    let count = row.len();
    count > 0 && row[count - 1] / GROUP == group as u64
}

// The word that the half of a piece is of.
#[inline(always)]
fn word_of(piece: u64) -> usize
    ensures { result ≡ half_of piece / 2 }
{
    (piece / (2 * HALF)) as usize % (1 << 15)
}

// The members of a piece, in their word.
#[inline(always)]
fn members_of(piece: u64) -> u64
    ensures { (b : ℕ) → b < 64 →
        (bit_at result b ≡ 1) ↔ Names piece (half_of piece / 2 * 64 + b) }
{
    let members = piece % HALF;
    if piece / HALF % 2 == 0 {
        return members;
    }
    members * HALF
}

// Puts a number after those of the runs.
#[inline(always)]
fn add_number(runs: &mut Vec<Run>, number: u16)
    ensures added { length (numbers_of runs.old.items) < vec_capacity runs.old →
        numbers_of runs.new.items ≡ numbers_of runs.old.items ++ number ∷ [] }
    ensures room { vec_capacity runs.old ≤ vec_capacity runs.new }
{
    let count = runs.len();
    if count > 0 {
        let last = runs[count - 1];
        if last.first as usize + last.more as usize + 1 == number as usize {
            runs[count - 1].more += 1;
            return;
        }
    }
    let first = number;
    let _ = runs.push(Run { first, more: 0 });
}

// Takes those left that are met out of both sets, and makes them pieces of the group.
fn take_met(met: &mut [u64], left: &mut [u64], range: WordRange, group: u16, row: &mut Vec<u64>)
    requires covers { Covers range met.old }
    requires same { length met.old ≡ length left.old }
    requires few { length left.old ≤ most_words }
    requires fresh { (j q : ℕ) → Has left.old q → In row.old.items j q → ⊥ }
    requires small { (q : ℕ) → Has left.old q → q < vec_capacity row.old }
    requires made { AreMembers group row.old.items }
    requires below { (j q : ℕ) → In row.old.items j q → q < vec_capacity row.old }
    ensures same { (length met.new ≡ length met.old) × (length left.new ≡ length left.old) }
    ensures none { (q : ℕ) → Has met.new q → ⊥ }
    ensures left { (q : ℕ) → Has left.new q ↔ (Has left.old q × (Has met.old q → ⊥)) }
    ensures added { (j q : ℕ) → In row.new.items j q ↔
        (In row.old.items j q ⊎ (j ≡ group) × Has met.old q × Has left.old q) }
    ensures made { AreMembers group row.new.items }
    ensures room { vec_capacity row.old ≤ vec_capacity row.new }
{
    let past = range.past as usize;
    let mut k = next_word(met, range.first as usize, past);
    'words: while k < past {
        let word = met[k] & left[k];
        met[k] = 0;
        left[k] &= !word;
        put_word(row, group, k, word);
        k = next_word(met, k + 1, past);
    }
}

// The first word from one on and before another that is not 0, or the other.
#[inline(always)]
fn next_word(set: &[u64], from: usize, past: usize) -> usize
    requires order { from ≤ past }
    requires within { past ≤ length set.now }
    ensures from { from ≤ result }
    ensures first { (q : ℕ) → Has set.now q → from ≤ q / 64 → result ≤ q / 64 }
{
    'words: for k in from..past {
        if set[k] != 0 {
            return k;
        }
    }
    past
}

// Makes the members of word `k` of a set pieces of the group.
#[inline(always)]
fn put_word(row: &mut Vec<u64>, group: u16, k: usize, word: u64)
    requires few { k < most_words }
    requires fresh { (j b : ℕ) → b < 64 → bit_at word b ≡ 1 → In row.old.items j (k * 64 + b) → ⊥ }
    requires small { (b : ℕ) → b < 64 → bit_at word b ≡ 1 → k * 64 + b < vec_capacity row.old }
    requires made { AreMembers group row.old.items }
    requires below { (j q : ℕ) → In row.old.items j q → q < vec_capacity row.old }
    ensures added { (j q : ℕ) → In row.new.items j q ↔ (In row.old.items j q ⊎
        ((b : ℕ) × (b < 64) × (bit_at word b ≡ 1) × ((j ≡ group) × (q ≡ k * 64 + b)))) }
    ensures made { AreMembers group row.new.items }
    ensures room { vec_capacity row.old ≤ vec_capacity row.new }
{
    let first = group as u64 * GROUP + k as u64 * 2 * HALF;
    put_piece(row, first + word % HALF);
    put_piece(row, first + HALF + word / HALF);
}

// Puts a piece after the others, if it has a member.
#[inline(always)]
fn put_piece(row: &mut Vec<u64>, piece: u64)
    requires fresh { (j q : ℕ) → Names piece q → In row.old.items j q → ⊥ }
    requires small { (q : ℕ) → Names piece q → q < vec_capacity row.old }
    requires made { AreMembers (group_of piece) row.old.items }
    requires below { (j q : ℕ) → In row.old.items j q → q < vec_capacity row.old }
    ensures added { (j q : ℕ) → In row.new.items j q ↔
        (In row.old.items j q ⊎ (j ≡ group_of piece) × Names piece q) }
    ensures made { AreMembers (group_of piece) row.new.items }
    ensures room { vec_capacity row.old ≤ vec_capacity row.new }
{
    if piece % HALF == 0 {
        return;
    }
    let _ = row.push(piece);
}

/// The number of the first group that has a member in the set, counted from 1 on, or 0 if there is
/// none.
pub fn first_in(row: &[u64], set: &[u64]) -> u16
    requires row { (n : ℕ) × (n < 2 ^ 15) × IsRow n row.now × (n ≤ length set.now * 64) }
    ensures { IsFirstIn (Has set.now) row.now result }
{
    'pieces: for i in 0..row.len() {
        let piece = row[i];
        if members_of(piece) & set[word_of(piece)] != 0 {
            return (piece / GROUP) as u16 + 1;
        }
    }
    0
}

// A number that equal rows share. No contract depends on it.
fn hash_of(row: &[u64]) -> u64 {
    let mut hash = 0u64;
    'pieces: for i in 0..row.len() {
        let mixed = (hash ^ row[i]).wrapping_mul(0x9E37_79B9_7F4A_7C15);
        hash = mixed ^ (mixed >> 32);
    }
    hash
}
