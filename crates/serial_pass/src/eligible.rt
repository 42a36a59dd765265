//! The eligible activities of a pass, and a draw among them.
ghost use Rattle.std.specs.Prelude.{◌≡◌, ℕ, ◌+◌, ◌-◌, ◌*◌, ◌<◌, ◌≤◌, ◌++◌, List, Some, true, false, MatchResult, max, length, map, slice_index, get_or};
ghost use Rattle.std.specs.Int.{bit_at};
ghost use Rattle.mrcpsp.specs.Numbers.{largest};
ghost use Rattle.mrcpsp.specs.Project.{ProjectData, size};
ghost use Rattle.serial_sgs.specs.Members.{has};
ghost use Rattle.strategy.specs.Pass.{drawn_at, drawn_activity};
ghost use Rattle.serial_pass.specs.Eligible.{AreFinishes, AreListed, HasSums, IsLowest, in_word, members};

use serial_sgs::members::{put_in, take_out};

/// An `Eligible` is a set of activities, a bit for each, and the numbers of which the sum of their
/// weights is made.
#[derive(Clone, Copy)]
pub(crate) struct Eligible {
    pub(crate) set: [u64; 4],
    pub(crate) count: u32,
    /// The greatest of their latest finish times, 0 if there are none.
    pub(crate) greatest: u32,
    /// The sum of their latest finish times.
    pub(crate) sum: u32,
}

/// The place of the lowest bit, and the other bits.
#[inline(always)]
fn split_lowest(bits: u64) -> (usize, u64)
    requires { 0 < bits }
    ensures { IsLowest bits result.0 result.1 }
{
    (bits.trailing_zeros() as usize, bits & (bits - 1))
}

/// The greatest of `least` and the latest finish times of the members in a word.
#[inline(always)]
fn greatest_in(bits: u64, word: usize, lfts: &[u32], least: u32) -> u32
    requires word { word < 4 }
    requires listed { AreListed bits word lfts.now }
    ensures { result ≡ max least (largest (map (λ j. get_or lfts.now j 0) (in_word bits word))) }
{
    let mut greatest = least;
    let mut rest = bits;
    while rest != 0 {
        let (place, others) = split_lowest(rest);
        greatest = greatest.max(lfts[word * 64 + place]);
        rest = others;
    }
    greatest
}

fn greatest_of(set: &[u64; 4], lfts: &[u32]) -> u32
    requires { (j : ℕ) → j < 256 → has set.now j ≡ true → j < length lfts.now }
    ensures { result ≡ largest (map (λ j. get_or lfts.now j 0) (members set.now)) }
{
    let mut greatest = 0;
    for word in 0..4 {
        greatest = greatest_in(set[word], word, lfts, greatest);
    }
    greatest
}

/// The member of a word at which the running sum of the weights exceeds `rest`, or what is left of
/// `rest` behind them.
#[inline(always)]
fn drawn_in(bits: u64, word: usize, lfts: &[u32], most: u32, rest: u32) -> Result<usize, u32>
    requires word { word < 4 }
    requires listed { AreListed bits word lfts.now }
    requires most { (i : ℕ) → i < 64 → bit_at bits i ≡ 1 → slice_index lfts.now (word * 64 + i) ≤ most }
    ensures { MatchResult result
        (λ j. (more : List ℕ) → drawn_at (λ j. most - get_or lfts.now j 0) rest (in_word bits word ++ more) ≡ Some j)
        (λ left. (more : List ℕ) → drawn_at (λ j. most - get_or lfts.now j 0) rest (in_word bits word ++ more)
        ≡ drawn_at (λ j. most - get_or lfts.now j 0) left more) }
{
    let mut left = rest;
    let mut bits = bits;
    while bits != 0 {
        let (place, others) = split_lowest(bits);
        let activity = word * 64 + place;
        let weight = most - lfts[activity];
        if left < weight {
            return Ok(activity);
        }
        left -= weight;
        bits = others;
    }
    Err(left)
}

impl Eligible {
    #[inline(always)]
    pub(crate) fn add(&mut self, activity: usize, lfts: &[u32])
        requires new { has self.old.set activity ≡ false }
        requires sums { (p : ProjectData) × AreFinishes p lfts.now × HasSums p self.old × (activity < size p) }
        ensures own { has self.new.set activity ≡ true }
        ensures others { (j : ℕ) → (j ≡ activity → ⊥) → has self.new.set j ≡ has self.old.set j }
        ensures sums { (p : ProjectData) → AreFinishes p lfts.now → HasSums p self.old → activity < size p
            → HasSums p self.new }
    {
        let own = lfts[activity];
        put_in(&mut self.set, activity);
        self.count += 1;
        self.sum += own;
        self.greatest = self.greatest.max(own);
    }

    /// The greatest is looked for only if it leaves.
    #[inline(always)]
    pub(crate) fn remove(&mut self, activity: usize, lfts: &[u32])
        requires member { has self.old.set activity ≡ true }
        requires sums { (p : ProjectData) × AreFinishes p lfts.now × HasSums p self.old × (activity < size p) }
        ensures own { has self.new.set activity ≡ false }
        ensures others { (j : ℕ) → (j ≡ activity → ⊥) → has self.new.set j ≡ has self.old.set j }
        ensures sums { (p : ProjectData) → AreFinishes p lfts.now → HasSums p self.old → activity < size p
            → HasSums p self.new }
    {
        let own = lfts[activity];
        take_out(&mut self.set, activity);
        self.count -= 1;
        self.sum -= own;
        if own == self.greatest {
            self.greatest = greatest_of(&self.set, lfts);
        }
    }

    /// The sum of the weights of the members.
    #[inline(always)]
    fn total(&self) -> u32
        requires { (p : ProjectData) × (lfts : List ℕ) × AreFinishes p lfts × HasSums p self.now }
        ensures exact { self.now.count * (self.now.greatest + 1) ≡ result + self.now.sum }
        ensures some { 0 < self.now.count → 0 < result }
    {
        self.count * (self.greatest + 1) - self.sum
    }

    /// The first member at which the running sum of the weights exceeds `word` modulo their sum.
    #[inline(always)]
    pub(crate) fn drawn(&self, word: u32, lfts: &[u32]) -> Option<usize>
        requires { (p : ProjectData) × AreFinishes p lfts.now × HasSums p self.now }
        ensures { (p : ProjectData) → AreFinishes p lfts.now → HasSums p self.now
            → result ≡ drawn_activity p word (members self.now.set) }
    {
        if self.count == 0 {
            return None;
        }
        let most = self.greatest + 1;
        let mut left = word % self.total();
        for at in 0..4 {
            match drawn_in(self.set[at], at, lfts, most, left) {
                Ok(activity) => return Some(activity),
                Err(rest) => left = rest,
            }
        }
        None
    }
}
