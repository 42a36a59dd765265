//! A sum for each time.
ghost use Rattle.std.specs.Prelude.{◌≡◌, ℕ, ◌+◌, ◌<◌, ◌^◌, [], get_or, replicate, set, take, drop, length, sum, IfOk};

use std::alloc::{AllocError, Global};
use std::marker::Model;

/// A `TimeSums` is a number for each time from 0 on.
#[derive(Drop)]
pub(crate) struct TimeSums {
    sums: Vec<u64>,
}

impl Model for TimeSums {
    ghost use Rattle.std.specs.Prelude.{List, ℕ};

    ghost Value = { List ℕ };

    ghost view = { λ line. line.sums.items };
}

#[tactic(auto, using(crate::proofs::TimeSumLemmas::line_rules))]
fn sum_before(sums: &mut [u64])
    requires { sum sums.old < 2 ^ 64 }
    ensures { (t : ℕ) → t < length sums.old → get_or sums.new t 0 ≡ sum (take t sums.old) }
{
    let mut total = 0;
    for time in 0..sums.len() {
        let own = sums[time];
        sums[time] = total;
        total += own;
    }
}

#[tactic(auto, using(crate::proofs::TimeSumLemmas::line_rules))]
fn sum_behind(sums: &mut [u64])
    requires { sum sums.old < 2 ^ 64 }
    ensures { (t : ℕ) → t < length sums.old → get_or sums.new t 0 ≡ sum (drop t sums.old) }
{
    let mut total = 0;
    for time in (0..sums.len()).rev() {
        total += sums[time];
        sums[time] = total;
    }
}

impl TimeSums {
    pub(crate) fn new(alloc: Global, count: usize) -> Result<TimeSums, AllocError>
        ensures { IfOk result (λ line. line ≡ replicate count 0) }
    {
        let sums = vec![in alloc; 0u64; count]?;
        Ok(TimeSums { sums })
    }

    pub(crate) fn add(&mut self, time: usize, price: u64)
        requires time { time < length self.old }
        requires fits { get_or self.old time 0 + price < 2 ^ 64 }
        ensures { self.new ≡ set self.old time (get_or self.old time 0 + price) }
    {
        self.sums[time] += price;
    }

    /// Makes each number the sum of the numbers before it.
    pub(crate) fn sum_before(&mut self)
        requires { sum self.old < 2 ^ 64 }
        ensures { (t : ℕ) → t < length self.old → get_or self.new t 0 ≡ sum (take t self.old) }
    {
        sum_before(&mut self.sums);
    }

    /// Makes each number the sum of itself and the numbers behind it.
    pub(crate) fn sum_behind(&mut self)
        requires { sum self.old < 2 ^ 64 }
        ensures { (t : ℕ) → t < length self.old → get_or self.new t 0 ≡ sum (drop t self.old) }
    {
        sum_behind(&mut self.sums);
    }

    pub(crate) fn at(&self, time: usize) -> u64
        ensures { result ≡ get_or self.now time 0 }
    {
        if time < self.sums.len() {
            self.sums[time]
        } else {
            0
        }
    }
}

/// The number at `time` of a line of a list, 0 if there is none.
pub(crate) fn sum_at(lines: &[TimeSums], line: usize, time: usize) -> u64
    ensures { result ≡ get_or (get_or lines.now line []) time 0 }
{
    if line < lines.len() {
        lines[line].at(time)
    } else {
        0
    }
}
