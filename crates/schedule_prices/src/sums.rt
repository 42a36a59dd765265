//! Sums of prices over time.
ghost use Rattle.std.specs.Prelude.{◌≡◌, ℕ, ◌+◌, ◌<◌, ◌≤◌, ◌^◌, [], get_or, length, min, replicate, sum, sum_by, vec_len, Some, IfOk};
ghost use Rattle.schedule_prices.specs.Sums.{with_price, summed, IsRaw, AreSums};

use crate::place::{Place, SumKind, place_of};
use crate::row::Price;
use crate::time_sums::TimeSums;
use std::alloc::{AllocError, Global};

fn zeros(alloc: Global, lines: usize, bound: u32) -> Result<Vec<TimeSums>, AllocError>
    requires { bound < 1048576 }
    ensures { IfOk result (λ made. made.items ≡ replicate lines (replicate (bound + 1) 0)) }
{
    let mut made = Vec::new(alloc);
    for _ in 0..lines {
        made.push(TimeSums::new(alloc, bound as usize + 1)?)?;
    }
    Ok(made)
}

/// Adds a price at its place. Times behind the bound count as the bound.
fn add(lines: &mut Vec<TimeSums>, place: Place, bound: u32, price: u32)
    requires wide { place.line < vec_len lines.old
        → length (get_or lines.old.items place.line []) ≡ bound + 1 }
    requires low { get_or (get_or lines.old.items place.line []) (min place.time bound) 0 ≤ 2 ^ 40 }
    ensures { lines.new.items ≡ with_price (Some place) bound price lines.old.items }
{
    if place.line < lines.len() {
        let line = &mut lines[place.line];
        line.add(place.time.min(bound) as usize, u64::from(price));
    }
}

/// Sums before they are summed up over time: of each line, the prices at each time.
fn raw_sums(
    alloc: Global,
    kind: SumKind,
    count: usize,
    bound: u32,
    prices: &[Price],
) -> Result<Vec<TimeSums>, AllocError>
    requires bound { bound < 1048576 }
    requires low { sum_by (λ x. x.price) prices.now ≤ 2 ^ 40 }
    ensures size { IfOk result (λ lines. length lines.items ≡ count) }
    ensures raw { IfOk result (λ lines. (j : ℕ) → j < count
        → IsRaw kind bound prices.now j (get_or lines.items j [])) }
{
    let mut lines = zeros(alloc, count, bound)?;
    for price in prices {
        if let Some(place) = place_of(kind, price.row) {
            add(&mut lines, place, bound, price.price);
        }
    }
    Ok(lines)
}

fn sum_up(line: &mut TimeSums, kind: SumKind)
    requires { sum line.old < 2 ^ 64 }
    ensures { (t : ℕ) → t < length line.old → get_or line.new t 0 ≡ summed kind line.old t }
{
    match kind {
        SumKind::Begun | SumKind::Consumed => line.sum_behind(),
        SumKind::Ended | SumKind::Used => line.sum_before(),
    }
}

/// The sums of a kind: of each line at each time, what the prices add up to.
pub(crate) fn sums_of(
    alloc: Global,
    kind: SumKind,
    count: usize,
    bound: u32,
    prices: &[Price],
) -> Result<Vec<TimeSums>, AllocError>
    requires bound { bound < 1048576 }
    requires low { sum_by (λ x. x.price) prices.now ≤ 2 ^ 40 }
    ensures { IfOk result (λ lines. AreSums kind bound count prices.now lines.items) }
{
    let mut lines = raw_sums(alloc, kind, count, bound, prices)?;
    for place in 0..count {
        let line = &mut lines[place];
        sum_up(line, kind);
    }
    Ok(lines)
}
