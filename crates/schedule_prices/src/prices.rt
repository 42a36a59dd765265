//! Whether prices are of a project, and what all activities together may pay.
ghost use Rattle.std.specs.Prelude.{◌≡◌, ◌≤◌, ◌^◌, IsTrue, nat_le, sum_by};
ghost use Rattle.mrcpsp.specs.Project.{size};
ghost use Rattle.schedule_prices.specs.Rows.{is_row, are_rows, limit, supply};
ghost use Rattle.schedule_prices.specs.Prices.{are_prices};

use crate::row::{Price, PricedRow};
use mrcpsp::Project;

/// The most that the prices of all rows sum to: 65,536 rows of 24 bits. Sums of costs then fit 64
/// bits.
pub const MOST_PRICES: u64 = 1 << 40;

/// Whether a row is of a resource of the project, or of a precedence.
pub fn is_row(project: &Project, row: PricedRow) -> bool
    ensures { result ≡ is_row project.now row }
{
    match row {
        PricedRow::Use { resource, time: _ } => resource < project.renewables(),
        PricedRow::Stock { resource } => resource < project.nonrenewables(),
        PricedRow::Before {
            before,
            after,
            time: _,
        } => {
            before < project.size() && after < project.size() && project.precedes(before, after)
        }
    }
}

fn are_rows(project: &Project, prices: &[Price]) -> bool
    ensures { result ≡ are_rows project.now prices.now }
{
    prices.iter().all(|price| is_row(project, price.row))
}

fn are_low(prices: &[Price]) -> bool
    ensures { result ≡ nat_le (sum_by (λ x. x.price) prices.now) MOST_PRICES }
{
    let mut sum = 0u64;
    for price in prices {
        sum += u64::from(price.price);
        if sum > MOST_PRICES {
            return false;
        }
    }
    true
}

/// Whether all prices are of rows of the project, and sum to at most [`MOST_PRICES`].
pub fn are_prices(project: &Project, prices: &[Price]) -> bool
    ensures { result ≡ are_prices project.now prices.now }
{
    are_rows(project, prices) && are_low(prices)
}

fn limit_of(project: &Project, row: PricedRow) -> u64
    requires { IsTrue (is_row project.now row) }
    ensures exact { result ≡ limit project.now row }
    ensures few { result ≤ 1000000 }
{
    match row {
        PricedRow::Use { resource, time: _ } => u64::from(project.capacity(resource)),
        PricedRow::Stock { resource } => u64::from(project.stock(resource)),
        PricedRow::Before { .. } => 1,
    }
}

/// What all activities together may pay.
#[tactic(auto, using(crate::proofs::PriceLemmas::price_rules), unfolding(crate::specs::Rows::supply))]
pub(crate) fn supply_of(project: &Project, prices: &[Price]) -> u64
    requires { IsTrue (are_prices project.now prices.now) }
    ensures exact { result ≡ supply project.now prices.now }
    ensures few { result ≤ 2 ^ 60 }
{
    let mut total = 0u64;
    for price in prices {
        total += u64::from(price.price) * limit_of(project, price.row);
    }
    total
}
