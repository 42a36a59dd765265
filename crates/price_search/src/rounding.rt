//! Prices of 24 bits.
use crate::model::{Arc, Model, Supply};
use schedule_prices::{Price, PricedRow};
use std::alloc::{AllocError, Global};

const MOST_PRICE: i64 = (1 << 24) - 1;

fn greatest(prices: &[i64]) -> i64 {
    let mut greatest = 0;
    for at in 0..prices.len() {
        greatest = prices[at].max(greatest);
    }
    greatest
}

/// Scales the prices so that the greatest is the greatest of 24 bits.
pub(crate) fn round(prices: &[i64], rounded: &mut [i64]) {
    let greatest = greatest(prices).max(1);
    let count = prices.len().min(rounded.len());
    for at in 0..count {
        let scaled = prices[at].wrapping_mul(MOST_PRICE);
        let scaled = scaled.wrapping_add(greatest >> 1);
        rounded[at] = scaled.checked_div(greatest).unwrap_or(0);
    }
}

fn price_at(rounded: &[i64], place: usize) -> u32 {
    let price = rounded.get(place).copied().unwrap_or(0);
    u32::try_from(price).unwrap_or(0)
}

fn push(found: &mut Vec<Price>, row: PricedRow, price: u32) -> Result<(), AllocError> {
    if price > 0 {
        found.push(Price { row, price })?;
    }
    Ok(())
}

fn push_capacity(
    found: &mut Vec<Price>,
    supply: Supply,
    periods: u32,
    place: usize,
    rounded: &[i64],
) -> Result<(), AllocError> {
    let resource = supply.resource;
    for time in 0..periods {
        let price = price_at(rounded, place.saturating_add(time as usize));
        push(found, PricedRow::Use { resource, time }, price)?;
    }
    Ok(())
}

fn push_stocks(found: &mut Vec<Price>, model: &Model, rounded: &[i64]) -> Result<(), AllocError> {
    for (kind, supply) in model.stocks.iter().enumerate() {
        let price = price_at(rounded, model.stock_place().saturating_add(kind));
        let resource = supply.resource;
        push(found, PricedRow::Stock { resource }, price)?;
    }
    Ok(())
}

fn push_arc(found: &mut Vec<Price>, arc: &Arc, rounded: &[i64]) -> Result<(), AllocError> {
    let Arc { before, after, .. } = *arc;
    for period in arc.from..arc.to {
        let place = arc.place.saturating_add(period.saturating_sub(arc.from));
        let time = u32::try_from(period).unwrap_or(0);
        let row = PricedRow::Before {
            before,
            after,
            time,
        };
        push(found, row, price_at(rounded, place))?;
    }
    Ok(())
}

/// The prices above 0 with their rows.
pub(crate) fn listed(
    alloc: Global,
    model: &Model,
    rounded: &[i64],
) -> Result<Vec<Price>, AllocError> {
    let mut found = Vec::new(alloc);
    let periods = u32::try_from(model.bound).unwrap_or(0);
    for (kind, supply) in model.capacities.iter().enumerate() {
        let place = kind.saturating_mul(model.bound);
        push_capacity(&mut found, *supply, periods, place, rounded)?;
    }
    push_stocks(&mut found, model, rounded)?;
    for arc in &model.arcs {
        push_arc(&mut found, arc, rounded)?;
    }
    Ok(found)
}
