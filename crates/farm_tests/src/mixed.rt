//! The scripts of two tenants in one.
use crate::play::Step;
use std::alloc::{AllocError, Global};
use std::slice::Iter;

/// x becomes x * 1103515245 + 12345 modulo 2^31, and its bit 16 is the toss.
#[derive(Drop)]
pub(crate) struct Coin {
    x: u32,
}

impl Coin {
    pub(crate) fn new(seed: u32) -> Coin {
        Coin { x: seed }
    }

    fn toss(&mut self) -> bool {
        let next = self.x.wrapping_mul(1_103_515_245).wrapping_add(12_345);
        self.x = next & 0x7fff_ffff;
        self.x & 0x1_0000 != 0
    }
}

fn next_of<'a>(first: &mut Iter<'a, Step>, second: &mut Iter<'a, Step>) -> Option<&'a Step> {
    match first.next() {
        Some(step) => Some(step),
        None => second.next(),
    }
}

/// The steps of each script stay in their order.
pub(crate) fn mixed(
    alloc: Global,
    coin: &mut Coin,
    one: &[Step],
    other: &[Step],
) -> Result<Vec<Step>, AllocError> {
    let mut steps = Vec::new(alloc);
    let (mut rest, mut rest_of_other) = (one.iter(), other.iter());
    for _ in 0..one.len().saturating_add(other.len()) {
        let next = if coin.toss() {
            next_of(&mut rest, &mut rest_of_other)
        } else {
            next_of(&mut rest_of_other, &mut rest)
        };
        if let Some(step) = next {
            steps.push(*step)?;
        }
    }
    Ok(steps)
}

/// The steps of both in turn, until one script ends.
pub(crate) fn in_turn(
    alloc: Global,
    one: &[Step],
    other: &[Step],
) -> Result<Vec<Step>, AllocError> {
    let mut steps = Vec::new(alloc);
    for at in 0..one.len().min(other.len()) {
        steps.push(one[at])?;
        steps.push(other[at])?;
    }
    Ok(steps)
}
