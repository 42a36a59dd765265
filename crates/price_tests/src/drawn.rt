//! Small random projects and prices.
use mrcpsp::{Activity, Mode, Project, Sequence};
use schedule_prices::{Price, PricedRow};
use std::alloc::{AllocError, Global};
use std::process::Abort;

/// A `Drawn` is a generator: x becomes x * 1103515245 + 12345 modulo 2^31, and gives x div 2^16.
#[derive(Drop)]
pub(crate) struct Drawn {
    x: u32,
}

impl Drawn {
    pub(crate) fn new(seed: u32) -> Drawn {
        Drawn { x: seed }
    }

    /// A number below `n`, or 0 if `n` is 0.
    pub(crate) fn below(&mut self, n: u32) -> u32 {
        let next = self.x.wrapping_mul(1_103_515_245).wrapping_add(12_345);
        self.x = next & 0x7fff_ffff;
        (self.x >> 16).checked_rem(n).unwrap_or(0)
    }

    fn mode(&mut self, alloc: Global) -> Result<Mode, AllocError> {
        let duration = self.below(3);
        let request = self.below(3);
        let consumption = self.below(3);
        Ok(Mode {
            duration,
            renewable: Sequence::from(vec![in alloc; request]?),
            nonrenewable: Sequence::from(vec![in alloc; consumption]?),
        })
    }

    fn activity(&mut self, alloc: Global, number: u32) -> Result<Activity, AllocError> {
        let mut modes = Vec::new(alloc);
        let count = self.below(2);
        for _ in 0..=count {
            modes.push(self.mode(alloc)?)?;
        }
        let mut successors = Vec::new(alloc);
        for next in number.saturating_add(1)..=3 {
            if self.below(3) == 0 {
                successors.push(next)?;
            }
        }
        Ok(Activity {
            modes: Sequence::from(modes),
            successors: Sequence::from(successors),
        })
    }

    fn project_of(&mut self, alloc: Global) -> Result<Option<Project>, AllocError> {
        let mut activities = Vec::new(alloc);
        for number in 1..=3 {
            activities.push(self.activity(alloc, number)?)?;
        }
        let capacity = self.below(2).saturating_add(2);
        let stock = self.below(6).saturating_add(1);
        Ok(Project::new(
            Sequence::from(activities),
            Sequence::from(vec![in alloc; capacity]?),
            Sequence::from(vec![in alloc; stock]?),
        ))
    }

    /// Three activities of up to two modes of up to two periods, and one resource of each kind.
    pub(crate) fn project(&mut self, rt: &impl Abort, alloc: Global) -> Project {
        let drawn = self.project_of(alloc);
        drawn
            .expect(rt, "no memory for a project")
            .expect(rt, "within the limits")
    }

    /// A row, of the project or not: one resource in eight is foreign, and so are most arcs.
    fn row(&mut self) -> PricedRow {
        let resource = (self.below(8) / 7) as usize;
        let time = self.below(8);
        match self.below(5) {
            0 => PricedRow::Stock { resource },
            1 | 2 => PricedRow::Use { resource, time },
            _ => PricedRow::Before {
                before: self.below(2) as usize,
                after: self.below(4) as usize,
                time,
            },
        }
    }

    /// Up to twelve prices up to 15, or once in a while the highest.
    pub(crate) fn prices(&mut self, rt: &impl Abort, alloc: Global) -> Vec<Price> {
        let mut prices = Vec::new(alloc);
        for _ in 0..self.below(13) {
            let row = self.row();
            let price = match self.below(32) {
                0 => u32::MAX,
                price => price / 2,
            };
            assert!(rt;
                prices.push(Price { row, price }).is_ok(),
                "no memory for prices"
            );
        }
        prices
    }
}
