//! How the temperature falls.

const STEPS: u64 = 1_024;

/// The first temperature, half a period, with 32 binary places.
const HOTTEST: u64 = 1 << 31;

/// What a step leaves of the temperature, with 32 binary places: all steps leave a twentieth.
const RATE: u64 = 4_282_420_646;

#[derive(Clone, Copy)]
pub(crate) struct Cooling {
    heat: u64,
    steps: u64,
    begin: u64,
    length: u64,
}

impl Cooling {
    /// The temperature of a run that begins after `begin` schedules and generates `schedules`.
    pub(crate) fn new(begin: u64, schedules: u64) -> Cooling {
        Cooling {
            heat: HOTTEST,
            steps: 0,
            begin,
            length: schedules / STEPS + 1,
        }
    }

    /// Lets the temperature fall to what it is after `spent` schedules.
    pub(crate) fn cool(&mut self, spent: u64) {
        let steps = spent.saturating_sub(self.begin) / self.length.max(1);
        for _ in self.steps..steps.min(STEPS) {
            self.heat = self.heat.wrapping_mul(RATE) >> 32;
        }
        self.steps = self.steps.max(steps);
    }

    /// The temperature in periods, with 16 binary places.
    pub(crate) fn heat(&self) -> u64 {
        self.heat >> 16
    }
}
