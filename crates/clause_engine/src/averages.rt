//! Moving averages in fixed point, by which restarts are timed (Biere and Frohlich 2015).

/// An average is a number with 32 binary places that follows the last 2^`most_shift` values or so.
#[derive(Clone, Copy)]
pub struct Average {
    pub value: u64,
    shift: u32,
    most_shift: u32,
    wait: u64,
    period: u64,
}

impl Average {
    pub fn new(most_shift: u32) -> Average {
        Average {
            value: 0,
            shift: 0,
            most_shift,
            wait: 0,
            period: 0,
        }
    }

    pub fn add(&mut self, number: u32) {
        let unit = (number.min(1 << 20) as u64) << 32;
        let shift = self.shift % 64;
        let rise = unit.saturating_sub(self.value) >> shift;
        let fall = self.value.saturating_sub(unit) >> shift;
        self.value = self.value.saturating_add(rise).saturating_sub(fall);
        if self.shift >= self.most_shift {
            return;
        }
        if self.wait > 0 {
            self.wait -= 1;
        } else {
            // The first values weigh more, by powers of 2.
            self.period = self.period.saturating_mul(2).saturating_add(1);
            self.wait = self.period;
            self.shift = self.shift.saturating_add(1);
        }
    }
}
