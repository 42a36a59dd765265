//! The use of renewable resources against their capacities.
use crate::bars::{Bar, peak, use_at};
use crate::svg::{HEIGHT, Picture};
use std::alloc::AllocError;

impl Picture {
    fn put_outline(
        &mut self,
        bars: &[Bar<'_>],
        times: &[u32],
        place: usize,
        capacity: u32,
    ) -> Result<(), AllocError> {
        let (left, base) = (self.size.left, self.size.base_at(place));
        let scale = u64::from(capacity.max(1));
        write!(self.text, "<path d=\"M{left} {base}")?;
        for time in times {
            let used = u64::from(use_at(bars, place, *time));
            let x = self.size.at(*time);
            let y = base.saturating_sub(used.saturating_mul(HEIGHT) / scale);
            write!(self.text, "H{x}V{y}")?;
        }
        write!(
            self.text,
            "V{base}Z\" fill=\"#9ab\" stroke=\"#222\" stroke-width=\"8\"/>"
        )
    }

    /// A darker field where all of the capacity is used.
    fn put_full(
        &mut self,
        bars: &[Bar<'_>],
        times: &[u32],
        place: usize,
        capacity: u32,
    ) -> Result<(), AllocError> {
        let base = self.size.base_at(place);
        let top = base.saturating_sub(HEIGHT);
        for (at, time) in times.iter().enumerate() {
            let Some(next) = times.get(at.saturating_add(1)) else {
                break;
            };
            if use_at(bars, place, *time) == capacity && capacity > 0 {
                let (from, to) = (self.size.at(*time), self.size.at(*next));
                write!(
                    self.text,
                    "<path d=\"M{from} {base}V{top}H{to}V{base}Z\" fill=\"#678\"/>"
                )?;
            }
        }
        Ok(())
    }

    fn put_profile(
        &mut self,
        bars: &[Bar<'_>],
        times: &[u32],
        place: usize,
        capacity: u32,
    ) -> Result<(), AllocError> {
        let (left, base) = (self.size.left, self.size.base_at(place));
        let (number, most) = (place.saturating_add(1), peak(bars, times, place));
        let top = base.saturating_sub(HEIGHT);
        let (label, over) = (left.saturating_sub(80), top.saturating_sub(60));
        write!(
            self.text,
            "<g><title>Use of renewable resource {number}, of which there are {capacity} in each period</title>"
        )?;
        write!(
            self.text,
            "<text x=\"{left}\" y=\"{over}\">renewable resource {number}: at most {most} of {capacity}</text>"
        )?;
        self.put_outline(bars, times, place, capacity)?;
        self.put_full(bars, times, place, capacity)?;
        self.put_frame(top, base)?;
        write!(
            self.text,
            "<text x=\"{label}\" y=\"{top}\" text-anchor=\"end\">{capacity}</text>"
        )?;
        write!(
            self.text,
            "<text x=\"{label}\" y=\"{base}\" text-anchor=\"end\">0</text></g>\n"
        )
    }

    fn put_frame(&mut self, top: u64, base: u64) -> Result<(), AllocError> {
        let (left, end) = (self.size.left, self.size.end());
        write!(
            self.text,
            "<path d=\"M{left} {top}H{end}\" stroke=\"#c00\" stroke-width=\"12\" stroke-dasharray=\"60 40\"/>"
        )?;
        write!(
            self.text,
            "<path d=\"M{left} {base}H{end}\" stroke=\"#222\" stroke-width=\"8\"/>"
        )
    }

    pub(crate) fn put_profiles(
        &mut self,
        bars: &[Bar<'_>],
        times: &[u32],
        capacities: &[u32],
    ) -> Result<(), AllocError> {
        for place in 0..capacities.len() {
            self.put_profile(bars, times, place, capacities[place])?;
        }
        Ok(())
    }
}
