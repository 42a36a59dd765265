/// A `Sum` is a count, and a sum over numbers: h becomes h * 31 + number modulo 2^32.
#[derive(Clone, Copy, Debug, PartialEq, Eq)]
pub(crate) struct Sum {
    pub(crate) count: u32,
    pub(crate) sum: u32,
}

impl Sum {
    pub(crate) const NONE: Sum = Sum { count: 0, sum: 0 };

    pub(crate) fn count(&mut self) {
        self.count = self.count.wrapping_add(1);
    }

    pub(crate) fn add(&mut self, number: u32) {
        self.sum = self.sum.wrapping_mul(31).wrapping_add(number);
    }
}
