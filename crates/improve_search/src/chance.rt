//! Random numbers, drawn from the words of a seed.
use rand_core::utils::NextWord;
use rand_pcg::Pcg32;

/// The stream of the generator: its increment is twice this and one.
const STREAM: u64 = 54;

/// One, as a number with 16 binary places.
pub(crate) const ONE: u64 = 1 << 16;

/// The natural logarithm of 2, with 16 binary places.
const LN_2: u64 = 45_426;

#[derive(Drop)]
pub(crate) struct Chance {
    generator: Pcg32,
}

/// The logarithm to the base 2, with 16 binary places.
fn log2(value: u64) -> u64 {
    let zeros = value.leading_zeros();
    let mut scaled = value.wrapping_shl(zeros) >> 32;
    let mut log = 63u64.saturating_sub(u64::from(zeros));
    for _ in 0..16 {
        scaled = scaled.wrapping_mul(scaled) >> 31;
        log = log.wrapping_mul(2);
        if scaled >> 32 > 0 {
            scaled >>= 1;
            log = log.wrapping_add(1);
        }
    }
    log
}

impl Chance {
    pub(crate) fn new(seed: u64) -> Chance {
        Chance {
            generator: Pcg32::new(seed, STREAM),
        }
    }

    /// A number below `count`, or 0 if that is 0.
    #[inline]
    pub(crate) fn below(&mut self, count: u32) -> u32 {
        let word = u64::from(self.generator.next_word());
        ((word.wrapping_mul(u64::from(count)) >> 32) & 0xffff_ffff) as u32
    }

    /// True `often` times among 2^32.
    #[inline]
    pub(crate) fn happens(&mut self, often: u32) -> bool {
        self.generator.next_word() < often
    }

    /// A number that is distributed exponentially with the mean 1, with 16 binary places.
    pub(crate) fn exponential(&mut self) -> u64 {
        let word = u64::from(self.generator.next_word()) + 1;
        let fall = (32 * ONE).saturating_sub(log2(word));
        fall.wrapping_mul(LN_2) >> 16
    }
}
