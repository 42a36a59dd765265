//! Where the variable of a fact is. These are hints: a fact is compared before its variable is
//! taken.
ghost use Rattle.std.specs.Prelude.{◌≡◌, true, IfSome, Some, slice_get};

use crate::activities::Activities;
use crate::meaning::Fact;
use std::alloc::{AllocError, Global};

const NONE: u32 = u32::MAX;

const FIRST_CHAINS: usize = 4096;

/// A `FactIndex` is where the variables of facts are. The starts of an activity have consecutive
/// variables, if they were made in order; so have its modes, and the periods in which a mode runs.
/// `starts`, `modes` and `runs` are where these begin: at time 0, mode 0 and period 0. `heads` and
/// `nexts` chain the variables of each hash value.
#[derive(Drop)]
pub(crate) struct FactIndex {
    starts: Vec<usize>,
    modes: Vec<usize>,
    runs: Vec<usize>,
    heads: Vec<u32>,
    nexts: Vec<u32>,
}

fn number_or_none(numbers: &[u32], at: usize) -> u32 {
    match numbers.get(at) {
        Some(number) => *number,
        None => NONE,
    }
}

fn base_of(bases: &[usize], at: usize) -> usize {
    match bases.get(at) {
        Some(base) => *base,
        None => usize::MAX,
    }
}

/// Keeps the first base at a place.
fn keep_base(bases: &mut Vec<usize>, at: usize, base: usize) -> Result<(), AllocError> {
    if at >= 1_000_000_000 {
        return Ok(());
    }
    if at >= bases.len() {
        bases.resize(at + 1, usize::MAX)?;
    }
    if at < bases.len() && bases[at] == usize::MAX {
        bases[at] = base;
    }
    Ok(())
}

fn mix(first: u64, second: u64, third: u64) -> u64 {
    let sum = first.wrapping_mul(0x9E37_79B9_7F4A_7C15)
        ^ second.wrapping_mul(0xC2B2_AE3D_27D4_EB4F)
        ^ third.wrapping_mul(0x27D4_EB2F_1656_67C5);
    (sum ^ (sum >> 32)).wrapping_mul(0xD6E8_FEB8_6659_FD93) >> 32
}

fn sum_of(activities: Activities) -> u64 {
    let low = activities[0].wrapping_mul(0xFF51_AFD7_ED55_8CCD)
        ^ activities[1].wrapping_mul(0xC4CE_B9FE_1A85_EC53);
    let high = activities[2].wrapping_mul(0xBF58_476D_1CE4_E5B9)
        ^ activities[3].wrapping_mul(0x94D0_49BB_1331_11EB);
    low ^ high
}

fn hash(meaning: Fact) -> u64 {
    match meaning {
        Fact::StartsBy { activity, time } => mix(1, activity as u64, time as u64),
        Fact::InMode { activity, mode } => mix(2, activity as u64, mode as u64),
        Fact::Runs {
            activity,
            mode,
            time,
        } => mix(activity as u64, mode as u64, time as u64),
        Fact::UseWithin {
            resource,
            time,
            activities,
            most,
        } => mix(
            sum_of(activities) ^ resource as u64,
            time as u64,
            most as u64,
        ),
        Fact::ConsumptionWithin {
            resource,
            activities,
            most,
        } => mix(sum_of(activities), resource as u64, most as u64),
    }
}

fn is_at(meanings: &[Fact], at: usize, meaning: Fact) -> bool
    ensures { result ≡ true → slice_get meanings.now at ≡ Some meaning }
{
    if at >= meanings.len() {
        return false;
    }
    meanings[at] == meaning
}

fn find_in(meanings: &[Fact], nexts: &[u32], first: u32, meaning: Fact) -> Option<usize>
    ensures { IfSome result (λ x. slice_get meanings.now x ≡ Some meaning) }
{
    let mut at = first as usize;
    for _ in 0..nexts.len() {
        if at >= nexts.len() {
            return None;
        }
        if is_at(meanings, at, meaning) {
            return Some(at);
        }
        at = number_or_none(nexts, at) as usize;
    }
    None
}

impl FactIndex {
    pub(crate) fn new(alloc: Global) -> Result<FactIndex, AllocError> {
        let mut heads = Vec::with_capacity(alloc, FIRST_CHAINS)?;
        heads.resize(FIRST_CHAINS, NONE)?;
        let mut nexts = Vec::new(alloc);
        nexts.push(NONE)?;
        Ok(FactIndex {
            starts: Vec::new(alloc),
            modes: Vec::new(alloc),
            runs: Vec::new(alloc),
            heads,
            nexts,
        })
    }

    fn mode_of(&self, activity: usize, mode: usize) -> usize {
        base_of(&self.modes, activity).wrapping_add(mode)
    }

    /// The variable of a start, a mode or a run, if such facts were made in order.
    fn expected(&self, meaning: Fact) -> usize {
        match meaning {
            Fact::StartsBy { activity, time } => {
                base_of(&self.starts, activity).wrapping_add(time as usize)
            }
            Fact::InMode { activity, mode } => self.mode_of(activity, mode),
            Fact::Runs {
                activity,
                mode,
                time,
            } => base_of(&self.runs, self.mode_of(activity, mode)).wrapping_add(time as usize),
            _ => usize::MAX,
        }
    }

    fn keep(&mut self, meaning: Fact, variable: usize) -> Result<(), AllocError> {
        match meaning {
            Fact::StartsBy { activity, time } => {
                keep_base(
                    &mut self.starts,
                    activity,
                    variable.wrapping_sub(time as usize),
                )
            }
            Fact::InMode { activity, mode } => {
                keep_base(&mut self.modes, activity, variable.wrapping_sub(mode))
            }
            Fact::Runs {
                activity,
                mode,
                time,
            } => {
                let mode = self.mode_of(activity, mode);
                keep_base(&mut self.runs, mode, variable.wrapping_sub(time as usize))
            }
            _ => Ok(()),
        }
    }

    /// The number of chains is a power of 2.
    fn chain_of(&self, meaning: Fact) -> usize {
        let last = self.heads.len().saturating_sub(1);
        hash(meaning) as usize & last
    }

    pub(crate) fn find(&self, meanings: &[Fact], meaning: Fact) -> Option<usize>
        ensures { IfSome result (λ x. slice_get meanings.now x ≡ Some meaning) }
    {
        let expected = self.expected(meaning);
        if is_at(meanings, expected, meaning) {
            return Some(expected);
        }
        let first = number_or_none(&self.heads, self.chain_of(meaning));
        find_in(meanings, &self.nexts, first, meaning)
    }

    fn link(&mut self, meaning: Fact, variable: usize) -> Result<(), AllocError> {
        let chain = self.chain_of(meaning);
        if chain >= self.heads.len() || variable >= 1_000_000_000 {
            return Ok(());
        }
        self.nexts.push(self.heads[chain])?;
        self.heads[chain] = variable as u32;
        Ok(())
    }

    /// Links the variable behind all others.
    pub(crate) fn add(&mut self, meanings: &[Fact], variable: usize) -> Result<(), AllocError> {
        if variable < meanings.len() {
            let meaning = meanings[variable];
            self.keep(meaning, variable)?;
            self.link(meaning, variable)?;
        }
        self.spread(meanings)
    }

    /// Doubles the chains once there are fewer than variables.
    fn spread(&mut self, meanings: &[Fact]) -> Result<(), AllocError> {
        let chains = self.heads.len();
        if meanings.len() < chains || chains >= 1_000_000_000 {
            return Ok(());
        }
        self.heads.clear();
        self.heads.resize(chains * 2, NONE)?;
        self.nexts.clear();
        self.nexts.push(NONE)?;
        for variable in 1..meanings.len() {
            self.link(meanings[variable], variable)?;
        }
        Ok(())
    }
}
