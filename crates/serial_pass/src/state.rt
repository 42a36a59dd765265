//! What a pass keeps of the activities that it has placed.
use crate::eligible::Eligible;
use crate::points::FreePoint;
use crate::waiting::Wait;
use serial_sgs::Placement;
use serial_sgs::amounts::Amounts;

/// A `PassState` is a list of placed activities, the last one at its end, and what follows from it.
#[derive(Drop)]
pub(crate) struct PassState {
    pub(crate) placed: Vec<Placement>,
    /// What is free.
    pub(crate) points: Vec<FreePoint>,
    pub(crate) waiting: Vec<Wait>,
    pub(crate) eligible: Eligible,
    /// Each stock less its need, modulo 2^32.
    pub(crate) slack: Amounts,
    /// The latest finish, in periods.
    pub(crate) latest: u32,
}
