ghost use Rattle.std.specs.Prelude.{◌≡◌};

use crate::reader::Script;
use std::marker::Model;
use watched_io::Watch;

/// A `ReplayWatches` is a watch of the script's reader `R`, and one of the replies' writer `W`.
/// Contracts see what each has counted.
#[derive(Drop)]
pub struct ReplayWatches<R, W> {
    pub(crate) reads: Watch<Script<R>>,
    pub(crate) writes: Watch<W>,
}

impl<R, W> Model for ReplayWatches<R, W> {
    ghost use Rattle.farm_replay.specs.Counts.{Counts};

    ghost Value = { Counts };

    ghost view = { λ w. record { reads = w.reads; writes = w.writes } };
}

impl<R, W> ReplayWatches<R, W> {
    /// Returns watches through which nothing has failed.
    pub fn new() -> ReplayWatches<R, W>
        ensures reads { result.reads ≡ 0 }
        ensures writes { result.writes ≡ 0 }
    {
        ReplayWatches {
            reads: Watch::new(),
            writes: Watch::new(),
        }
    }
}
