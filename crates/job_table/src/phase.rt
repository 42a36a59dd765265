ghost use Rattle.std.specs.Prelude.{◌≡◌};
ghost use Rattle.job_table.specs.Table.{is_waiting, is_out, is_ended};
ghost use Rattle.job_table.specs.Job.{is_here, phase_after};

/// A `Phase` is the state of a job.
#[derive(Clone, Copy, Debug, PartialEq, Eq)]
pub enum Phase {
    /// A turn of it may be taken.
    Waiting,
    /// A worker holds its turn, for at most this number of nodes.
    Out(u64),
    /// It was cancelled, and a worker still holds its turn.
    Leaving(u64),
    /// It holds no quanta, and its search is not over.
    Dry,
    /// Its search is over.
    Closed,
    /// It was cancelled, and no worker holds its turn.
    Cancelled,
}

impl Phase {
    /// Whether a turn may be taken.
    pub fn is_waiting(self) -> bool
        ensures { result ≡ is_waiting self }
    {
        self == Phase::Waiting
    }

    /// Whether a turn is out.
    pub fn is_out(self) -> bool
        ensures { result ≡ is_out self }
    {
        match self {
            Phase::Out(_) | Phase::Leaving(_) => true,
            _ => false,
        }
    }

    /// Whether the job has ended.
    pub fn is_ended(self) -> bool
        ensures { result ≡ is_ended self }
    {
        match self {
            Phase::Closed | Phase::Cancelled => true,
            _ => false,
        }
    }

    /// Whether a job in this phase holds its search.
    pub fn is_here(self) -> bool
        ensures { result ≡ is_here self }
    {
        match self {
            Phase::Waiting | Phase::Dry => true,
            _ => false,
        }
    }

    /// The phase after a turn: `closed` if its search is over, which then holds `left` quanta.
    pub fn after(self, closed: bool, left: u64) -> Phase
        ensures { result ≡ phase_after self closed left }
    {
        if let Phase::Leaving(_) = self {
            Phase::Cancelled
        } else if closed {
            Phase::Closed
        } else if left == 0 {
            Phase::Dry
        } else {
            Phase::Waiting
        }
    }
}
