/// A `Verdict` is what a search has shown so far.
#[derive(Clone, Copy, Debug, PartialEq, Eq)]
pub enum Verdict {
    Going,
    Optimal,
    Infeasible,
    /// It is over, and shows nothing.
    Ended,
}

impl Verdict {
    ghost use Rattle.std.specs.Prelude.{◌≡◌};
    ghost use Rattle.strategy.specs.VerdictText.{verdict_text};

    /// The word of the verdict in a result and in a reply.
    pub fn word(self) -> &'static str
        ensures { result.now ≡ verdict_text self }
    {
        match self {
            Verdict::Going => "open",
            Verdict::Optimal => "optimal",
            Verdict::Infeasible => "infeasible",
            Verdict::Ended => "ended",
        }
    }
}
