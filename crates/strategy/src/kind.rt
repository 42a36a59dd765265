ghost use Rattle.std.specs.Prelude.{◌≡◌};
ghost use Rattle.strategy.specs.KindWord.{kind_in};

use crate::words::{is, seed};

/// A `Kind` is how a project is searched. `Tree` is exact (Sprecher and Drexl 1998). A rule is one
/// pass (Kolisch 1996), and `Sample` draws passes without end from its seed (Drexl 1991).
#[derive(Clone, Copy, Debug, PartialEq, Eq)]
pub enum Kind {
    Tree,
    /// By the smallest latest finish time.
    RuleLft,
    /// By the most total successors.
    RuleMts,
    /// By the shortest duration.
    RuleSpt,
    Sample(u64),
}

impl Kind {
    /// The kind that `word` names: `tree`, `rule:lft`, `rule:mts`, `rule:spt`, or `sample:` and a
    /// seed.
    pub fn parse(word: &[u8]) -> Option<Kind>
        ensures { result ≡ kind_in word.now }
    {
        if is(word, b"tree") {
            Some(Kind::Tree)
        } else if is(word, b"rule:lft") {
            Some(Kind::RuleLft)
        } else if is(word, b"rule:mts") {
            Some(Kind::RuleMts)
        } else if is(word, b"rule:spt") {
            Some(Kind::RuleSpt)
        } else {
            seed(b"sample:", word).map(Kind::Sample)
        }
    }
}
