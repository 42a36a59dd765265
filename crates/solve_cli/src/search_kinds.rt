ghost use Rattle.std.specs.Prelude.{◌≡◌};
ghost use Rattle.solve_cli.specs.SearchWord.{search_in};

use strategy::{Kind, seed};

/// A `SearchKind` is how this command searches a project.
#[derive(Clone, Copy, Debug, PartialEq, Eq)]
pub enum SearchKind {
    /// By a search of this kind, as the farm does.
    Planned(Kind),
    /// By local search, with the words of this seed.
    Improve(u64),
    /// By local search and a search of clauses, within this many conflicts.
    Prove(u64),
}

impl SearchKind {
    /// The search that `word` names: what `Kind::parse` takes, `improve:` and a seed, or `prove:`
    /// and a number of conflicts.
    pub(crate) fn parse(word: &str) -> Option<SearchKind>
        ensures { result ≡ search_in word.now }
    {
        let word = word.as_bytes();
        if let Some(kind) = Kind::parse(word) {
            return Some(SearchKind::Planned(kind));
        }
        match seed(b"improve:", word) {
            Some(number) => Some(SearchKind::Improve(number)),
            None => seed(b"prove:", word).map(SearchKind::Prove),
        }
    }
}
