//! How much of the amounts and the sets a search looks at.
ghost use Rattle.std.specs.Prelude.{◌≡◌, ◌<◌, ◌≤◌};
ghost use Rattle.tree_search.specs.Width.{HasWidth, lanes_of, words_of};
ghost use Rattle.tree_search.specs.declared.width.Width.TheVariants.{Small};

use mrcpsp::{MOST_RESOURCES, Project};

/// A `Width` is how many resources of each kind and how many activities a project may have. All
/// functions with a `Width` are inlined, so a search is compiled for each.
#[derive(Clone, Copy)]
pub(crate) enum Width {
    /// Up to four resources of each kind, and fewer than 64 activities.
    Small,
    Large,
}

impl Width {
    /// The least one that is enough.
    pub(crate) fn of(project: &Project) -> Width
        ensures { HasWidth project.now result }
    {
        let kinds = project.renewables().max(project.nonrenewables());
        if kinds <= 4 && project.size() < 64 {
            Width::Small
        } else {
            Width::Large
        }
    }

    /// The number of resources of each kind.
    #[inline(always)]
    pub(crate) fn lanes(self) -> usize
        ensures exact { result ≡ lanes_of self }
        ensures few { result ≤ MOST_RESOURCES }
    {
        match self {
            Width::Small => 4,
            Width::Large => MOST_RESOURCES,
        }
    }

    /// The number of words in which activities are.
    #[inline(always)]
    pub(crate) fn words(self) -> usize
        ensures exact { result ≡ words_of self }
        ensures few { result ≤ 4 }
    {
        match self {
            Width::Small => 1,
            Width::Large => 4,
        }
    }

    /// Returns `activity`. The compiler sees that it is in the first word if that is the only one.
    #[inline(always)]
    pub(crate) fn short(self, activity: usize) -> usize
        requires { self ≡ Small → activity < 64 }
        ensures { result ≡ activity }
    {
        match self {
            Width::Small => activity % 64,
            Width::Large => activity,
        }
    }
}
