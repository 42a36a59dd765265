ghost use Rattle.std.specs.Prelude.{◌≡◌, Some};
ghost use Rattle.farm_cli.specs.Summary.{summary_of, summary_text};

use mrcpsp::Project;
use std::fmt;

/// A `Summary` is what `farm check` prints of a project.
#[derive(Clone, Copy, Debug, PartialEq, Eq)]
pub struct Summary {
    pub activities: usize,
    /// The modes of all activities together.
    pub modes: usize,
    pub renewable: usize,
    pub nonrenewable: usize,
    /// The sum of the longest durations, in periods.
    pub horizon: u32,
}

impl fmt::Display for Summary {
    ghost output = { λ summary. Some (summary_text summary) };

    /// Writes the line without its end.
    fn fmt<W: fmt::Write>(&self, f: &mut fmt::Formatter<W>) -> fmt::Result {
        write!(
            f,
            "activities {} modes {} renewable {} nonrenewable {} horizon {}",
            self.activities, self.modes, self.renewable, self.nonrenewable, self.horizon
        )
    }
}

/// The summary of `project`. Takes no memory.
pub fn summarize(project: &Project) -> Summary
    ensures { result ≡ summary_of project.now }
{
    let mut modes = 0;
    for activity in 0..project.size() {
        modes += project.mode_count(activity);
    }
    Summary {
        activities: project.size(),
        modes,
        renewable: project.renewables(),
        nonrenewable: project.nonrenewables(),
        horizon: project.horizon(),
    }
}
