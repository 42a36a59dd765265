ghost use Rattle.std.specs.Prelude.{Some};
ghost use Rattle.mrcpsp.specs.BreachText.{breach_text};

use std::error::Error;
use std::fmt;

/// A `Breach` is a condition that a schedule breaks. The variants are in the order of the test,
/// then the least numbers come first. Activities and resources count from 1, periods from 0.
#[derive(Clone, Copy, Debug, PartialEq, Eq)]
pub enum Breach {
    /// Not one mode and one start for each activity, or a start above 1,000,000,000.
    Shape,
    /// The activity that has no such mode.
    Mode(u32),
    /// The second activity is a successor of the first one, and starts before that ends.
    Precedence(u32, u32),
    /// The renewable resource that is overused, and the period.
    Renewable(u32, u32),
    /// The nonrenewable resource whose consumption exceeds its capacity.
    Nonrenewable(u32),
}

impl fmt::Display for Breach {
    ghost output = { λ breach. Some (breach_text breach) };

    fn fmt<W: fmt::Write>(&self, f: &mut fmt::Formatter<W>) -> fmt::Result {
        match self {
            Breach::Shape => write!(f, "Shape"),
            Breach::Mode(activity) => write!(f, "Mode({activity})"),
            Breach::Precedence(before, after) => write!(f, "Precedence({before}, {after})"),
            Breach::Renewable(resource, period) => write!(f, "Renewable({resource}, {period})"),
            Breach::Nonrenewable(resource) => write!(f, "Nonrenewable({resource})"),
        }
    }
}

impl Error for Breach {}
