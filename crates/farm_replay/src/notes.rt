ghost use Rattle.std.specs.Prelude.{◌≡◌, ◌||◌, is_some};
ghost use Rattle.farm_replay.specs.Refusal.{is_refusal, first_line};

use farm_core::Reply;
use session_lines::Said;

/// A `Notes` is what a script's writer may want to look at: lines, counted from 1.
#[derive(Clone, Copy, Debug, Default, PartialEq, Eq)]
pub struct Notes {
    /// The line of the first refused request.
    pub refused: Option<u64>,
    /// The line of the first submit whose text ends in a line that begins with `@`.
    pub submit_ends_in_request: Option<u64>,
}

/// Whether `said` refuses its request: its text begins with the word `no`.
pub fn is_refused(said: &Said) -> bool
    ensures { result ≡ is_refusal said.now }
{
    match said {
        Said::Reply(reply) => !matches!(
            reply,
            Reply::Job(_)
                | Reply::Line(_)
                | Reply::Ran(..)
                | Reply::Best(..)
                | Reply::Forgotten(_)
                | Reply::Ledger(_)
        ),
        Said::NoTurn | Said::NoTenant | Said::Syntax | Said::LongLine | Said::File(_) => true,
    }
}

impl Notes {
    pub(crate) fn add(&mut self, line: u64, ends_in_request: bool, said: &Said)
        ensures refused { self.new.refused ≡ first_line self.old.refused (is_refusal said.now) line }
        ensures submit_ends_in_request { self.new.submit_ends_in_request ≡ first_line self.old.submit_ends_in_request ends_in_request line }
        ensures any { is_some self.new.refused ≡ (is_some self.old.refused || is_refusal said.now) }
    {
        if self.refused.is_none() && is_refused(said) {
            self.refused = Some(line);
        }
        if self.submit_ends_in_request.is_none() && ends_in_request {
            self.submit_ends_in_request = Some(line);
        }
    }
}
