//! The words of replies for phases.
ghost use Rattle.std.specs.Prelude.{◌≡◌};
ghost use Rattle.session_lines.specs.ReplyText.{phase_text};

use job_table::Phase;

/// The word of `phase` in a reply.
pub fn phase_word(phase: Phase) -> &'static str
    ensures { result.now ≡ phase_text phase }
{
    match phase {
        Phase::Waiting => "waiting",
        Phase::Out(_) => "out",
        Phase::Leaving(_) => "leaving",
        Phase::Dry => "dry",
        Phase::Closed => "closed",
        Phase::Cancelled => "cancelled",
    }
}
