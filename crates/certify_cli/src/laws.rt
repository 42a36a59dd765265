//! Limits in figures. All other contracts cite the constants, and would hold of any other number.
ghost use Rattle.std.specs.Prelude.{◌≡◌};

use crate::commands::MOST_PROOF;
use file_commands::MOST_TEXT;
use schedule_clauses::MOST_START_CLAUSES;

/// The most bytes of a file or a text, and of a proof.
pub fn inputs_are_limited()
    ensures text { MOST_TEXT ≡ 1048577 }
    ensures proof { MOST_PROOF ≡ 4000000000 }
{}

/// The most clauses on starts.
pub fn clauses_are_limited()
    ensures starts { MOST_START_CLAUSES ≡ 8000000 }
{}
