//! The most that is read of an input, in figures, as the proved contract of a function that does
//! nothing.
ghost use Rattle.std.specs.Prelude.{◌≡◌, ◌<◌};

use crate::inputs::MOST_TEXT;
use schedule_files::MOST_BYTES;

/// All other contracts cite the constant, and would hold of any other number.
pub fn inputs_are_limited()
    ensures text { MOST_TEXT ≡ 1048577 }
    ensures longer { MOST_BYTES < MOST_TEXT }
{}
