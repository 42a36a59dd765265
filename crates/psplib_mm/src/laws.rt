ghost use Rattle.psplib_mm.specs.Laws.{ReadingGivesProjects};

/// The project that a text means is within all limits, and its successors keep their rule.
pub fn what_is_read_is_a_project()
    ensures { ReadingGivesProjects }
{}
