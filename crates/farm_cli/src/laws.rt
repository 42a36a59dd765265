//! The limits in figures, as the proved contract of a function that does nothing.
ghost use Rattle.farm_cli.specs.Limits.{ProblemLimits, FarmLimits, PurseLimits, LineLimits, ScriptLimits, CommandLimits};

/// Each limit of a project and of a farm is this number. All other contracts cite the constants,
/// and would hold of any other number.
pub fn limits_are()
    ensures problem { ProblemLimits }
    ensures farm { FarmLimits }
    ensures purses { PurseLimits }
    ensures lines { LineLimits }
    ensures scripts { ScriptLimits }
    ensures commands { CommandLimits }
{}
