//! Laws of scripts and of their outputs, each the proved contract of a function.
ghost use Rattle.farm_replay.specs.Begins.{LinesTellWhose};
ghost use Rattle.farm_replay.specs.Bytes.{LinesAreReplies, EachPurseHasNames, EachOutputIsAlone, OutputsAreIsolated};
ghost use Rattle.farm_replay.specs.Cutting.{EachLineHasItsText};
ghost use Rattle.farm_replay.specs.Isolation.{EachReplaysAlone, ReplaysAreIsolated, EachLoneReplaysAlone};
ghost use Rattle.farm_replay.specs.Truth.{EachLineIsTrue};

use psplib_mm::laws::what_is_read_is_a_project;

/// Each line of a script is a request, unless it is blank. A submit's line has as many of the lines
/// behind it as it names, or is cut off by the end of the script.
pub fn each_line_has_its_text()
    ensures { EachLineHasItsText }
{}

/// In each output the lines of a purse's members are the output of their requests alone.
pub fn each_replays_alone()
    ensures { EachReplaysAlone }
{}

/// Two replays write equal lines for purses that begin alike, with equal names, requests and
/// refusals of memory.
pub fn replays_are_isolated()
    ensures { ReplaysAreIsolated }
{}

/// In each output a tenant with a purse of its own has the lines of its requests alone.
pub fn each_lone_replays_alone()
    ensures { EachLoneReplaysAlone }
{}

/// A line of an output begins with `@`, a tenant's name and a space exactly if it is that tenant's.
pub fn lines_tell_whose()
    ensures { LinesTellWhose }
{}

/// The lines of an output's bytes are those that answer the requests, one for each.
pub fn lines_are_replies()
    ensures { LinesAreReplies }
{}

/// Each purse has the names of its members' lines, so that laws about names are not vacuous.
pub fn each_purse_has_names()
    ensures { EachPurseHasNames }
{}

/// In each output the lines that begin with a purse's names are those of its requests alone.
pub fn each_output_is_alone()
    ensures { EachOutputIsAlone }
{}

/// `replays_are_isolated` for the bytes of the lines that begin with the members' names.
pub fn outputs_are_isolated()
    ensures { OutputsAreIsolated }
{}

/// Each line about a job is true of the one plan that its tenant submitted under its number before.
/// Schedules are feasible, with the named makespan; 'optimal' and 'infeasible' are true.
pub fn each_line_is_true()
    ensures { EachLineIsTrue }
{
    what_is_read_is_a_project();
}
