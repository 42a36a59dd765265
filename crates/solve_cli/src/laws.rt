//! Laws of several searches and of limits, each the proved contract of a function.
ghost use Rattle.std.specs.Prelude.{◌≡◌};
ghost use Rattle.solve_cli.specs.Laws.{SeveralAreTrue, OneIsItself, LinesTellTheBest, BetterLineTells, JsonTellsTheBest, BetterJsonTells, AllJsonTells};
ghost use Rattle.solve_cli.specs.Laws.{FilesAreLimited, SchedulesAreLimited, ReadsAreLimited};

use crate::portfolio::MOST_SEARCHES;
use crate::search_result::MOST_NODES;

/// The best schedule is feasible, with the makespan that is written. 'Optimal' is written only if
/// none is shorter, and 'infeasible' only if there is none.
pub fn what_several_tell_is_true()
    ensures { SeveralAreTrue }
{}

/// What is written of a single search is what it finds by itself.
pub fn one_search_tells_itself()
    ensures { OneIsItself }
{}

/// `verify` reads the best schedule of a result in its lines or its JSON, and a better one in its
/// line or its JSON. It reads the best in the JSON behind that of better ones, too.
pub fn what_is_written_is_told()
    ensures best { LinesTellTheBest }
    ensures better { BetterLineTells }
    ensures json { JsonTellsTheBest }
    ensures better_json { BetterJsonTells }
    ensures all_json { AllJsonTells }
{}

/// The limits of texts. All other contracts cite the constants, and would hold of any other number.
pub fn texts_are_limited()
    ensures file { FilesAreLimited }
    ensures schedule { SchedulesAreLimited }
    ensures read { ReadsAreLimited }
{}

/// The limits of searches: how many there are, and the nodes of each.
pub fn searches_are_limited()
    ensures searches { MOST_SEARCHES ≡ 1000 }
    ensures nodes { MOST_NODES ≡ 1000000000000 }
{}
