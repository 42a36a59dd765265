//! Laws of a pool: each is the proved contract of a function that does nothing.
ghost use Rattle.farm_pool.specs.Closed.{ClosedPoolsAreIsolated, RepliesAreInTheHistory};
ghost use Rattle.farm_pool.specs.Laws.{AcceptedCancelsAreMade, EachReplyCanBeMade, EachReplyIsAlone, EachReplyIsIsolated, EachReplyIsTrue, EachTurnCanBeMade, LegalHistoriesAreRuns, NoPassIsSplitOff};
ghost use Rattle.farm_pool.specs.Runs.{EachCallOfARunCanBeMade, EachRunIsAClosedPools, PassesCanMakeEachRun};

/// The entries of a legal history are those of a run of the farm.
pub fn legal_histories_are_runs()
    ensures { LegalHistoriesAreRuns }
{}

/// A purse's members get the replies that their own calls alone would get, unless *no memory*.
pub fn each_reply_is_alone()
    ensures { EachReplyIsAlone }
{}

/// Purses that begin alike get equal replies to equal calls and turns, unless *no memory*.
pub fn each_reply_is_isolated()
    ensures { EachReplyIsIsolated }
{}

/// Purses that begin alike and have equal calls and turns in two closed pools end alike, with equal
/// answers.
pub fn closed_pools_are_isolated()
    ensures { ClosedPoolsAreIsolated }
{}

/// A reply that leaves an entry is, at its place, an answer of `closed_pools_are_isolated`.
pub fn replies_are_in_the_history()
    ensures { RepliesAreInTheHistory }
{}

/// Each run that submits projects alone is the history of a closed pool.
pub fn each_run_is_a_closed_pools()
    ensures { EachRunIsAClosedPools }
{}

/// Any pass can make each call of such a run, and gets the run's answer.
pub fn each_call_of_a_run_can_be_made()
    ensures { EachCallOfARunCanBeMade }
{}

/// If each take and give of such a run finds its turn, some passes of a pool make exactly that run.
pub fn passes_can_make_each_run()
    ensures { PassesCanMakeEachRun }
{}

/// A reply about a job is true of the one plan that its tenant submitted under its number.
pub fn each_reply_is_true()
    ensures { EachReplyIsTrue }
{}

/// Each reply of a tenant's step can be given, so no law about replies is vacuous.
pub fn each_reply_can_be_made()
    ensures { EachReplyCanBeMade }
{}

/// Each possible turn can be taken and given, so no law about turns is vacuous.
pub fn each_turn_can_be_made()
    ensures { EachTurnCanBeMade }
{}

/// A cancel that its tenant's step accepts is answered so, whatever memory there is.
pub fn accepted_cancels_are_made()
    ensures { AcceptedCancelsAreMade }
{}

/// A call is one call of its pass, and neither a call nor a worker splits a pass off.
pub fn no_pass_is_split_off()
    ensures { NoPassIsSplitOff }
{}
