//! Laws of the farm: each is the proved contract of a function that does nothing.
ghost use Rattle.farm_core.specs.Laws.{PursesAreShared, EachPurseIsAlone, EachPurseIsIsolated, EachViewIsASeat, EachLedgerIsThePurses, EachLedgerIsWhole, EachLoneTenantIsAlone, EachLoneTenantIsIsolated};
ghost use Rattle.farm_core.specs.Runs.{EachCallCanBeMade, EachSequenceIsARun, JournalsAreTheCalls};
ghost use Rattle.farm_core.specs.Truth.{EachAnswerIsTrue};
ghost use Rattle.farm_core.specs.Need.{NodesAreTheLesser, EachEndsAlike};
ghost use Rattle.farm_core.specs.Held.{TakenTurnsAreHeld, TurnsStayHeld, HeldTurnsAreNoStrangers, HeldTurnsRunTheirNodes, FarmsAreReplayed, TakenJobsWereNotOut, OnlyTakenJobsAreOut, GivenJobsAreNotOut};

/// Two tenants share a purse exactly if they name the same one. Purses are numbered from 0 on with
/// no gap.
pub fn purses_are_shared()
    ensures { PursesAreShared }
{}

/// In every run, the replies to one purse's members, and its jobs and ledger at the end, are those
/// of its members' own calls in a farm that no one else uses.
pub fn each_purse_is_alone()
    ensures { EachPurseIsAlone }
{}

/// Two runs agree in a purse's replies, jobs and ledger if the purse begins alike and its members
/// ask for the same, whatever other tenants do. This is noninterference (Goguen and Meseguer 1982).
pub fn each_purse_is_isolated()
    ensures { EachPurseIsIsolated }
{}

/// The view of a tenant is that of its seat at its purse.
pub fn each_view_is_a_seat()
    ensures { EachViewIsASeat }
{}

/// Each member of a purse is replied the purse's ledger.
pub fn each_ledger_is_the_purses()
    ensures { EachLedgerIsThePurses }
{}

/// In every run, what a purse was granted is the sum of what is free, held and spent.
pub fn each_ledger_is_whole()
    ensures { EachLedgerIsWhole }
{}

/// As `each_purse_is_alone`, of a tenant that shares its purse with no other.
pub fn each_lone_tenant_is_alone()
    ensures { EachLoneTenantIsAlone }
{}

/// As `each_purse_is_isolated`, of a tenant that shares its purse with no other in either run.
pub fn each_lone_tenant_is_isolated()
    ensures { EachLoneTenantIsIsolated }
{}

/// In every run, each reply about a job is true of the one plan that was submitted under its
/// number: a schedule is feasible and has the makespan that is named, with 'optimal' no feasible
/// schedule is shorter, and with 'infeasible' there is none.
pub fn each_answer_is_true()
    ensures { EachAnswerIsTrue }
{}

/// In every run, the nodes of a job that is dry or closed are the lesser of the quanta that it was
/// given and the nodes that its search needs. Turns, slices and workers make no difference.
pub fn nodes_are_the_lesser()
    ensures { NodesAreTheLesser }
{}

/// Two runs end with the same lines for each member of a purse and the same ledger if the purse
/// begins alike, the same submits and funds of its members were accepted and no cancel or forget
/// was, and at the end all their jobs are dry or closed. Turns, slices, refusals and other tenants
/// make no difference.
pub fn each_ends_alike()
    ensures { EachEndsAlike }
{}

/// A turn that was taken is held: its job is out for it.
pub fn taken_turns_are_held()
    ensures { TakenTurnsAreHeld }
{}

/// A held turn stays held until it is given back, whatever else is asked of the farm.
pub fn turns_stay_held()
    ensures { TurnsStayHeld }
{}

/// A held turn is no stranger to the farm, before it has run and after.
pub fn held_turns_are_no_strangers()
    ensures { HeldTurnsAreNoStrangers }
{}

/// The reply to a give names the nodes that the turn ran.
pub fn held_turns_run_their_nodes()
    ensures { HeldTurnsRunTheirNodes }
{}

/// A farm is where its journal leads, when it is made and after each call.
pub fn farms_are_replayed()
    ensures { FarmsAreReplayed }
{}

/// A turn is taken only of a job that is not out.
pub fn taken_jobs_were_not_out()
    ensures { TakenJobsWereNotOut }
{}

/// In a farm that is where its journal leads, a job goes out only when a turn of it is taken.
pub fn only_taken_jobs_are_out()
    ensures { OnlyTakenJobsAreOut }
{}

/// A job whose turn came back is not out.
pub fn given_jobs_are_not_out()
    ensures { GivenJobsAreNotOut }
{}

/// Each call is possible in each state of a farm, and changes no other tenant.
pub fn each_call_can_be_made()
    ensures { EachCallCanBeMade }
{}

/// Whatever the tenants of a configuration ask for, there is a run of just these calls. So no law
/// is vacuous.
pub fn each_sequence_is_a_run()
    ensures { EachSequenceIsARun }
{}

/// The journal at the end of a run is the entries of its calls in their order.
pub fn journals_are_the_calls()
    ensures { JournalsAreTheCalls }
{}
