//! The worked scripts.
use crate::calls::Call::{
    Abandon, Cancel, Fetch, Forget, Fund, Give, Ledger, Status, Submit, Take, Turn,
};
use crate::calls::CallAnswer::{
    Best, Books, Forgotten, Job, NoAmount, NoBusy, NoJobs, NoOver, NoRoom, NoShort, NoTurn,
    NoUnknown, Ran, Told,
};
use crate::calls::{CallAnswer, Placed, Shown};
use crate::fixtures::Text::{Chain, Diamond, Lone, Roomy, Shared, Starved};
use crate::play::Step;
use job_table::Phase::{Cancelled, Closed, Dry, Leaving, Out, Waiting};
use strategy::Kind::{RuleLft, RuleMts, RuleSpt, Sample, Tree};
use strategy::Verdict::{Ended, Going, Infeasible, Optimal};

/// A tree runs dry, is funded, and closes.
pub(crate) const TREE: [Step; 6] = [
    Step(0, Submit(Tree, 6, Diamond), Job(1)),
    Step(0, Turn(1, 10), Ran(6, Shown(1, Dry, 6, 0, Some(4), Going))),
    Step(
        0,
        Fund(1, 10),
        Told(Shown(1, Waiting, 6, 10, Some(4), Going)),
    ),
    Step(
        0,
        Turn(1, 10),
        Ran(3, Shown(1, Closed, 9, 0, Some(4), Optimal)),
    ),
    Step(
        0,
        Fetch(1),
        Best(
            1,
            Some(Placed(4, [(1, 0), (1, 0), (2, 0), (1, 4)])),
            Some(4),
            Optimal,
        ),
    ),
    Step(0, Ledger, Books([100, 91, 0, 9])),
];

/// What another tenant does meanwhile.
pub(crate) const OTHER: [Step; 6] = [
    Step(1, Submit(Tree, 6, Diamond), Job(1)),
    Step(
        1,
        Turn(1, 4),
        Ran(4, Shown(1, Waiting, 4, 2, Some(5), Going)),
    ),
    Step(
        1,
        Cancel(1),
        Told(Shown(1, Cancelled, 4, 0, Some(5), Going)),
    ),
    Step(1, Ledger, Books([10, 6, 0, 4])),
    Step(1, Submit(RuleSpt, 5, Diamond), Job(2)),
    Step(1, Take(2, 3), Told(Shown(2, Out(3), 0, 5, None, Going))),
];

/// The four nodes of a pass by a rule.
const PASSED: Step = Step(
    0,
    Turn(1, 10),
    Ran(4, Shown(1, Closed, 4, 0, Some(5), Ended)),
);

const FOUR_SPENT: Step = Step(0, Ledger, Books([100, 96, 0, 4]));

/// A pass by a rule, in one turn.
pub(crate) const RULE_SPT: [Step; 3] = [
    Step(0, Submit(RuleSpt, 10, Diamond), Job(1)),
    PASSED,
    FOUR_SPENT,
];

pub(crate) const RULE_LFT: [Step; 3] = [
    Step(0, Submit(RuleLft, 10, Diamond), Job(1)),
    PASSED,
    FOUR_SPENT,
];

pub(crate) const RULE_MTS: [Step; 3] = [
    Step(0, Submit(RuleMts, 10, Diamond), Job(1)),
    PASSED,
    FOUR_SPENT,
];

/// A pass by a rule in two turns.
pub(crate) const RULE_IN_TURNS: [Step; 5] = [
    Step(0, Submit(RuleSpt, 10, Diamond), Job(1)),
    Step(0, Status(1), Told(Shown(1, Waiting, 0, 10, None, Going))),
    Step(0, Turn(1, 2), Ran(2, Shown(1, Waiting, 2, 8, None, Going))),
    Step(
        0,
        Turn(1, 9),
        Ran(2, Shown(1, Closed, 4, 0, Some(5), Ended)),
    ),
    Step(0, Ledger, Books([100, 96, 0, 4])),
];

/// A pass drawn from a seed.
pub(crate) const SAMPLE: [Step; 3] = [
    Step(0, Submit(Sample(42), 4, Diamond), Job(1)),
    Step(0, Turn(1, 10), Ran(4, Shown(1, Dry, 4, 0, Some(5), Going))),
    Step(
        0,
        Fetch(1),
        Best(
            1,
            Some(Placed(4, [(1, 0), (1, 0), (1, 3), (1, 5)])),
            Some(5),
            Going,
        ),
    ),
];

pub(crate) const SAMPLE_OF_SHARED: [Step; 3] = [
    Step(0, Submit(Sample(42), 4, Shared), Job(1)),
    Step(0, Turn(1, 10), Ran(4, Shown(1, Dry, 4, 0, Some(7), Going))),
    Step(
        0,
        Fetch(1),
        Best(
            1,
            Some(Placed(4, [(1, 0), (1, 2), (1, 0), (1, 4)])),
            Some(7),
            Going,
        ),
    ),
];

/// The tenant has three entries of the journal.
pub(crate) const FEW_ENTRIES: [Step; 6] = [
    Step(0, Submit(Tree, 6, Diamond), Job(1)),
    Step(0, Take(1, 2), Told(Shown(1, Out(2), 0, 6, None, Going))),
    Step(0, Status(1), NoRoom),
    Step(0, Give, Ran(2, Shown(1, Waiting, 2, 4, None, Going))),
    Step(0, Status(1), NoRoom),
    Step(0, Turn(1, 1), NoTurn),
];

/// A job is cancelled while it is out.
pub(crate) const CANCEL_WHILE_OUT: [Step; 7] = [
    Step(0, Submit(Tree, 6, Diamond), Job(1)),
    Step(0, Take(1, 2), Told(Shown(1, Out(2), 0, 6, None, Going))),
    Step(0, Cancel(1), Told(Shown(1, Leaving(2), 0, 6, None, Going))),
    Step(0, Ledger, Books([100, 94, 6, 0])),
    Step(0, Give, Ran(2, Shown(1, Cancelled, 2, 0, None, Going))),
    Step(0, Ledger, Books([100, 98, 0, 2])),
    Step(0, Cancel(1), NoOver),
];

/// A tree closes at once, since nothing is feasible.
pub(crate) const STARVED_TREE: [Step; 4] = [
    Step(0, Submit(Tree, 6, Starved), Job(1)),
    Step(
        0,
        Turn(1, 10),
        Ran(1, Shown(1, Closed, 1, 0, None, Infeasible)),
    ),
    Step(0, Fetch(1), Best(1, None, None, Infeasible)),
    Step(0, Ledger, Books([100, 99, 0, 1])),
];

/// A rule finds no schedule, and shows nothing.
pub(crate) const STARVED_RULE: [Step; 3] = [
    Step(0, Submit(RuleSpt, 6, Starved), Job(1)),
    Step(0, Turn(1, 10), Ran(4, Shown(1, Closed, 4, 0, None, Ended))),
    Step(0, Fetch(1), Best(1, None, None, Ended)),
];

/// Each refusal, with its number.
pub(crate) const REFUSALS: [Step; 15] = [
    Step(0, Submit(Tree, 101, Diamond), NoShort(100)),
    Step(0, Submit(Tree, 0, Diamond), NoAmount),
    Step(0, Submit(RuleSpt, 10, Diamond), Job(1)),
    Step(
        0,
        Turn(1, 10),
        Ran(4, Shown(1, Closed, 4, 0, Some(5), Ended)),
    ),
    Step(0, Submit(Tree, 6, Diamond), Job(2)),
    Step(0, Submit(Tree, 1, Diamond), NoJobs),
    Step(0, Fund(1, 1), NoOver),
    Step(0, Forget(1), Forgotten(1)),
    Step(0, Submit(Tree, 1, Diamond), Job(3)),
    Step(0, Status(1), NoUnknown),
    Step(0, Fund(4_294_967_298, 0), NoUnknown),
    Step(0, Fund(2, 0), NoAmount),
    Step(0, Fund(2, 90), NoShort(89)),
    Step(0, Forget(2), NoBusy),
    Step(0, Ledger, Books([100, 89, 7, 4])),
];

/// The tree of one activity.
pub(crate) const LONE_TREE: [Step; 3] = [
    Step(0, Submit(Tree, 6, Lone), Job(1)),
    Step(
        0,
        Turn(1, 10),
        Ran(1, Shown(1, Closed, 1, 0, Some(0), Optimal)),
    ),
    Step(
        0,
        Fetch(1),
        Best(
            1,
            Some(Placed(1, [(1, 0), (0, 0), (0, 0), (0, 0)])),
            Some(0),
            Optimal,
        ),
    ),
];

/// What is refused while a job is out.
pub(crate) const WHILE_OUT: [Step; 7] = [
    Step(0, Submit(Tree, 6, Diamond), Job(1)),
    Step(0, Take(1, 2), Told(Shown(1, Out(2), 0, 6, None, Going))),
    Step(0, Take(1, 2), NoTurn),
    Step(0, Take(9, 2), NoTurn),
    Step(0, Fetch(1), NoBusy),
    Step(0, Fund(1, 5), NoBusy),
    Step(0, Ledger, Books([100, 94, 6, 0])),
];

/// A job that has run dry is not taken.
pub(crate) const DRY_RULE: [Step; 3] = [
    Step(0, Submit(RuleSpt, 2, Diamond), Job(1)),
    Step(0, Turn(1, 10), Ran(2, Shown(1, Dry, 2, 0, None, Going))),
    Step(0, Take(1, 1), NoTurn),
];

/// A turn is run and dropped, and its job stays out.
pub(crate) const ABANDONED: [Step; 5] = [
    Step(0, Submit(Tree, 6, Diamond), Job(1)),
    Step(0, Take(1, 2), Told(Shown(1, Out(2), 0, 6, None, Going))),
    Step(0, Abandon, CallAnswer::Gone),
    Step(0, Status(1), Told(Shown(1, Out(2), 0, 6, None, Going))),
    Step(0, Ledger, Books([100, 94, 6, 0])),
];

/// The pass of a chain is as short as the bound.
pub(crate) const CHAIN_RULE: [Step; 2] = [
    Step(0, Submit(RuleSpt, 5, Chain), Job(1)),
    Step(
        0,
        Turn(1, 10),
        Ran(3, Shown(1, Closed, 3, 0, Some(5), Optimal)),
    ),
];

/// The first pass of sampling ends the search.
pub(crate) const CHAIN_SAMPLE: [Step; 3] = [
    Step(0, Submit(Sample(42), 10, Chain), Job(1)),
    Step(
        0,
        Turn(1, 10),
        Ran(3, Shown(1, Closed, 3, 0, Some(5), Optimal)),
    ),
    Step(0, Ledger, Books([100, 97, 0, 3])),
];

/// A tree that ends at the bound, before its last node.
pub(crate) const BOUNDED_TREE: [Step; 3] = [
    Step(0, Submit(Tree, 20, Roomy), Job(1)),
    Step(
        0,
        Turn(1, 20),
        Ran(4, Shown(1, Closed, 4, 0, Some(5), Optimal)),
    ),
    Step(0, Ledger, Books([100, 96, 0, 4])),
];

/// Trees that close in one turn.
pub(crate) const WHOLE_TREES: [Step; 4] = [
    Step(0, Submit(Tree, 10, Diamond), Job(1)),
    Step(
        0,
        Turn(1, 10),
        Ran(9, Shown(1, Closed, 9, 0, Some(4), Optimal)),
    ),
    Step(0, Submit(Tree, 20, Shared), Job(2)),
    Step(
        0,
        Turn(2, 20),
        Ran(8, Shown(2, Closed, 8, 0, Some(7), Optimal)),
    ),
];

/// Each answered command uses one of three entries of the journal.
pub(crate) const THREE_COMMANDS: [Step; 4] = [
    Step(0, Submit(Tree, 6, Diamond), Job(1)),
    Step(0, Fund(1, 4), Told(Shown(1, Waiting, 0, 10, None, Going))),
    Step(0, Cancel(1), Told(Shown(1, Cancelled, 0, 0, None, Going))),
    Step(0, Forget(1), NoRoom),
];

/// Each refused command uses one too.
pub(crate) const THREE_REFUSALS: [Step; 4] = [
    Step(0, Cancel(9), NoUnknown),
    Step(0, Fund(9, 0), NoUnknown),
    Step(0, Submit(Tree, 0, Diamond), NoAmount),
    Step(0, Submit(Tree, 6, Diamond), NoRoom),
];
