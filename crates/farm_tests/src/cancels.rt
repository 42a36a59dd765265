//! Cancels at every phase.
use crate::calls::Call::{Cancel, Give, GiveUnrun, Submit, Take, Turn};
use crate::calls::CallAnswer::{Job, NoOver, Ran, Told};
use crate::calls::Shown;
use crate::fixtures::Text::Diamond;
use crate::play::Step;
use job_table::Phase::{Cancelled, Closed, Dry, Leaving, Out, Waiting};
use strategy::Kind::Tree;
use strategy::Verdict::{Going, Optimal};

const MADE: Step = Step(0, Submit(Tree, 6, Diamond), Job(1));

const TAKEN: Step = Step(0, Take(1, 2), Told(Shown(1, Out(2), 0, 6, None, Going)));

const LEFT: Step = Step(0, Cancel(1), Told(Shown(1, Leaving(2), 0, 6, None, Going)));

const CANCELLED: Step = Step(0, Cancel(1), Told(Shown(1, Cancelled, 0, 0, None, Going)));

const OVER: Step = Step(0, Cancel(1), NoOver);

const BACK: Step = Step(0, Give, Ran(2, Shown(1, Cancelled, 2, 0, None, Going)));

/// A waiting job that has run no node.
pub(crate) const FRESH: [Step; 2] = [MADE, CANCELLED];

/// A waiting job after a turn.
pub(crate) const BEGUN: [Step; 3] = [
    MADE,
    Step(0, Turn(1, 2), Ran(2, Shown(1, Waiting, 2, 4, None, Going))),
    Step(0, Cancel(1), Told(Shown(1, Cancelled, 2, 0, None, Going))),
];

/// A job that is out; its turn then runs.
pub(crate) const OUT: [Step; 4] = [MADE, TAKEN, LEFT, BACK];

/// A job that is out; its turn is given back as it is.
pub(crate) const OUT_UNRUN: [Step; 4] = [
    MADE,
    TAKEN,
    LEFT,
    Step(0, GiveUnrun, Ran(0, Shown(1, Cancelled, 0, 0, None, Going))),
];

/// A job that has run dry.
pub(crate) const DRY: [Step; 3] = [
    MADE,
    Step(0, Turn(1, 10), Ran(6, Shown(1, Dry, 6, 0, Some(4), Going))),
    Step(
        0,
        Cancel(1),
        Told(Shown(1, Cancelled, 6, 0, Some(4), Going)),
    ),
];

pub(crate) const CLOSED: [Step; 3] = [
    Step(0, Submit(Tree, 10, Diamond), Job(1)),
    Step(
        0,
        Turn(1, 10),
        Ran(9, Shown(1, Closed, 9, 0, Some(4), Optimal)),
    ),
    OVER,
];

pub(crate) const LEAVING: [Step; 5] = [MADE, TAKEN, LEFT, OVER, BACK];

pub(crate) const GIVEN_UP: [Step; 3] = [MADE, CANCELLED, OVER];
