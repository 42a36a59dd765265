//! Two tenants of one purse, and a third one.
use crate::calls::Call::{Cancel, Give, Ledger, Status, Submit, Take};
use crate::calls::CallAnswer::{Books, Job, NoShort, NoUnknown, Ran, Told};
use crate::calls::Shown;
use crate::fixtures::Text::Diamond;
use crate::fixtures::{Planned, Purses, THREE, all_planned, farm_with};
use crate::play::{Manner, Stage, Step, play_all, submits_of};
use farm_core::Farm;
use job_table::Phase::{Cancelled, Out, Waiting};
use std::alloc::Global;
use std::process::Abort;
use strategy::Kind::Tree;
use strategy::Strategy;
use strategy::Verdict::Going;

/// a and b share 10 quanta, of which a brings 6. a holds 8: b sees that in the ledger, may have the
/// 2 that are free, and sees no job. Then a's job uses 4 and hands back 4, so that b may hold 6.
const STEPS: [Step; 13] = [
    Step(0, Submit(Tree, 8, Diamond), Job(1)),
    Step(1, Ledger, Books([10, 2, 8, 0])),
    Step(1, Submit(Tree, 3, Diamond), NoShort(2)),
    Step(1, Status(1), NoUnknown),
    Step(0, Take(1, 4), Told(Shown(1, Out(4), 0, 8, None, Going))),
    Step(0, Give, Ran(4, Shown(1, Waiting, 4, 4, Some(5), Going))),
    Step(1, Ledger, Books([10, 2, 4, 4])),
    Step(
        0,
        Cancel(1),
        Told(Shown(1, Cancelled, 4, 0, Some(5), Going)),
    ),
    Step(1, Ledger, Books([10, 6, 0, 4])),
    Step(1, Submit(Tree, 6, Diamond), Job(1)),
    Step(1, Status(1), Told(Shown(1, Waiting, 0, 6, None, Going))),
    Step(0, Ledger, Books([10, 0, 6, 4])),
    Step(2, Ledger, Books([10, 10, 0, 0])),
];

fn is_in<J>(farm: &Farm<J>, tenant: u32, purse: u32) -> bool {
    tenant < farm.tenants() && farm.purse_of(tenant) == purse
}

fn play_shared<J: Strategy>(rt: &impl Abort, alloc: Global, ready: Vec<Planned<J>>) {
    let mut farm = farm_with(rt, alloc, &THREE);
    assert!(rt; farm.tenants() == 3 && farm.purses() == 2);
    assert!(rt; is_in(&farm, 0, 0) && is_in(&farm, 1, 0) && is_in(&farm, 2, 1));
    let stage = Stage {
        name: "a shared purse",
        entries: 100,
        manner: Manner::Ample,
    };
    play_all(rt, &mut farm, ready, stage, &STEPS);
}

// In the end b's job hands back its 6, and a's 4 stay spent.
#[test]
fn two_tenants_of_one_purse(rt: HostRuntime) {
    let mut purses = Purses::shared(&rt, rt.alloc());
    let submits = submits_of(rt.alloc(), Manner::Ample, &STEPS).expect(
        &rt,
        "no memory for the submits",
    );
    let ready = all_planned(&rt, rt.alloc(), &mut purses, &submits);
    play_shared(&rt, rt.alloc(), ready);
    assert!(rt; purses.words() == [[6, 4, 10], [10, 0, 10]]);
}
