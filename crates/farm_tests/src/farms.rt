//! Worked scripts, the journal, two tenants, strangers, and turns.
use crate::cancels;
use crate::fixtures::{Planned, Purse, Text, Wanted, farm_of, planned_for};
use crate::mixed::{Coin, in_turn, mixed};
use crate::play::{Manner, Noted, Stage, Step, play};
use crate::scripts::{
    ABANDONED, BOUNDED_TREE, CANCEL_WHILE_OUT, CHAIN_RULE, CHAIN_SAMPLE, DRY_RULE, FEW_ENTRIES,
    LONE_TREE, OTHER, REFUSALS, RULE_IN_TURNS, RULE_LFT, RULE_MTS, RULE_SPT, SAMPLE,
    SAMPLE_OF_SHARED, STARVED_RULE, STARVED_TREE, THREE_COMMANDS, THREE_REFUSALS, TREE, WHILE_OUT,
    WHOLE_TREES,
};
use crate::strangers::{exchange, stray, take_any, take_turns};
use std::alloc::Global;
use std::process::Abort;
use strategy::{Kind, Strategy};

/// A stage with memory and entries enough.
fn ample(name: &'static str) -> Stage {
    Stage {
        name,
        entries: 100,
        manner: Manner::Ample,
    }
}

/// The words of both tills if a has spent `spent` of its 100 quanta, and b nothing.
fn after(spent: u64) -> [[u64; 3]; 2] {
    [[100u64.saturating_sub(spent), spent, 100], [10, 0, 10]]
}

/// `spent` is what a's script spends.
fn ends(rt: &impl Abort, alloc: Global, name: &'static str, steps: &[Step], spent: u64) {
    play(rt, alloc, ample(name), steps, [None, None], after(spent));
}

/// Is `ends` for a journal of three entries.
fn fills(rt: &impl Abort, alloc: Global, name: &'static str, steps: &[Step], spent: u64) {
    let stage = Stage {
        entries: 3,
        ..ample(name)
    };
    play(rt, alloc, stage, steps, [None, None], after(spent));
}

fn end_trees(rt: &impl Abort, alloc: Global) {
    ends(rt, alloc, "a tree", &TREE, 9);
    ends(rt, alloc, "whole trees", &WHOLE_TREES, 17);
    ends(rt, alloc, "a tree to the bound", &BOUNDED_TREE, 4);
    ends(rt, alloc, "a tree of nothing feasible", &STARVED_TREE, 1);
    ends(rt, alloc, "one activity", &LONE_TREE, 1);
}

fn end_rules(rt: &impl Abort, alloc: Global) {
    ends(rt, alloc, "rule spt", &RULE_SPT, 4);
    ends(rt, alloc, "rule lft", &RULE_LFT, 4);
    ends(rt, alloc, "rule mts", &RULE_MTS, 4);
    ends(rt, alloc, "a rule in turns", &RULE_IN_TURNS, 4);
    ends(rt, alloc, "a dry rule", &DRY_RULE, 2);
    ends(rt, alloc, "a chain", &CHAIN_RULE, 3);
    ends(rt, alloc, "a rule of nothing feasible", &STARVED_RULE, 4);
}

fn end_samples(rt: &impl Abort, alloc: Global) {
    ends(rt, alloc, "a sample of a chain", &CHAIN_SAMPLE, 3);
    ends(rt, alloc, "a sample", &SAMPLE, 4);
    ends(rt, alloc, "a sample elsewhere", &SAMPLE_OF_SHARED, 4);
}

#[test]
fn worked_scripts(rt: HostRuntime) {
    end_trees(&rt, rt.alloc());
    end_rules(&rt, rt.alloc());
    end_samples(&rt, rt.alloc());
    fills(&rt, rt.alloc(), "three entries", &FEW_ENTRIES, 2);
    fills(&rt, rt.alloc(), "three commands", &THREE_COMMANDS, 0);
    fills(&rt, rt.alloc(), "three refusals", &THREE_REFUSALS, 0);
}

fn end_cancels(rt: &impl Abort, alloc: Global) {
    ends(rt, alloc, "a fresh job", &cancels::FRESH, 0);
    ends(rt, alloc, "a job after a turn", &cancels::BEGUN, 2);
    ends(rt, alloc, "a job that is out", &cancels::OUT, 2);
    ends(rt, alloc, "a turn given back unrun", &cancels::OUT_UNRUN, 0);
    ends(rt, alloc, "a dry job", &cancels::DRY, 6);
    ends(rt, alloc, "a closed job", &cancels::CLOSED, 9);
    ends(rt, alloc, "a leaving job", &cancels::LEAVING, 2);
    ends(rt, alloc, "a cancelled job", &cancels::GIVEN_UP, 0);
}

#[test]
fn refusals_cancels_and_turns_that_are_out(rt: HostRuntime) {
    ends(&rt, rt.alloc(), "each refusal", &REFUSALS, 4);
    ends(&rt, rt.alloc(), "a cancel while out", &CANCEL_WHILE_OUT, 2);
    ends(&rt, rt.alloc(), "while out", &WHILE_OUT, 0);
    ends(&rt, rt.alloc(), "an abandoned turn", &ABANDONED, 2);
    end_cancels(&rt, rt.alloc());
}

const NOTED_OF_TREE: [Noted; 8] = [
    Noted::Submit(Kind::Tree, 6),
    Noted::Take(1, 10),
    Noted::Give(1, 6),
    Noted::Fund(1, 10),
    Noted::Take(1, 10),
    Noted::Give(1, 3),
    Noted::Fetch(1),
    Noted::Ledger,
];

const NOTED_OF_CANCEL: [Noted; 7] = [
    Noted::Submit(Kind::Tree, 6),
    Noted::Take(1, 2),
    Noted::Cancel(1),
    Noted::Ledger,
    Noted::Give(1, 2),
    Noted::Ledger,
    Noted::Cancel(1),
];

/// With the refused commands but the ones answered 'no room', and without refused turns.
const NOTED_OF_REFUSALS: [Noted; 16] = [
    Noted::Submit(Kind::Tree, 101),
    Noted::Submit(Kind::Tree, 0),
    Noted::Submit(Kind::RuleSpt, 10),
    Noted::Take(1, 10),
    Noted::Give(1, 4),
    Noted::Submit(Kind::Tree, 6),
    Noted::Submit(Kind::Tree, 1),
    Noted::Fund(1, 1),
    Noted::Forget(1),
    Noted::Submit(Kind::Tree, 1),
    Noted::Status(1),
    Noted::Fund(4_294_967_298, 0),
    Noted::Fund(2, 0),
    Noted::Fund(2, 90),
    Noted::Forget(2),
    Noted::Ledger,
];

/// a has 100 entries, and `spent` is what its script spends. b's journal is empty.
fn leaves(
    rt: &impl Abort,
    alloc: Global,
    (name, manner): (&'static str, Manner),
    steps: &[Step],
    entries: &[Noted],
    spent: u64,
) {
    let stage = Stage {
        manner,
        ..ample(name)
    };
    let journals = [Some(entries), Some(&[])];
    play(rt, alloc, stage, steps, journals, after(spent));
}

fn note_down(rt: &impl Abort, alloc: Global, manner: Manner) {
    leaves(rt, alloc, ("a tree", manner), &TREE, &NOTED_OF_TREE, 9);
    let cancel = ("a cancel while out", manner);
    leaves(rt, alloc, cancel, &CANCEL_WHILE_OUT, &NOTED_OF_CANCEL, 2);
    let refusals = ("each refusal", manner);
    leaves(rt, alloc, refusals, &REFUSALS, &NOTED_OF_REFUSALS, 4);
}

#[test]
fn the_journal(rt: HostRuntime) {
    note_down(&rt, rt.alloc(), Manner::Ample);
}

#[test]
fn scarce_memory(rt: HostRuntime) {
    note_down(&rt, rt.alloc(), Manner::Scarce);
}

/// The turn that is held in the end is given back as it is.
const NOTED_OF_OTHER: [Noted; 8] = [
    Noted::Submit(Kind::Tree, 6),
    Noted::Take(1, 4),
    Noted::Give(1, 4),
    Noted::Cancel(1),
    Noted::Ledger,
    Noted::Submit(Kind::RuleSpt, 5),
    Noted::Take(2, 3),
    Noted::Give(2, 0),
];

/// Mixes two tenants' scripts in twenty ways, and compares both journals and both tills.
fn play_mixed(
    rt: &impl Abort,
    alloc: Global,
    stage: Stage,
    one: &[Step],
    other: &[Step],
    journals: [Option<&[Noted]>; 2],
    words: [u64; 3],
) {
    let mut coin = Coin::new(42);
    for _ in 0..20 {
        let steps = mixed(alloc, &mut coin, one, other).expect(rt, "no memory for the steps");
        assert!(rt; steps.len() == one.len().saturating_add(other.len()));
        play(rt, alloc, stage, &steps, journals, [words, [6, 4, 10]]);
    }
}

#[test]
fn a_funded_tree_beside_another_tenant(rt: HostRuntime) {
    let journals: [Option<&[Noted]>; 2] = [Some(&NOTED_OF_TREE), Some(&NOTED_OF_OTHER)];
    let stage = ample("a tree beside b");
    play_mixed(
        &rt,
        rt.alloc(),
        stage,
        &TREE,
        &OTHER,
        journals,
        [91, 9, 100],
    );
}

#[test]
fn a_cancelled_tree_beside_another_tenant(rt: HostRuntime) {
    let journals: [Option<&[Noted]>; 2] = [Some(&NOTED_OF_CANCEL), Some(&NOTED_OF_OTHER[..6])];
    let stage = ample("a cancel beside b");
    let other = &OTHER[..5];
    play_mixed(
        &rt,
        rt.alloc(),
        stage,
        &CANCEL_WHILE_OUT,
        other,
        journals,
        [98, 2, 100],
    );
}

#[test]
fn refusals_beside_another_tenant(rt: HostRuntime) {
    let journals: [Option<&[Noted]>; 2] = [Some(&NOTED_OF_REFUSALS), Some(&NOTED_OF_OTHER)];
    let stage = ample("refusals beside b");
    play_mixed(
        &rt,
        rt.alloc(),
        stage,
        &REFUSALS,
        &OTHER,
        journals,
        [96, 4, 100],
    );
}

#[test]
fn two_tenants_in_turn(rt: HostRuntime) {
    let stage = ample("two tenants in turn");
    let steps = in_turn(rt.alloc(), &TREE, &OTHER).expect(&rt, "no memory for the steps");
    assert!(rt; steps.len() == 12);
    let journals: [Option<&[Noted]>; 2] = [Some(&NOTED_OF_TREE), Some(&NOTED_OF_OTHER)];
    play(
        &rt,
        rt.alloc(),
        stage,
        &steps,
        journals,
        [[91, 9, 100], [6, 4, 10]],
    );
}

fn tree_of(rt: &impl Abort, alloc: Global, tenant: u32, text: Text) -> Planned<Box<dyn Strategy>> {
    let mut purse = Purse::new(alloc, tenant, 100).expect(rt, "no memory for a till");
    let lease = purse.lease(tenant).expect(rt, "no memory for a lease");
    let kind = Kind::Tree;
    planned_for(rt, alloc, lease, Wanted { tenant, kind, text })
}

/// A turn of one farm at another one, with a tree of `text` and a turn of at most `slice`.
fn stray_at(rt: &impl Abort, alloc: Global, text: Text, slice: u64) {
    let own = tree_of(rt, alloc, 0, Text::Diamond);
    let other = tree_of(rt, alloc, 0, text);
    let (mut home, mut farm) = (farm_of(rt, alloc, 100), farm_of(rt, alloc, 100));
    stray(rt, &mut home, &mut farm, own, other, slice);
}

#[test]
fn strangers_are_handed_back(rt: HostRuntime) {
    for (text, slice) in [(Text::Chain, 2), (Text::Starved, 2), (Text::Diamond, 3)] {
        stray_at(&rt, rt.alloc(), text, slice);
    }
}

#[test]
fn turns_that_agree_in_all(rt: HostRuntime) {
    let own = tree_of(&rt, rt.alloc(), 0, Text::Diamond);
    let other = tree_of(&rt, rt.alloc(), 0, Text::Diamond);
    let (mut home, mut farm) = (farm_of(&rt, rt.alloc(), 100), farm_of(&rt, rt.alloc(), 100));
    exchange(&rt, &mut home, &mut farm, own, other);
}

#[test]
fn the_next_turn_of_any_tenant(rt: HostRuntime) {
    let own = tree_of(&rt, rt.alloc(), 0, Text::Diamond);
    let other = tree_of(&rt, rt.alloc(), 1, Text::Diamond);
    let mut farm = farm_of(&rt, rt.alloc(), 1);
    take_any(&rt, &mut farm, own, other);
}

#[test]
fn jobs_take_turns(rt: HostRuntime) {
    let first = tree_of(&rt, rt.alloc(), 0, Text::Diamond);
    let second = tree_of(&rt, rt.alloc(), 0, Text::Diamond);
    let other = tree_of(&rt, rt.alloc(), 1, Text::Diamond);
    let mut farm = farm_of(&rt, rt.alloc(), 100);
    take_turns(&rt, &mut farm, first, second, other);
}
