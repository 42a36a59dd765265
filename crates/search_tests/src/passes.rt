//! Passes by hand: what may come next, where it is placed, void passes and new ones.
ghost use Rattle.std.specs.Prelude.{◌≡◌};
ghost use Rattle.mrcpsp.specs.Project.{size};
ghost use Rattle.serial_pass.specs.Pass.{HasRoom};

use crate::fixtures::{BLOCKED, DIAMOND, project};
use measures::Measures;
use mrcpsp::Schedule;
use serial_pass::{Candidate, SerialPass};
use std::alloc::Global;
use std::process::Abort;

/// Places the candidate if it is listed, and gives up otherwise.
fn step(pass: &mut SerialPass, activity: usize, mode: usize)
    ensures { pass.new.project ≡ pass.old.project }
{
    let known = activity < pass.project().size();
    if known && pass.eligible().contains(&activity) {
        let modes = pass.allowed_modes(activity);
        if modes.as_slice().contains(&mode) {
            pass.run(Some(Candidate { activity, mode }));
            return;
        }
    }
    pass.run(None);
}

fn shows(rt: &impl Abort, pass: &SerialPass, eligible: &[usize], makespan: Option<u32>) {
    assert!(rt; pass.eligible() == eligible && pass.makespan() == makespan);
    assert!(rt; pass.is_void() == makespan.is_none());
}

fn node(
    rt: &impl Abort,
    pass: &mut SerialPass,
    candidate: (usize, usize),
    eligible: &[usize],
    makespan: Option<u32>,
)
    ensures { pass.new.project ≡ pass.old.project }
{
    step(pass, candidate.0, candidate.1);
    shows(rt, pass, eligible, makespan);
}

/// The diamond with its third activity first, in the second mode.
fn third_first(rt: &impl Abort, pass: &mut SerialPass)
    ensures { pass.new.project ≡ pass.old.project }
{
    node(rt, pass, (0, 0), &[1, 2], Some(0));
    node(rt, pass, (2, 1), &[1], Some(4));
    node(rt, pass, (1, 0), &[3], Some(4));
    node(rt, pass, (3, 0), &[], Some(4));
}

/// The first half of the diamond with its second activity first.
fn second_first(rt: &impl Abort, pass: &mut SerialPass)
    ensures { pass.new.project ≡ pass.old.project }
{
    node(rt, pass, (0, 0), &[1, 2], Some(0));
    node(rt, pass, (1, 0), &[2], Some(3));
}

fn then_third(rt: &impl Abort, pass: &mut SerialPass)
    ensures { pass.new.project ≡ pass.old.project }
{
    node(rt, pass, (2, 0), &[3], Some(5));
    node(rt, pass, (3, 0), &[], Some(5));
}

/// The third activity cannot be placed, and nothing is placed from then on.
fn blocked(rt: &impl Abort, pass: &mut SerialPass)
    ensures { pass.new.project ≡ pass.old.project }
{
    node(rt, pass, (0, 0), &[1, 2], Some(0));
    node(rt, pass, (1, 0), &[2], Some(1));
    node(rt, pass, (2, 0), &[], None);
    node(rt, pass, (1, 0), &[], None);
}

fn made(
    rt: &impl Abort,
    pass: &SerialPass,
    room: Schedule,
    modes: &[u32],
    starts: &[u32],
) -> Schedule
    requires { HasRoom (size pass.now.project) room }
    ensures { HasRoom (size pass.now.project) result }
{
    let made = pass.schedule(room).expect(rt, "no schedule");
    assert!(rt; made.modes.as_slice() == modes && made.starts.as_slice() == starts);
    made
}

fn pass_over(rt: &impl Abort, alloc: Global, text: &str, capacities: &str) -> SerialPass {
    let project = project(rt, alloc, text, capacities);
    let measures = Measures::of(alloc, &project).expect(rt, "no memory for values");
    SerialPass::new(alloc, &project, &measures).expect(rt, "no memory for a pass")
}

fn room_for(rt: &impl Abort, alloc: Global, pass: &SerialPass) -> Schedule
    ensures { HasRoom (size pass.now.project) result }
{
    pass.blank(alloc).expect(rt, "no memory for a schedule")
}

#[test]
fn each_starts_as_early_as_it_may(rt: HostRuntime) {
    let mut pass = pass_over(&rt, rt.alloc(), DIAMOND, "3 1");
    let room = room_for(&rt, rt.alloc(), &pass);
    shows(&rt, &pass, &[0], Some(0));
    third_first(&rt, &mut pass);
    made(&rt, &pass, room, &[1, 1, 2, 1], &[0, 0, 0, 4]);
}

fn anew(rt: &impl Abort, pass: &mut SerialPass)
    ensures { pass.new.project ≡ pass.old.project }
{
    pass.restart();
    shows(rt, pass, &[0], Some(0));
    second_first(rt, pass);
    then_third(rt, pass);
}

/// The first half of the diamond in `room`, and then all of it in the same memory.
fn half_and_whole(rt: &impl Abort, pass: &mut SerialPass, room: Schedule)
    requires { HasRoom (size pass.old.project) room }
{
    second_first(rt, pass);
    let part = made(rt, pass, room, &[1, 1, 1, 1], &[0, 0, 0, 0]);
    anew(rt, pass);
    made(rt, pass, part, &[1, 1, 1, 1], &[0, 0, 3, 5]);
}

#[test]
fn a_new_pass_in_the_memory_of_the_last(rt: HostRuntime) {
    let mut pass = pass_over(&rt, rt.alloc(), DIAMOND, "3 1");
    let room = room_for(&rt, rt.alloc(), &pass);
    half_and_whole(&rt, &mut pass, room);
}

fn allows(rt: &impl Abort, pass: &SerialPass, activity: usize, modes: &[usize]) {
    assert!(rt; activity < pass.project().size());
    assert!(rt; pass.allowed_modes(activity).as_slice() == modes);
}

#[test]
fn modes_within_the_stock(rt: HostRuntime) {
    let table: [(&str, &[usize]); 2] = [("3 1", &[0, 1]), ("3 0", &[1])];
    for (capacities, modes) in table {
        let pass = pass_over(&rt, rt.alloc(), DIAMOND, capacities);
        allows(&rt, &pass, 2, modes);
    }
}

#[test]
fn a_void_pass_stays_void(rt: HostRuntime) {
    let mut pass = pass_over(&rt, rt.alloc(), BLOCKED, "3 1");
    let room = room_for(&rt, rt.alloc(), &pass);
    blocked(&rt, &mut pass);
    let none = pass.schedule(room).is_none();
    assert!(rt; none);
    pass.restart();
    shows(&rt, &pass, &[0], Some(0));
}
