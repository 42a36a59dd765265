//! A partial schedule of the tree: starts never fall from placement to placement.
ghost use Rattle.std.specs.Prelude.{◌≡◌, ℕ, ◌+◌, ◌*◌, ◌<◌, ◌≤◌, ◌==◌, [], ◌∷◌, ◌++◌, ◌%◌, true, false, IsTrue, IsFalse, IfOk, MatchOption, All, get_or, length, max, nat_le, replicate};
ghost use Rattle.std.specs.List.{list_any};
ghost use Rattle.mrcpsp.specs.Limits.{IsProject};
ghost use Rattle.mrcpsp.specs.Project.{ProjectData, size, mode_count, duration, stock, capacity};
ghost use Rattle.mrcpsp.specs.Placed.{Placed, are_ready, latest, last_start, is_allowed, earliest, is_eligible, is_executable};
ghost use Rattle.mrcpsp.specs.Values.{tail};
ghost use Rattle.measures.specs.Measures.{measures_of};
ghost use Rattle.strategy.specs.Candidate.{is_allowed_mode};
ghost use Rattle.serial_sgs.specs.Board.{needed_of};
ghost use Rattle.serial_sgs.specs.Members.{has};
ghost use Rattle.serial_sgs.specs.Order.{HasBefore, IsLatest};
ghost use Rattle.serial_sgs.specs.Rows.{IsTable};
ghost use Rattle.tree_search.specs.Front.{AreNone};
ghost use Rattle.tree_search.specs.Table.{IsLines};
ghost use Rattle.tree_search.specs.Width.{HasWidth, IsNone};
ghost use Rattle.tree_search.specs.declared.width.Width.TheVariants.{Small};
ghost use Rattle.tree_search.specs.Path.{AreDone, AreHopeless, AreReached, HasEntered, IsCovered, IsFirstHopeful, IsFirstStage, IsTaken, triangle};

use crate::amounts::{copy_lanes, is_covered, take_off};
use crate::front::{Running, Span, earliest, run_in};
use crate::table::{NEVER, Row, Table};
use crate::width::Width;
use measures::Measures;
use mrcpsp::{
    MOST_ACTIVITIES, MOST_DURATION, MOST_MODES, MOST_RESOURCES, MOST_START, Project, Sequence,
};
use serial_sgs::Placement;
use serial_sgs::amounts::Amounts;
use serial_sgs::members::{next_in, put_in, take_out};
use serial_sgs::order::{predecessors, successors};
use serial_sgs::rows::Rows;
use serial_sgs::stock::needed_first;
use serial_sgs::sums::latest_finish;
use std::alloc::{AllocError, Global};
use std::marker::Model;

/// A `Stage` is what is known after some placements. It is written once when the last of them is
/// made, and nothing of it is undone.
#[derive(Clone, Copy)]
pub(crate) struct Stage {
    /// Each stock less its need, modulo 2^32.
    slack: Amounts,
    /// What is free at the last start.
    free: Amounts,
    eligible: [u64; 4],
    /// The list of running activities: from this place on, before `end`.
    begin: usize,
    end: usize,
    /// The last start, 0 if nothing is placed.
    from: u32,
}

impl Stage {
    ghost use Rattle.tree_search.specs.Path.{IsBlank};

    /// Overwrites all of the stage. What the width leaves out is 0 in both.
    #[inline(always)]
    fn overwrite(&mut self, new: &Stage, width: Width)
        requires { (p : ProjectData) × HasWidth p width × IsBlank p self.old × IsBlank p new.now }
        ensures slack { self.new.slack ≡ new.now.slack }
        ensures free { self.new.free ≡ new.now.free }
        ensures eligible { (j : ℕ) → has self.new.eligible j ≡ has new.now.eligible j }
        ensures begin { self.new.begin ≡ new.now.begin }
        ensures end { self.new.end ≡ new.now.end }
        ensures from { self.new.from ≡ new.now.from }
    {
        let lanes = width.lanes();
        copy_lanes(&mut self.slack, &new.slack, lanes);
        copy_lanes(&mut self.free, &new.free, lanes);
        copy_words(&mut self.eligible, &new.eligible, width.words());
        self.begin = new.begin;
        self.end = new.end;
        self.from = new.from;
    }
}

/// A `Path` is a partial schedule whose starts never fall (Sprecher and Drexl 1998). Contracts see
/// its project and the list of its placed activities, the last one at the end.
#[derive(Drop)]
pub(crate) struct Path {
    project: Project,
    table: Table,
    before: Vec<Sequence<u32>>,
    after: Vec<Sequence<u32>>,
    placed: Vec<Placement>,
    stages: Vec<Stage>,
    running: Vec<Running>,
    finishes: Vec<u32>,
    readies: Vec<u32>,
}

impl Model for Path {
    ghost use Rattle.std.specs.Vec.{vec_capacity};
    ghost use Rattle.serial_sgs.specs.Board.{BoardData};
    ghost use Rattle.tree_search.specs.Path.{IsPath};

    ghost Value = { BoardData };

    ghost view = { λ b. record { project = b.project; placed = b.placed.items } };

    ghost invariant = { λ b.
        IsPath b.project b.placed.items (vec_capacity b.placed) b.table b.before.items b.after.items b.stages.items
        b.running.items b.finishes.items b.readies.items };
}

fn filled(alloc: Global, number: u32, size: usize) -> Result<Vec<u32>, AllocError>
    ensures { IfOk result (λ list. list.items ≡ replicate size number) }
{
    Ok(vec![in alloc; number; size]?)
}

/// A stage for each number of placements, all as `first`.
fn stages_of(alloc: Global, first: Stage, count: usize) -> Result<Vec<Stage>, AllocError>
    ensures { IfOk result (λ stages. stages.items ≡ replicate count first) }
{
    Ok(vec![in alloc; first; count]?)
}

/// The places of all lists of running activities.
fn places_of_lists(size: usize) -> usize
    requires { size ≤ 202 }
    ensures { result ≡ triangle size }
{
    let mut places = 0;
    for list in 0..size {
        places += list + 1;
    }
    places
}

/// Memory for all lists of running activities.
fn memory_of_lists(alloc: Global, size: usize) -> Result<Vec<Running>, AllocError>
    requires { size ≤ 202 }
    ensures count { IfOk result (λ running. length running.items ≡ triangle size) }
    ensures none { IfOk result (λ running. AreNone 0 running.items) }
{
    let none = Running {
        request: [0; MOST_RESOURCES],
        finish: NEVER,
    };
    Ok(vec![in alloc; none; places_of_lists(size)]?)
}

/// Who may come first: the activities without predecessors.
fn first_eligible(before: &[Sequence<u32>]) -> [u64; 4]
    requires { length before.now ≤ 256 }
    ensures exact { (j : ℕ) → j < length before.now
        → has result j ≡ (length (get_or before.now j []) == 0) }
    ensures others { (j : ℕ) → length before.now ≤ j → j < 256 → has result j ≡ false }
{
    let mut eligible = [0; 4];
    for activity in 0..before.len() {
        if before[activity].as_slice().is_empty() {
            put_in(&mut eligible, activity);
        }
    }
    eligible
}

fn first_stage(project: &Project, measures: &Measures, rows: &Rows, eligible: [u64; 4]) -> Stage
    requires project { IsProject project.now }
    requires measured { measures.now ≡ measures_of project.now }
    requires tabled { IsTable project.now rows.now }
    ensures { IsFirstStage project.now eligible result }
{
    let mut slack = rows.stocks;
    take_off(&mut slack, &needed_first(project, measures), MOST_RESOURCES);
    Stage {
        slack,
        free: rows.capacities,
        eligible,
        begin: 0,
        end: 0,
        from: 0,
    }
}

/// A `Begun` is the rows of all modes, and the stage before any placement.
#[derive(Drop)]
struct Begun {
    table: Table,
    stage: Stage,
}

/// Keeps no other memory.
fn make_begun(
    alloc: Global,
    project: &Project,
    measures: &Measures,
    eligible: [u64; 4],
) -> Result<Begun, AllocError>
    requires project { IsProject project.now }
    requires measured { measures.now ≡ measures_of project.now }
    ensures { IfOk result (λ made. IsLines project.now made.table × IsFirstStage project.now eligible made.stage) }
{
    let rows = Rows::of(alloc, project, measures)?;
    let table = Table::of(alloc, project, &rows, measures)?;
    let stage = first_stage(project, measures, &rows, eligible);
    Ok(Begun { table, stage })
}

/// Whether a mode takes `limit` or longer with its tail, or exceeds what is left of a stock.
#[inline(always)]
fn is_hopeless(row: &Row, slack: &Amounts, limit: u32, lanes: usize) -> bool
    requires lanes { lanes ≤ MOST_RESOURCES }
    requires none { IsNone lanes row.now.extra }
    requires beyond { IsNone lanes slack.now }
    ensures hopeless { IsTrue result → row.now.reach < limit → IsCovered row.now.extra slack.now → ⊥ }
    ensures short { IsFalse result → row.now.reach < limit }
    ensures covered { IsFalse result → IsCovered row.now.extra slack.now }
{
    limit <= row.reach || !is_covered(&row.extra, slack, lanes)
}

/// The latest finish of the activities in `before`, `NEVER` if one of them is not placed. The last
/// one is the likeliest not to be, and is looked at first.
#[inline(always)]
fn latest_done(before: &[u32], finishes: &[u32]) -> u32
    requires some { 0 < length before.now }
    requires named { (k : ℕ) → k < length before.now → get_or before.now k 0 < length finishes.now }
    ensures latest { result < NEVER → IsLatest before.now finishes.now result }
    ensures done { result < NEVER → AreDone before.now finishes.now }
    ensures undone { NEVER ≤ result → AreDone before.now finishes.now → ⊥ }
{
    let last = before.len() - 1;
    let mut latest = finishes[before[last] as usize];
    if latest == NEVER {
        return NEVER;
    }
    for place in 0..last {
        let finish = finishes[before[place] as usize];
        if finish == NEVER {
            return NEVER;
        }
        latest = latest.max(finish);
    }
    latest
}

/// Copies the first `count` words. The others have the same members.
#[inline(always)]
fn copy_words(words: &mut [u64; 4], new: &[u64; 4], count: usize)
    requires count { count ≤ 4 }
    requires rest { (j : ℕ) → 64 * count ≤ j → j < 256 → has words.old j ≡ has new.now j }
    ensures { (j : ℕ) → has words.new j ≡ has new.now j }
{
    for word in 0..count {
        words[word] = new[word];
    }
}

/// Lets each activity in `after` come next whose predecessors are all placed. It is ready at the
/// latest of their finishes.
#[inline(always)]
fn enlist(
    eligible: &mut [u64; 4],
    readies: &mut Vec<u32>,
    after: &[u32],
    before: &[Sequence<u32>],
    finishes: &[u32],
    width: Width,
)
    requires words { width ≡ Small → length readies.old.items ≤ 64 }
    requires inside { All (λ s. s < length readies.old.items) after.now }
    requires few { length readies.old.items ≤ 256 }
    requires listed { length before.now ≡ length readies.old.items }
    requires reached { AreReached before.now after.now }
    requires named { (j k : ℕ) → j < length before.now → k < length (get_or before.now j [])
        → get_or (get_or before.now j []) k 0 < length finishes.now }
    ensures { HasEntered after.now before.now finishes.now eligible.old readies.old.items eligible.new
        readies.new.items }
{
    for other in after {
        let activity = *other as usize;
        let latest = latest_done(before[activity].as_slice(), finishes);
        if latest < NEVER {
            readies[activity] = latest;
            put_in(eligible, width.short(activity));
        }
    }
}

impl Path {
    ghost use Rattle.serial_sgs.specs.Board.{IsBoard, IsNextEligible, NoneEligible};

    /// Nothing is placed. It copies the project and takes all memory here: no other call takes any.
    pub(crate) fn of(
        alloc: Global,
        project: &Project,
        measures: &Measures,
    ) -> Result<Path, AllocError>
        requires { measures.now ≡ measures_of project.now }
        ensures { IfOk result (λ path. path ≡ record { project = project.now; placed = [] }) }
    {
        let size = project.activities().len();
        let before = predecessors(alloc, project)?;
        let begun = make_begun(alloc, project, measures, first_eligible(&before))?;
        let stage = begun.stage;
        let placed = Vec::with_capacity(alloc, size)?;
        let after = successors(alloc, project)?;
        let stages = stages_of(alloc, stage, size + 1)?;
        let running = memory_of_lists(alloc, size)?;
        let finishes = filled(alloc, NEVER, size)?;
        let readies = filled(alloc, 0, size)?;
        let project = project.clone_in(alloc)?;
        Ok(Path {
            project,
            table: begun.table,
            before,
            after,
            placed,
            stages,
            running,
            finishes,
            readies,
        })
    }

    /// In the order in which they were placed.
    pub(crate) fn placed(&self) -> &[Placement]
        ensures all { result.now ≡ self.now.placed }
        ensures board { IsBoard self.now }
    {
        self.placed.as_slice()
    }

    /// The number of placed activities.
    #[inline(always)]
    pub(crate) fn count(&self) -> usize
        ensures exact { result ≡ length self.now.placed }
        ensures few { result ≤ size self.now.project }
    {
        self.placed.len()
    }

    #[inline(always)]
    pub(crate) fn size(&self) -> usize
        ensures exact { result ≡ size self.now.project }
        ensures some { 0 < result }
    {
        self.finishes.len()
    }

    #[inline(always)]
    pub(crate) fn mode_count(&self, activity: usize) -> usize
        requires { activity < size self.now.project }
        ensures exact { result ≡ mode_count self.now.project activity }
        ensures some { 0 < result }
        ensures few { result ≤ MOST_MODES }
        ensures inside { activity < MOST_ACTIVITIES }
    {
        self.table.count(activity)
    }

    /// The duration of an executable mode with the activity's tail.
    #[inline(always)]
    pub(crate) fn reach(&self, activity: usize, mode: usize) -> u32
        requires activity { activity < size self.now.project }
        requires mode { mode < mode_count self.now.project activity }
        requires executable { IsTrue (is_executable self.now.project activity mode) }
        ensures exact { result ≡ duration self.now.project activity mode + tail self.now.project activity }
        ensures most { result ≤ 203000 }
    {
        self.table.row(activity, mode).reach
    }

    /// The first eligible activity from `from` on.
    #[inline(always)]
    pub(crate) fn next_eligible(&self, from: usize, width: Width) -> Option<usize>
        requires from { from ≤ size self.now.project }
        requires width { HasWidth self.now.project width }
        ensures { MatchOption result (NoneEligible self.now.project self.now.placed from)
            (IsNextEligible self.now.project self.now.placed from) }
    {
        next_in(
            &self.stages[self.placed.len()].eligible,
            width.short(from),
            width.short(self.finishes.len()),
        )
    }

    /// The first of the modes from `from` on, before `end`, that is allowed and takes less than
    /// `limit` with its tail.
    #[inline(always)]
    pub(crate) fn first_hopeful(
        &self,
        activity: usize,
        from: usize,
        end: usize,
        limit: u32,
        width: Width,
    ) -> Option<usize>
        requires width { HasWidth self.now.project width }
        requires activity { activity < size self.now.project }
        requires order { from < end }
        requires within { end ≤ mode_count self.now.project activity }
        requires eligible { IsTrue (is_eligible self.now.project self.now.placed activity) }
        ensures { MatchOption result
            (AreHopeless self.now.project self.now.placed activity limit from end)
            (IsFirstHopeful self.now.project self.now.placed activity limit from end) }
    {
        let rows = self.table.modes(activity, from, end);
        let slack = self.stages[self.placed.len()].slack;
        let mut at = 0;
        loop {
            if !is_hopeless(&rows[at], &slack, limit, width.lanes()) {
                return Some(from + at);
            }
            at += 1;
            if at == rows.len() {
                return None;
            }
        }
    }

    /// The first period, the last start or later, by which all predecessors of an eligible activity
    /// have finished.
    #[inline(always)]
    pub(crate) fn ready(&self, activity: usize) -> u32
        requires activity { activity < size self.now.project }
        requires eligible { IsTrue (is_eligible self.now.project self.now.placed activity) }
        ensures above { last_start self.now.placed ≤ result }
        ensures exact { (t : ℕ) → last_start self.now.placed ≤ t
            → are_ready self.now.project self.now.placed activity t ≡ nat_le result t }
        ensures board { IsBoard self.now }
        ensures most { result ≤ MOST_START + MOST_DURATION }
    {
        self.stages[self.placed.len()]
            .from
            .max(self.readies[activity])
    }

    /// The least start from the last one on at which the activity may be placed in `mode`: its
    /// predecessors have finished, and no renewable capacity is exceeded.
    #[inline(always)]
    pub(crate) fn earliest_last(&self, activity: usize, mode: usize, width: Width) -> u32
        requires width { HasWidth self.now.project width }
        requires activity { activity < size self.now.project }
        requires mode { mode < mode_count self.now.project activity }
        requires executable { IsTrue (is_executable self.now.project activity mode) }
        requires eligible { IsTrue (is_eligible self.now.project self.now.placed activity) }
        ensures exact { result ≡ earliest self.now.project self.now.placed activity mode (last_start self.now.placed) }
        ensures allowed { IsTrue (is_allowed self.now.project self.now.placed activity mode result) }
        ensures within { result ≤ max (last_start self.now.placed) (latest self.now.project self.now.placed) }
        ensures board { IsBoard self.now }
    {
        let ready = self.ready(activity);
        let row = self.table.row(activity, mode);
        let stage = &self.stages[self.placed.len()];
        earliest(
            &stage.free,
            &self.running[stage.begin..stage.end],
            &row.request,
            ready,
            width.lanes(),
        )
    }

    /// Places the activity behind all others. Takes no memory.
    #[inline(always)]
    pub(crate) fn place(&mut self, activity: usize, mode: usize, start: u32, width: Width)
        requires width { HasWidth self.old.project width }
        requires activity { activity < size self.old.project }
        requires mode { mode < mode_count self.old.project activity }
        requires eligible { IsTrue (is_eligible self.old.project self.old.placed activity) }
        requires allowed { IsTrue (is_allowed self.old.project self.old.placed activity mode start) }
        requires start { start ≤ MOST_START }
        requires last { last_start self.old.placed ≤ start }
        ensures { self.new ≡ record self.old {
          placed = self.old.placed ++ record { activity = activity; mode = mode; start = start } ∷ [];
        } }
    {
        let row = self.table.row(activity, mode);
        let finish = start + row.duration;
        self.finishes[activity] = finish;
        let depth = self.placed.len();
        let stage = &self.stages[depth];
        let mut eligible = stage.eligible;
        let mut slack = stage.slack;
        let mut free = stage.free;
        let (begin, end) = (stage.begin, stage.end);
        let span = Span { begin, end };
        let lanes = width.lanes();
        take_out(&mut eligible, width.short(activity));
        enlist(
            &mut eligible,
            &mut self.readies,
            self.after[activity].as_slice(),
            &self.before,
            &self.finishes,
            width,
        );
        take_off(&mut slack, &row.extra, lanes);
        let new = Running {
            request: row.request,
            finish,
        };
        let end = run_in(&mut self.running, span, &mut free, new, start, lanes);
        let later = Stage {
            slack,
            free,
            eligible,
            begin: span.end,
            end,
            from: start,
        };
        self.stages[depth + 1].overwrite(&later, width);
        self.placed.push_reserved(Placement {
            activity,
            mode,
            start,
        });
    }

    /// Takes the last activity away, and returns its placement. Gives back no memory.
    #[inline(always)]
    pub(crate) fn unplace_last(&mut self) -> Option<Placement>
        ensures project { self.new.project ≡ self.old.project }
        ensures placed { MatchOption result (self.new ≡ self.old × (self.old.placed ≡ []))
            (λ last. (self.old.placed ≡ self.new.placed ++ last ∷ []) × IsTaken self.new.project self.new.placed last) }
    {
        let Some(last) = self.placed.pop() else {
            return None;
        };
        self.finishes[last.activity] = NEVER;
        Some(last)
    }

    /// The latest finish of the placed activities, 0 if there are none.
    pub(crate) fn makespan(&self) -> u32
        ensures exact { result ≡ latest self.now.project self.now.placed }
        ensures most { result ≤ MOST_START + MOST_DURATION }
    {
        latest_finish(&self.project, &self.placed)
    }
}
