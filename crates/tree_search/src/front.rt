//! What is free from the last start on. Starts never fall along a path, so the use only falls then:
//! what is free, and what each running activity gives back at its finish, is all that an earliest
//! start needs. A level's list of running activities stands behind its parent's.
ghost use Rattle.std.specs.Prelude.{◌≡◌, ℕ, ◌+◌, ◌-◌, ◌<◌, ◌≤◌, cond, nat_lt, drop, take, length, slice_index};
ghost use Rattle.std.specs.List.{slice_range};
ghost use Rattle.tree_search.specs.Width.{IsNone};
ghost use Rattle.tree_search.specs.Front.{AreNone, IsFirstRoom, IsRising, finish_at, left_at, returned};

use crate::amounts::{add, copy_lanes, fits, subtract};
use mrcpsp::MOST_RESOURCES;
use serial_sgs::amounts::{Amounts, MOST_SUM};

/// A `Running` is what a running activity gives back, and when.
#[derive(Clone, Copy)]
pub(crate) struct Running {
    pub(crate) request: Amounts,
    pub(crate) finish: u32,
}

impl Running {
    /// Overwrites all of it. What the lanes leave out is 0 in both.
    #[inline(always)]
    fn overwrite(&mut self, new: &Running, lanes: usize)
        requires lanes { lanes ≤ MOST_RESOURCES }
        requires none { IsNone lanes new.now.request }
        requires beyond { IsNone lanes self.old.request }
        ensures { self.new ≡ new.now }
    {
        let request = new.request;
        copy_lanes(&mut self.request, &request, lanes);
        self.finish = new.finish;
    }
}

/// A `Span` is the places of a list of running activities: from `begin` on, before `end`.
#[derive(Clone, Copy)]
pub(crate) struct Span {
    pub(crate) begin: usize,
    pub(crate) end: usize,
}

/// The least start from `ready` on from which the request fits for ever.
#[inline(always)]
pub(crate) fn earliest(
    free: &Amounts,
    running: &[Running],
    request: &Amounts,
    ready: u32,
    lanes: usize,
) -> u32
    requires lanes { lanes ≤ MOST_RESOURCES }
    requires none { IsNone lanes request.now }
    requires beyond { (r t : ℕ) → lanes ≤ r → r < MOST_RESOURCES → left_at free.now running.now r t ≡ 0 }
    requires rising { IsRising running.now }
    requires small { (r : ℕ) → r < MOST_RESOURCES → slice_index request.now r ≤ MOST_SUM }
    requires few { (r t : ℕ) → r < MOST_RESOURCES → left_at free.now running.now r t ≤ MOST_SUM }
    requires enough { (t : ℕ) × ((r : ℕ) → r < MOST_RESOURCES
        → slice_index request.now r ≤ left_at free.now running.now r t) }
    ensures { IsFirstRoom MOST_RESOURCES free.now running.now request.now ready result }
{
    let mut left = *free;
    let mut start = 0;
    let mut at = 0;
    while !fits(request, &left, lanes) {
        let next = &running[at];
        add(&mut left, &next.request, lanes);
        start = next.finish;
        at += 1;
    }
    ready.max(start)
}

/// Gives back what has finished by `start`. Returns the place of the first that has not.
#[inline(always)]
fn give_back(free: &mut Amounts, running: &[Running], start: u32, lanes: usize) -> usize
    requires lanes { lanes ≤ MOST_RESOURCES }
    requires beyond { (r t : ℕ) → lanes ≤ r → r < MOST_RESOURCES → left_at free.old running.now r t ≡ 0 }
    requires rising { IsRising running.now }
    requires few { (r t : ℕ) → r < MOST_RESOURCES → left_at free.old running.now r t ≤ MOST_SUM }
    ensures inside { result ≤ length running.now }
    ensures beyond { (k : ℕ) → result ≤ k → k < length running.now → start < finish_at running.now k }
    ensures kept { (r t : ℕ) → r < MOST_RESOURCES → start ≤ t
        → left_at free.new (drop result running.now) r t ≡ left_at free.old running.now r t }
{
    let mut at = 0;
    while at < running.len() && running[at].finish <= start {
        add(free, &running[at].request, lanes);
        at += 1;
    }
    at
}

/// Copies what finishes by `bound`, from place `from` of `running` on, behind the first `filled` of
/// `later`. Returns the place of the first that does not, and how many are filled.
#[inline(always)]
fn put_till(
    later: &mut [Running],
    filled: usize,
    running: &[Running],
    from: usize,
    bound: u32,
    lanes: usize,
) -> (usize, usize)
    requires lanes { lanes ≤ MOST_RESOURCES }
    requires none { AreNone lanes running.now }
    requires beyond { AreNone lanes later.old }
    requires inside { from ≤ length running.now }
    requires memory { filled + length running.now ≤ length later.old + from }
    requires rising { IsRising running.now }
    requires risen { IsRising (take filled later.old) }
    requires under { (i k : ℕ) → i < filled → from ≤ k → k < length running.now
        → finish_at (take filled later.old) i ≤ finish_at running.now k }
    ensures inside { result.0 ≤ length running.now }
    ensures above { from ≤ result.0 }
    ensures memory { length later.new ≡ length later.old }
    ensures count { result.1 + from ≡ filled + result.0 }
    ensures risen { IsRising (take result.1 later.new) }
    ensures under { (i k : ℕ) → i < result.1 → result.0 ≤ k → k < length running.now
        → finish_at (take result.1 later.new) i ≤ finish_at running.now k }
    ensures early { (i : ℕ) → filled ≤ i → i < result.1 → finish_at (take result.1 later.new) i ≤ bound }
    ensures all { bound ≡ 4294967295 → result.0 ≡ length running.now }
    ensures kept { (r t : ℕ) → returned (take result.1 later.new) r t + returned (drop result.0 running.now) r t
        ≡ returned (take filled later.old) r t + returned (drop from running.now) r t }
    ensures late { (k : ℕ) → result.0 ≤ k → k < length running.now → bound < finish_at running.now k }
    ensures none { (kinds : ℕ) → AreNone kinds running.now → AreNone kinds later.old → AreNone kinds later.new }
{
    let mut at = from;
    let mut end = filled;
    while at < running.len() && running[at].finish <= bound {
        later[end].overwrite(&running[at], lanes);
        at += 1;
        end += 1;
    }
    (at, end)
}

/// Writes what runs from `start` on to the head of `later`: `new`, and what of `running` has not
/// finished. Returns how many those are.
#[inline(always)]
fn run_into(
    free: &mut Amounts,
    running: &[Running],
    later: &mut [Running],
    new: Running,
    start: u32,
    lanes: usize,
) -> usize
    requires lanes { lanes ≤ MOST_RESOURCES }
    requires none { IsNone lanes new.request }
    requires listed { AreNone lanes running.now }
    requires blank { AreNone lanes later.old }
    requires beyond { (r t : ℕ) → lanes ≤ r → r < MOST_RESOURCES → left_at free.old running.now r t ≡ 0 }
    requires memory { length running.now + 1 ≤ length later.old }
    requires rising { IsRising running.now }
    requires few { (r t : ℕ) → r < MOST_RESOURCES → left_at free.old running.now r t ≤ MOST_SUM }
    requires room { start < new.finish → (r : ℕ) → r < MOST_RESOURCES
        → slice_index new.request r ≤ left_at free.old running.now r start }
    ensures memory { length later.new ≡ length later.old }
    ensures count { result ≤ length running.now + 1 }
    ensures none { (kinds : ℕ) → IsNone kinds new.request → AreNone kinds running.now → AreNone kinds later.old
        → AreNone kinds later.new }
    ensures rising { IsRising (take result later.new) }
    ensures kept { (r t : ℕ) → r < MOST_RESOURCES → start ≤ t
        → left_at free.new (take result later.new) r t + cond (nat_lt t new.finish) (slice_index new.request r) 0
        ≡ left_at free.old running.now r t }
{
    let first = give_back(free, running, start, lanes);
    if new.finish <= start {
        let (_, end) = put_till(later, 0, running, first, u32::MAX, lanes);
        return end;
    }
    subtract(free, &new.request, lanes);
    let (middle, place) = put_till(later, 0, running, first, new.finish, lanes);
    later[place].overwrite(&new, lanes);
    let (_, end) = put_till(later, place + 1, running, middle, u32::MAX, lanes);
    end
}

/// One more runs, from `start` on: the parent's list is in `span`, and the new one stands behind it.
/// Returns its end.
#[inline(always)]
pub(crate) fn run_in(
    list: &mut [Running],
    span: Span,
    free: &mut Amounts,
    new: Running,
    start: u32,
    lanes: usize,
) -> usize
    requires lanes { lanes ≤ MOST_RESOURCES }
    requires none { IsNone lanes new.request }
    requires blank { AreNone lanes list.old }
    requires beyond { (r t : ℕ) → lanes ≤ r → r < MOST_RESOURCES
        → left_at free.old (slice_range (take span.end list.old) span.begin span.end) r t ≡ 0 }
    requires order { span.begin ≤ span.end }
    requires memory { span.end + span.end + 1 ≤ length list.old + span.begin }
    requires rising { IsRising (slice_range (take span.end list.old) span.begin span.end) }
    requires few { (r t : ℕ) → r < MOST_RESOURCES
        → left_at free.old (slice_range (take span.end list.old) span.begin span.end) r t ≤ MOST_SUM }
    requires room { start < new.finish → (r : ℕ) → r < MOST_RESOURCES
        → slice_index new.request r ≤ left_at free.old (slice_range (take span.end list.old) span.begin span.end) r start }
    ensures memory { length list.new ≡ length list.old }
    ensures same { take span.end list.new ≡ take span.end list.old }
    ensures none { (kinds : ℕ) → IsNone kinds new.request → AreNone kinds list.old → AreNone kinds list.new }
    ensures above { span.end ≤ result }
    ensures count { result + span.begin ≤ span.end + span.end + 1 }
    ensures rising { IsRising (slice_range list.new span.end result) }
    ensures kept { (r t : ℕ) → r < MOST_RESOURCES → start ≤ t
        → left_at free.new (slice_range list.new span.end result) r t + cond (nat_lt t new.finish) (slice_index new.request r) 0
        ≡ left_at free.old (slice_range (take span.end list.old) span.begin span.end) r t }
{
    let (before, behind) = list.split_at_mut(span.end);
    span.end
        + run_into(
            free,
            &before[span.begin..span.end],
            behind,
            new,
            start,
            lanes,
        )
}
