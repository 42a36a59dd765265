//! What is free of the renewable resources, as points that are linked by rising time. Each finish
//! has a point: no time is searched for, and no point moves.
ghost use Rattle.std.specs.Prelude.{◌≡◌, ℕ, ◌+◌, ◌<◌, ◌≤◌, [], ◌∷◌, ◌++◌, length, set, get_or, slice_index, vec_capacity};
ghost use Rattle.serial_sgs.specs.Profile.{IsMore};
ghost use Rattle.serial_pass.specs.Points.{FitsAt, FitsFrom, IsFirstPoint, IsLeft, IsLinked, IsTaken, IsWalked, no_point, free_at, time_at};

use crate::amounts::fits;
use mrcpsp::{MOST_DURATION, MOST_RESOURCES, MOST_START};
use serial_sgs::amounts::{Amounts, MOST_SUM, add, subtract};

/// The time of the last point, in periods.
pub(crate) const NEVER: u32 = u32::MAX;

/// A `FreePoint` is a time, what is free from then on, and the place of the point with the next
/// time.
#[derive(Clone, Copy)]
pub(crate) struct FreePoint {
    pub(crate) free: Amounts,
    pub(crate) time: u32,
    pub(crate) next: u32,
}

/// The first point from `ready` on at which the request fits for `duration` periods.
#[inline(always)]
pub(crate) fn first_point(
    points: &[FreePoint],
    ready: usize,
    request: &Amounts,
    duration: u32,
) -> usize
    requires linked { IsLinked points.now }
    requires ready { ready < length points.now }
    requires short { duration ≤ MOST_DURATION }
    requires small { (r : ℕ) → r < MOST_RESOURCES → slice_index request.now r ≤ MOST_SUM }
    requires few { (k r : ℕ) → k < length points.now → time_at points.now k < NEVER → r < MOST_RESOURCES
        → free_at points.now k r ≤ MOST_SUM }
    requires soon { (e : ℕ) × (e < length points.now) × (time_at points.now e ≤ MOST_START)
        × (time_at points.now ready ≤ time_at points.now e)
        × (0 < duration → FitsFrom points.now request.now (time_at points.now e)) }
    ensures first { IsFirstPoint points.now request.now duration ready result }
    ensures early { time_at points.now result ≤ MOST_START }
{
    let mut start = ready;
    let mut at = ready;
    let mut finish = points[ready].time + duration;
    while points[at].time < finish {
        let point = &points[at];
        at = point.next as usize;
        if !fits(request, &point.free) {
            start = at;
            finish = points[at].time + duration;
        }
    }
    start
}

/// Takes the request off from point `start` on, before `finish`. Returns the last point before
/// `finish` and the first one that is not.
#[inline(always)]
fn take_in(points: &mut [FreePoint], request: &Amounts, start: usize, finish: u32) -> (usize, usize)
    requires linked { IsLinked points.old }
    requires start { start < length points.old }
    requires order { time_at points.old start ≤ finish }
    requires finish { finish < NEVER }
    requires enough { (k : ℕ) → k < length points.old → time_at points.old start ≤ time_at points.old k
        → time_at points.old k < finish → FitsAt points.old request.now k }
    ensures taken { IsTaken (time_at points.old start) finish request.now points.old points.new }
    ensures walked { IsWalked points.old start finish result.0 result.1 }
{
    let mut before = start;
    let mut at = start;
    while points[at].time < finish {
        let point = &mut points[at];
        subtract(&mut point.free, request);
        before = at;
        at = point.next as usize;
    }
    (before, at)
}

/// Calls `take_in` for all points.
#[inline(always)]
fn take(points: &mut Vec<FreePoint>, request: &Amounts, start: usize, finish: u32) -> (usize, usize)
    requires linked { IsLinked points.old.items }
    requires start { start < length points.old.items }
    requires order { time_at points.old.items start ≤ finish }
    requires finish { finish < NEVER }
    requires enough { (k : ℕ) → k < length points.old.items → time_at points.old.items start ≤ time_at points.old.items k
        → time_at points.old.items k < finish → FitsAt points.old.items request.now k }
    ensures taken { IsTaken (time_at points.old.items start) finish request.now points.old.items points.new.items }
    ensures walked { IsWalked points.old.items start finish result.0 result.1 }
    ensures memory { vec_capacity points.new ≡ vec_capacity points.old }
{
    take_in(points.as_mut_slice(), request, start, finish)
}

/// Puts a point behind point `before`. Returns its place.
#[inline(always)]
fn put(points: &mut Vec<FreePoint>, before: usize, point: FreePoint) -> usize
    requires before { before < length points.old.items }
    requires room { length points.old.items < vec_capacity points.old }
    requires few { length points.old.items ≤ MOST_SUM }
    ensures items { points.new.items ≡ set points.old.items before (record (get_or points.old.items before no_point) { next = length points.old.items }) ++ point ∷ [] }
    ensures memory { vec_capacity points.new ≡ vec_capacity points.old }
    ensures place { result ≡ length points.old.items }
{
    let place = points.len();
    points[before].next = place as u32;
    points.push_reserved(point);
    place
}

/// Takes the request from point `start` on for `duration` periods. Returns the point of the finish.
/// Takes no memory.
#[inline(always)]
pub(crate) fn occupy(
    points: &mut Vec<FreePoint>,
    start: usize,
    request: &Amounts,
    duration: u32,
) -> usize
    requires linked { IsLinked points.old.items }
    requires room { length points.old.items < vec_capacity points.old }
    requires small { length points.old.items ≤ MOST_SUM }
    requires few { (k r : ℕ) → k < length points.old.items → time_at points.old.items k < NEVER → r < MOST_RESOURCES
        → free_at points.old.items k r ≤ MOST_SUM }
    requires start { start < length points.old.items }
    requires early { time_at points.old.items start ≤ MOST_START }
    requires short { duration ≤ MOST_DURATION }
    requires enough { (k : ℕ) → k < length points.old.items → time_at points.old.items start ≤ time_at points.old.items k
        → time_at points.old.items k < time_at points.old.items start + duration
        → FitsAt points.old.items request.now k }
    ensures linked { IsLinked points.new.items }
    ensures few { length points.new.items ≤ length points.old.items + 1 }
    ensures memory { vec_capacity points.new ≡ vec_capacity points.old }
    ensures times { (k : ℕ) → k < length points.old.items
        → (k < length points.new.items) × (time_at points.new.items k ≡ time_at points.old.items k) }
    ensures inside { result < length points.new.items }
    ensures finish { time_at points.new.items result ≡ time_at points.old.items start + duration }
    ensures left { (left less : ℕ → ℕ → ℕ)
        → IsMore MOST_RESOURCES (time_at points.old.items start) (time_at points.old.items start + duration) request.now less left
        → IsLeft left points.old.items → IsLeft less points.new.items }
{
    let finish = points[start].time + duration;
    let (before, at) = take(points, request, start, finish);
    if points[at].time == finish {
        return at;
    }
    let mut free = points[before].free;
    add(&mut free, request);
    let point = FreePoint {
        free,
        time: finish,
        next: at as u32,
    };
    put(points, before, point)
}

/// All is free. Takes no memory.
pub(crate) fn begin(points: &mut Vec<FreePoint>, free: &Amounts)
    requires { 2 ≤ vec_capacity points.old }
    ensures linked { IsLinked points.new.items }
    ensures two { length points.new.items ≡ 2 }
    ensures begins { time_at points.new.items 0 ≡ 0 }
    ensures memory { vec_capacity points.new ≡ vec_capacity points.old }
    ensures left { IsLeft (λ r u. get_or free.now r 0) points.new.items }
{
    points.clear();
    points.push_reserved(FreePoint {
        free: *free,
        time: 0,
        next: 1,
    });
    points.push_reserved(FreePoint {
        free: *free,
        time: NEVER,
        next: 1,
    });
}
