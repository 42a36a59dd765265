ghost use Rattle.std.specs.Prelude.{◌≡◌, ◌+◌, ◌-◌, ◌<◌, ◌≤◌, ◌==◌, true, false, All, IfOk, MatchOption, get_or, length, replicate, set};
ghost use Rattle.serial_sgs.specs.Waiting.{AreOthers, IsFirst, IsLess, IsNextOpen, NoneIsOpen, is_open};

use crate::members::{is_in, keep_in, next_in, put_in, take_out};
use mrcpsp::{MOST_ACTIVITIES, Sequence};
use std::alloc::{AllocError, Global};
use std::marker::Model;

/// A `Waiting` is a mark and a count of missing predecessors for each activity, with the set of
/// open ones: not marked, and without a missing predecessor.
#[derive(Drop)]
pub(crate) struct Waiting {
    placed: Vec<bool>,
    missing: Vec<u32>,
    eligible: [u64; 4],
}

pub(crate) fn zeros(alloc: Global, size: usize) -> Result<Vec<u32>, AllocError>
    ensures { IfOk result (λ list. list.items ≡ replicate size 0) }
{
    Ok(vec![in alloc; 0; size]?)
}

fn all_marked(alloc: Global, size: usize) -> Result<Vec<bool>, AllocError>
    ensures { IfOk result (λ marks. marks.items ≡ replicate size true) }
{
    Ok(vec![in alloc; true; size]?)
}

impl Model for Waiting {
    ghost use Rattle.serial_sgs.specs.Waiting.{WaitingData, IsWaiting};

    ghost Value = { WaitingData };

    ghost view = { λ w. record { flags = w.placed.items; missing = w.missing.items } };

    ghost invariant = { λ w. IsWaiting (record { flags = w.placed.items; missing = w.missing.items }) w.eligible };
}

impl Waiting {
    /// No activity is placed.
    pub(crate) fn new(alloc: Global, before: &[Sequence<u32>]) -> Result<Waiting, AllocError>
        requires few { length before.now ≤ 255 }
        requires short { All (λ list. length list ≤ MOST_ACTIVITIES) before.now }
        ensures { IfOk result (IsFirst before.now) }
    {
        let size = before.len();
        let placed = all_marked(alloc, size)?;
        let missing = zeros(alloc, size)?;
        let mut waiting = Waiting {
            placed,
            missing,
            eligible: [0; 4],
        };
        waiting.restart(before);
        Ok(waiting)
    }

    fn note(&mut self, activity: usize, is_placed: bool, missing: u32)
        requires { activity < length self.old.flags }
        ensures exact { self.new ≡ record {
          flags = set self.old.flags activity is_placed;
          missing = set self.old.missing activity missing;
        } }
        ensures same { length self.new.missing ≡ length self.new.flags }
    {
        self.placed[activity] = is_placed;
        self.missing[activity] = missing;
        keep_in(&mut self.eligible, activity, !is_placed && missing == 0);
    }

    fn note_placed(&mut self, activity: usize, is_placed: bool)
        requires { activity < length self.old.flags }
        ensures { self.new ≡ record self.old { flags = set self.old.flags activity is_placed } }
    {
        self.placed[activity] = is_placed;
        let is_member = !is_placed && self.missing[activity] == 0;
        keep_in(&mut self.eligible, activity, is_member);
    }

    /// One predecessor less is missing. If none is, and the activity is not placed, it is open.
    fn note_less(&mut self, activity: usize)
        requires inside { activity < length self.old.flags }
        requires some { 0 < get_or self.old.missing activity 0 }
        ensures exact { self.new ≡ record self.old {
          missing = set self.old.missing activity (get_or self.old.missing activity 0 - 1);
        } }
        ensures same { length self.new.missing ≡ length self.new.flags }
    {
        let missing = self.missing[activity] - 1;
        self.missing[activity] = missing;
        if missing == 0 && !self.placed[activity] {
            put_in(&mut self.eligible, activity);
        }
    }

    /// One predecessor more is missing. The activity is not open.
    fn note_more(&mut self, activity: usize)
        requires inside { activity < length self.old.flags }
        requires few { get_or self.old.missing activity 0 < 1000000 }
        ensures exact { self.new ≡ record self.old {
          missing = set self.old.missing activity (get_or self.old.missing activity 0 + 1);
        } }
        ensures same { length self.new.missing ≡ length self.new.flags }
    {
        let missing = self.missing[activity];
        self.missing[activity] = missing + 1;
        if missing == 0 {
            take_out(&mut self.eligible, activity);
        }
    }

    /// Writes what `new` returns into the memory of an old one.
    pub(crate) fn restart(&mut self, before: &[Sequence<u32>])
        requires count { length before.now ≡ length self.old.flags }
        requires short { All (λ list. length list ≤ MOST_ACTIVITIES) before.now }
        ensures { IsFirst before.now self.new }
    {
        for activity in 0..before.len() {
            let missing = before[activity].as_slice().len();
            self.note(activity, false, missing as u32);
        }
    }

    pub(crate) fn count(&self) -> usize
        ensures { result ≡ length self.now.flags }
    {
        self.placed.len()
    }

    pub(crate) fn is_placed(&self, activity: usize) -> bool
        requires { activity < length self.now.flags }
        ensures { result ≡ get_or self.now.flags activity false }
    {
        self.placed[activity]
    }

    pub(crate) fn marks(&self) -> &[bool]
        ensures { result.now ≡ self.now.flags }
    {
        self.placed.as_slice()
    }

    pub(crate) fn is_open(&self, activity: usize) -> bool
        requires { activity < length self.now.flags }
        ensures { result ≡ is_open self.now activity }
    {
        is_in(&self.eligible, activity)
    }

    /// The first open activity, `from` or later.
    pub(crate) fn next_open(&self, from: usize) -> Option<usize>
        requires { from ≤ length self.now.flags }
        ensures { MatchOption result (NoneIsOpen self.now from) (IsNextOpen self.now from) }
    {
        next_in(&self.eligible, from, self.placed.len())
    }

    pub(crate) fn misses_none(&self, activity: usize) -> bool
        requires { activity < length self.now.flags }
        ensures { result ≡ (get_or self.now.missing activity 0 == 0) }
    {
        self.missing[activity] == 0
    }

    /// The activities in `after` wait for this one.
    pub(crate) fn mark(&mut self, activity: usize, after: &[u32])
        requires inside { activity < length self.old.flags }
        requires others { AreOthers (length self.old.flags) after.now }
        requires some { All (λ s. 0 < get_or self.old.missing s 0) after.now }
        ensures marks { self.new.flags ≡ set self.old.flags activity true }
        ensures less { IsLess after.now self.old.missing self.new.missing }
    {
        self.note_placed(activity, true);
        for other in after {
            self.note_less(*other as usize);
        }
    }

    /// The activities in `after` wait for this one.
    pub(crate) fn unmark(&mut self, activity: usize, after: &[u32])
        requires inside { activity < length self.old.flags }
        requires others { AreOthers (length self.old.flags) after.now }
        requires few { All (λ s. get_or self.old.missing s 0 < 1000000) after.now }
        ensures marks { self.new.flags ≡ set self.old.flags activity false }
        ensures less { IsLess after.now self.new.missing self.old.missing }
    {
        self.note_placed(activity, false);
        for other in after {
            self.note_more(*other as usize);
        }
    }
}
