//! Clauses in one list of words, numbered from 0 in the order in which they came.
ghost use Rattle.std.specs.Prelude.{◌<◌};

use std::alloc::{AllocError, Global};

pub(crate) const NO_CLAUSE: u32 = u32::MAX;

pub(crate) const NO_LITERAL: u32 = u32::MAX;

const MOST_LITERALS: usize = 1_000_000_000;

#[derive(Clone, Copy, PartialEq, Eq)]
pub(crate) enum ClauseState {
    /// No literals watch it.
    Idle,
    Watched,
    /// It is watched, and a step of the proof rests on it.
    Core,
    Deleted,
}

/// The literals of clause `c` begin at `starts[c]`. Right before them are the clause's number, and
/// 4 · length + state: so a visit by propagation reads one place in memory.
#[derive(Drop)]
pub(crate) struct NumberedClauses {
    words: Vec<u32>,
    starts: Vec<usize>,
}

#[derive(Clone, Copy)]
pub(crate) struct LiteralSpan {
    pub(crate) start: usize,
    pub(crate) end: usize,
}

#[derive(Clone, Copy)]
pub(crate) struct ClauseEntry {
    pub(crate) clause: u32,
    pub(crate) state: ClauseState,
    pub(crate) span: LiteralSpan,
}

fn code_of(state: ClauseState) -> u32
    ensures { result < 4 }
{
    match state {
        ClauseState::Idle => 0,
        ClauseState::Watched => 1,
        ClauseState::Core => 2,
        ClauseState::Deleted => 3,
    }
}

fn state_of(word: u32) -> ClauseState {
    match word % 4 {
        0 => ClauseState::Idle,
        1 => ClauseState::Watched,
        2 => ClauseState::Core,
        _ => ClauseState::Deleted,
    }
}

fn span_of(start: usize, word: u32) -> LiteralSpan {
    LiteralSpan {
        start,
        end: start.saturating_add((word / 4) as usize),
    }
}

impl NumberedClauses {
    pub(crate) fn new(alloc: Global) -> NumberedClauses {
        NumberedClauses {
            words: Vec::new(alloc),
            starts: Vec::new(alloc),
        }
    }

    pub(crate) fn count(&self) -> u32 {
        match u32::try_from(self.starts.len()) {
            Ok(count) => count,
            Err(_) => NO_CLAUSE,
        }
    }

    pub(crate) fn push(&mut self, clause: &[u32]) -> Result<(), AllocError> {
        let length = clause.len().min(MOST_LITERALS) as u32;
        let number = self.count();
        self.words.push(number)?;
        self.words.push(4 * length + code_of(ClauseState::Idle))?;
        self.starts.push(self.words.len())?;
        for literal in clause {
            self.words.push(*literal)?;
        }
        Ok(())
    }

    pub(crate) fn literal(&self, place: usize) -> u32 {
        match self.words.get(place) {
            Some(word) => *word,
            None => NO_LITERAL,
        }
    }

    pub(crate) fn start(&self, clause: u32) -> Option<usize> {
        self.starts.get(clause as usize).copied()
    }

    pub(crate) fn entry(&self, start: usize) -> ClauseEntry {
        let word = self.literal(start.saturating_sub(1));
        ClauseEntry {
            clause: self.literal(start.saturating_sub(2)),
            state: state_of(word),
            span: span_of(start, word),
        }
    }

    pub(crate) fn span(&self, clause: u32) -> LiteralSpan {
        match self.start(clause) {
            Some(start) => span_of(start, self.literal(start.saturating_sub(1))),
            None => LiteralSpan { start: 0, end: 0 },
        }
    }

    pub(crate) fn state(&self, clause: u32) -> ClauseState {
        match self.start(clause) {
            Some(start) => state_of(self.literal(start.saturating_sub(1))),
            None => ClauseState::Idle,
        }
    }

    pub(crate) fn set_state(&mut self, clause: u32, state: ClauseState) {
        if let Some(start) = self.start(clause) {
            let at = start.saturating_sub(1);
            if at < self.words.len() {
                self.words[at] = self.words[at] / 4 * 4 + code_of(state);
            }
        }
    }

    pub(crate) fn literals(&self, clause: u32) -> &[u32] {
        let span = self.span(clause);
        if span.start <= span.end && span.end <= self.words.len() {
            &self.words[span.start..span.end]
        } else {
            &self.words[0..0]
        }
    }

    pub(crate) fn swap(&mut self, one: usize, other: usize) {
        if one < self.words.len() && other < self.words.len() {
            self.words.swap(one, other);
        }
    }
}
