//! Clauses in one list of words.
ghost use Rattle.std.specs.Prelude.{◌+◌, ◌^◌, ◌≤◌, vec_len};

use std::alloc::{AllocError, Global};

/// The place of no clause, and the number of one that the kernel does not keep.
pub const NO_CLAUSE: u32 = u32::MAX;

/// The words before a clause's literals: number in the kernel, flags, glue and length.
pub const HEAD: usize = 4;

/// A learned clause may be forgotten.
pub const LEARNED: u32 = 1;

pub const GONE: u32 = 2;

pub const REASON: u32 = 4;

/// The clause waits to be tried for subsumption.
pub const QUEUED: u32 = 16;

/// The word of the glue is the clause's place in a new arena.
pub const MOVED: u32 = 8;

/// The most words, so that a watch's code fits.
const MOST_WORDS: usize = 2_000_000_000;

const MOST_GLUE: u32 = 1_000_000_000;

/// A number of words or places, which stays below 2^32.
#[inline(always)]
pub fn short(number: usize) -> u32 {
    u32::try_from(number).unwrap_or(u32::MAX)
}

/// The entry at a place of a list of clauses.
#[inline(always)]
pub fn clause_at(list: &[u32], place: usize) -> u32 {
    match list.get(place) {
        Some(clause) => *clause,
        None => NO_CLAUSE,
    }
}

/// An arena is a list of clauses in words, and never longer than `most`.
#[derive(Drop)]
pub struct Arena {
    pub words: Vec<u32>,
    pub wasted: usize,
    most: usize,
    ghost within: { vec_len words ≤ most },
}

impl Arena {
    pub fn new(alloc: Global, most: usize) -> Arena
        ensures { vec_len result.words ≤ most }
    {
        Arena {
            words: Vec::new(alloc),
            wasted: 0,
            most: most.min(MOST_WORDS),
        }
    }

    pub fn most(&self) -> usize
        ensures { vec_len self.now.words ≤ result }
    {
        self.most
    }

    #[inline(always)]
    pub fn word(&self, at: usize) -> u32 {
        match self.words.get(at) {
            Some(word) => *word,
            None => 0,
        }
    }

    #[inline(always)]
    pub fn set_word(&mut self, at: usize, word: u32) {
        if at < self.words.len() {
            self.words[at] = word;
        }
    }

    #[inline(always)]
    pub fn size(&self, clause: u32) -> usize
        ensures { result ≤ 2 ^ 32 }
    {
        self.word(clause as usize + 3) as usize
    }

    pub fn set_size(&mut self, clause: u32, size: usize) {
        self.set_word(clause as usize + 3, short(size));
    }

    #[inline(always)]
    pub fn flags(&self, clause: u32) -> u32 {
        self.word(clause as usize + 1)
    }

    #[inline(always)]
    pub fn has(&self, clause: u32, flag: u32) -> bool {
        self.flags(clause) & flag != 0
    }

    pub fn set_flag(&mut self, clause: u32, flag: u32) {
        self.set_word(clause as usize + 1, self.flags(clause) | flag);
    }

    pub fn clear_flag(&mut self, clause: u32, flag: u32) {
        self.set_word(clause as usize + 1, self.flags(clause) & !flag);
    }

    /// The number of levels of a learned clause's literals, when it was last counted.
    pub fn glue(&self, clause: u32) -> u32 {
        self.word(clause as usize + 2) / 4
    }

    /// Reductions that a learned clause outlives without being used.
    pub fn used(&self, clause: u32) -> u32 {
        self.word(clause as usize + 2) % 4
    }

    pub fn set_glue(&mut self, clause: u32, glue: u32, used: u32) {
        self.set_word(clause as usize + 2, glue.min(MOST_GLUE) * 4 + used % 4);
    }

    pub fn place_of_moved(&self, clause: u32) -> u32 {
        self.word(clause as usize + 2)
    }

    pub fn set_moved(&mut self, clause: u32, place: u32) {
        self.set_flag(clause, MOVED);
        self.set_word(clause as usize + 2, place);
    }

    /// The bits of a given clause's variables, in the word of the glue.
    #[inline(always)]
    pub fn signature(&self, clause: u32) -> u32 {
        self.word(clause as usize + 2)
    }

    pub fn set_signature(&mut self, clause: u32, signature: u32) {
        self.set_word(clause as usize + 2, signature);
    }

    /// The words for which there is room.
    pub fn room(&self) -> usize {
        self.most.saturating_sub(self.words.len())
    }

    #[inline(always)]
    pub fn number(&self, clause: u32) -> u32 {
        self.word(clause as usize)
    }

    pub fn set_number(&mut self, clause: u32, number: u32) {
        self.set_word(clause as usize, number);
    }

    #[inline(always)]
    pub fn literals(&self, clause: u32) -> &[u32] {
        let start = clause as usize + HEAD;
        let end = start + self.size(clause);
        if end <= self.words.len() {
            &self.words[start..end]
        } else {
            &self.words[0..0]
        }
    }

    #[inline(always)]
    pub fn literal(&self, clause: u32, place: usize) -> u32 {
        self.word((clause as usize + HEAD).saturating_add(place))
    }

    pub fn set_literal(&mut self, clause: u32, place: usize, literal: u32) {
        self.set_word((clause as usize + HEAD).saturating_add(place), literal);
    }

    /// Returns `NO_CLAUSE` if there is no room.
    pub fn push(
        &mut self,
        literals: &[u32],
        flags: u32,
        glue: u32,
        number: u32,
    ) -> Result<u32, AllocError> {
        let at = self.words.len();
        let end = at.saturating_add(HEAD).saturating_add(literals.len());
        if self.most < end {
            return Ok(NO_CLAUSE);
        }
        let used = if glue <= 6 { 2 } else { 1 };
        let head = [
            number,
            flags,
            glue.min(MOST_GLUE) * 4 + used,
            short(literals.len()),
        ];
        self.words.extend_from_slice(&head)?;
        if let Err(fault) = self.words.extend_from_slice(literals) {
            self.words.truncate(at);
            return Err(fault);
        }
        Ok(short(at))
    }

    pub fn waste(&mut self, words: usize) {
        self.wasted = self.wasted.saturating_add(words);
    }

    /// Whether a quarter of the words belongs to no clause.
    pub fn is_wasteful(&self) -> bool {
        self.wasted > self.words.len() / 4
    }
}
