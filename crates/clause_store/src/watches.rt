//! Which clauses watch which literal, and unit propagation along them.
ghost use Rattle.std.specs.Prelude.{◌<◌, length, IfSome};

use crate::arena::{Arena, GONE, HEAD, NO_CLAUSE, short};
use crate::trail::{FALSE, TRUE, Trail, negated};
use std::alloc::{AllocError, Global};
use std::mem;

/// A watch is the place of a clause that has to be visited if a literal becomes false.
#[derive(Clone, Copy)]
struct Watch {
    /// 2 · the clause, and 1 more if it has two literals.
    code: u32,
    /// Another literal of the clause.
    blocker: u32,
}

#[derive(Clone, Copy)]
enum Visit {
    Stays { blocker: u32 },
    Moved,
    Conflict,
}

#[derive(Drop)]
pub struct Watches {
    lists: Vec<Vec<Watch>>,
    alloc: Global,
}

/// The first place behind the watched ones whose literal is not false.
#[inline(always)]
fn open_place(literals: &[u32], trail: &Trail) -> Option<usize>
    ensures { IfSome result (λ place. place < length literals.now) }
{
    for place in 2..literals.len() {
        if trail.value(literals[place]) != FALSE {
            return Some(place);
        }
    }
    None
}

impl Watches {
    pub fn new(alloc: Global, literals: usize) -> Result<Watches, AllocError> {
        let mut lists = Vec::with_capacity(alloc, literals)?;
        for _ in 0..literals {
            lists.push(Vec::new(alloc))?;
        }
        Ok(Watches { lists, alloc })
    }

    #[inline(always)]
    fn add(&mut self, literal: u32, watch: Watch) -> Result<(), AllocError> {
        let at = literal as usize;
        if at < self.lists.len() {
            self.lists[at].push(watch)?;
        }
        Ok(())
    }

    #[inline(always)]
    fn take(&mut self, literal: u32) -> Vec<Watch> {
        let at = literal as usize;
        if at < self.lists.len() {
            mem::replace(&mut self.lists[at], Vec::new(self.alloc))
        } else {
            Vec::new(self.alloc)
        }
    }

    #[inline(always)]
    fn put(&mut self, literal: u32, list: Vec<Watch>) {
        let at = literal as usize;
        if at < self.lists.len() {
            self.lists[at] = list;
        }
    }

    pub fn attach(&mut self, arena: &Arena, clause: u32) -> Result<(), AllocError> {
        let size = arena.size(clause);
        if size < 2 {
            return Ok(());
        }
        let (one, other) = (arena.literal(clause, 0), arena.literal(clause, 1));
        let code = clause.wrapping_mul(2) | (size == 2) as u32;
        self.add(
            one,
            Watch {
                code,
                blocker: other,
            },
        )?;
        self.add(other, Watch { code, blocker: one })
    }

    /// Visits a clause of three literals or more, of which `falsified` is watched.
    #[inline(always)]
    fn visit(
        &mut self,
        words: &mut [u32],
        trail: &mut Trail,
        code: u32,
        falsified: u32,
    ) -> Result<Visit, AllocError> {
        let clause = (code / 2) as usize;
        let start = clause + HEAD;
        let size = match words.get(clause + 3) {
            Some(size) => *size as usize,
            None => 0,
        };
        if size < 2 || start + size > words.len() {
            return Ok(Visit::Moved);
        }
        let literals = &mut words[start..start + size];
        let other = literals[0] ^ literals[1] ^ falsified;
        let value = trail.value(other);
        if value == TRUE {
            return Ok(Visit::Stays { blocker: other });
        }
        if let Some(place) = open_place(literals, trail) {
            let literal = literals[place];
            if trail.value(literal) == TRUE {
                return Ok(Visit::Stays { blocker: literal });
            }
            literals[0] = other;
            literals[1] = literal;
            literals[place] = falsified;
            self.add(
                literal,
                Watch {
                    code,
                    blocker: other,
                },
            )?;
            return Ok(Visit::Moved);
        }
        if value == FALSE {
            return Ok(Visit::Conflict);
        }
        literals[0] = other;
        literals[1] = falsified;
        trail.assign(other, code / 2);
        Ok(Visit::Stays { blocker: other })
    }

    #[inline(always)]
    fn visit_any(
        &mut self,
        words: &mut [u32],
        trail: &mut Trail,
        watch: Watch,
        falsified: u32,
    ) -> Result<Visit, AllocError> {
        let Watch { code, blocker } = watch;
        let value = trail.value(blocker);
        if value == TRUE {
            return Ok(Visit::Stays { blocker });
        }
        if code % 2 == 0 {
            return self.visit(words, trail, code, falsified);
        }
        if value == FALSE {
            return Ok(Visit::Conflict);
        }
        trail.assign(blocker, code / 2);
        Ok(Visit::Stays { blocker })
    }

    /// Returns a clause of which all literals are false, or `NO_CLAUSE`.
    fn visit_all(
        &mut self,
        words: &mut [u32],
        trail: &mut Trail,
        list: &mut Vec<Watch>,
        falsified: u32,
    ) -> Result<u32, AllocError> {
        let mut kept = 0;
        let mut conflict = NO_CLAUSE;
        for place in 0..list.len() {
            let mut watch = list[place];
            if conflict == NO_CLAUSE {
                match self.visit_any(words, trail, watch, falsified)? {
                    Visit::Moved => continue,
                    Visit::Stays { blocker } => watch.blocker = blocker,
                    Visit::Conflict => conflict = watch.code / 2,
                }
            }
            list[kept] = watch;
            kept += 1;
        }
        list.truncate(kept);
        Ok(conflict)
    }

    /// Makes true what follows. Returns a clause of which all literals are false, or `NO_CLAUSE`.
    pub fn propagate(&mut self, words: &mut [u32], trail: &mut Trail) -> Result<u32, AllocError> {
        for _ in 0..usize::MAX {
            let Some(literal) = trail.advance() else {
                break;
            };
            let falsified = negated(literal);
            let mut list = self.take(falsified);
            let conflict = self.visit_all(words, trail, &mut list, falsified)?;
            self.put(falsified, list);
            if conflict != NO_CLAUSE {
                return Ok(conflict);
            }
        }
        Ok(NO_CLAUSE)
    }

    /// How many clauses watch a literal.
    pub fn count(&self, literal: u32) -> usize {
        match self.lists.get(literal as usize) {
            Some(list) => list.len(),
            None => 0,
        }
    }

    /// A clause that watches a literal.
    pub fn clause(&self, literal: u32, place: usize) -> u32 {
        match self.lists.get(literal as usize) {
            Some(list) => match list.get(place) {
                Some(watch) => watch.code / 2,
                None => NO_CLAUSE,
            },
            None => NO_CLAUSE,
        }
    }

    pub fn clear(&mut self) {
        for list in self.lists.iter_mut() {
            list.clear();
        }
    }

    /// Drops the watches of clauses that are gone.
    pub fn sweep(&mut self, arena: &Arena) {
        for literal in 0..short(self.lists.len()) {
            let mut list = self.take(literal);
            list.retain(|watch| !arena.has(watch.code / 2, GONE));
            self.put(literal, list);
        }
    }

    /// Follows the clauses that moved.
    pub fn follow(&mut self, arena: &Arena) {
        for literal in 0..short(self.lists.len()) {
            let mut list = self.take(literal);
            for watch in list.iter_mut() {
                let clause = arena.place_of_moved(watch.code / 2);
                watch.code = clause.wrapping_mul(2) | watch.code & 1;
            }
            self.put(literal, list);
        }
    }
}
