//! Clauses by number, in one list of words.
ghost use Rattle.std.specs.Prelude.{◌≡◌, ◌<◌, ◌≤◌, ◌+◌, length, MatchOption, Some, None, IfOk, OnErr, cond, nat_lt, slice_set, slice_index_or, ◌++◌, ◌∷◌, [], true, false};
ghost use Rattle.clause_kernel.specs.Propagation.{clause_at};
ghost use Rattle.clause_kernel.specs.Kernel.{put_at};

use std::alloc::{AllocError, Global};
use std::marker::Model;

/// The number of a clause that is not kept: one of no or one literal.
pub const NO_CLAUSE: u32 = 4_294_967_295;

/// Words of removed clauses that are kept without a copy.
const MOST_WASTED: usize = 65_536;

#[derive(Clone, Copy)]
pub(crate) struct Span {
    pub(crate) start: usize,
    pub(crate) end: usize,
}

/// A `Store` is a list of clauses by number, in which a number may be free.
#[derive(Drop)]
pub(crate) struct Store {
    words: Vec<u32>,
    places: Vec<Option<Span>>,
    free: Vec<u32>,
    wasted: usize,
    alloc: Global,
}

impl Model for Store {
    ghost use Rattle.std.specs.Prelude.{ℕ, List, Option, map, All};
    ghost use Rattle.clause_kernel.specs.Arena.{literals_of, IsWithin};

    ghost Value = { List (Option (List ℕ)) };

    ghost view = { λ s. map (literals_of s.words.items) s.places.items };

    ghost invariant = { λ s. All (IsWithin s.words.items) s.places.items };
}

impl Store {
    pub(crate) fn new(alloc: Global) -> Store
        ensures { result ≡ [] }
    {
        Store {
            words: Vec::new(alloc),
            places: Vec::new(alloc),
            free: Vec::new(alloc),
            wasted: 0,
            alloc,
        }
    }

    pub(crate) fn alloc(&self) -> Global {
        self.alloc
    }

    /// The number after the last one that was ever given.
    pub(crate) fn count(&self) -> usize
        ensures { result ≡ length self.now }
    {
        self.places.len()
    }

    /// The memory of clauses, in words of four bytes.
    pub(crate) fn words(&self) -> usize {
        let places = self.places.capacity().saturating_mul(6);
        let words = self.words.capacity().saturating_add(self.free.capacity());
        places.saturating_add(words)
    }

    pub(crate) fn get(&self, number: u32) -> Option<&[u32]>
        ensures { MatchOption result (clause_at self.now number ≡ None) (λ c. clause_at self.now number ≡ Some c.now) }
    {
        self.at(number as usize)
    }

    fn at(&self, number: usize) -> Option<&[u32]>
        ensures { MatchOption result (clause_at self.now number ≡ None) (λ c. clause_at self.now number ≡ Some c.now) }
    {
        if self.places.len() <= number {
            return None;
        }
        match self.places[number] {
            Some(span) => Some(&self.words[span.start..span.end]),
            None => None,
        }
    }

    /// Keeps a clause at a number that is free. Returns the number.
    #[tactic(auto, using(crate::proofs::StoreLemmas::store_rules))]
    pub(crate) fn push(&mut self, clause: &[u32]) -> Result<u32, AllocError>
        ensures number { IfOk result (λ n. n < 4294967295) }
        ensures free { IfOk result (λ n. clause_at self.old n ≡ None) }
        ensures kept { IfOk result (λ n. self.new ≡ put_at self.old n (Some clause.now)) }
        ensures no_memory { OnErr result (self.new ≡ self.old) }
    {
        let start = self.words.len();
        self.words.extend_from_slice(clause)?;
        let end = self.words.len();
        let number = match place(&mut self.places, &mut self.free, Span { start, end }) {
            Ok(number) => number,
            Err(fault) => return Err(fault),
        };
        Ok(number)
    }

    /// Keeps a clause at the next number.
    #[tactic(auto, using(crate::proofs::StoreLemmas::append_rules))]
    pub(crate) fn append(&mut self, clause: &[u32]) -> Result<(), AllocError>
        ensures appended { IfOk result (λ _. self.new ≡ self.old ++ Some clause.now ∷ []) }
        ensures no_memory { OnErr result (self.new ≡ self.old) }
    {
        self.places.reserve(1)?;
        let start = self.words.len();
        self.words.extend_from_slice(clause)?;
        let end = self.words.len();
        self.places.push(Some(Span { start, end }))?;
        Ok(())
    }

    /// Leaves the next number free.
    #[tactic(auto, using(crate::proofs::StoreLemmas::append_rules))]
    pub(crate) fn append_free(&mut self) -> Result<(), AllocError>
        ensures appended { IfOk result (λ _. self.new ≡ self.old ++ None ∷ []) }
        ensures no_memory { OnErr result (self.new ≡ self.old) }
    {
        self.places.push(None)?;
        Ok(())
    }

    /// A copy without the words of clauses that were removed.
    fn packed(&self) -> Result<Store, AllocError>
        ensures { IfOk result (λ store. store ≡ self.now) }
    {
        let mut store = Store::new(self.alloc);
        for number in 0..self.count() {
            match self.at(number) {
                Some(clause) => store.append(clause)?,
                None => store.append_free()?,
            }
        }
        Ok(store)
    }

    /// Gives memory back if a third of the words are of clauses that were removed.
    fn pack(&mut self)
        ensures { self.new ≡ self.old }
    {
        if self.wasted > MOST_WASTED
            && self.wasted > self.words.len() / 3
            && let Ok(store) = self.packed()
        {
            *self = store;
        }
    }

    /// Frees a number.
    pub(crate) fn remove(&mut self, number: u32)
        ensures { self.new ≡ slice_set self.old number None }
    {
        self.free_number(number);
        self.pack();
    }

    #[tactic(auto, using(crate::proofs::StoreLemmas::remove_rules))]
    fn free_number(&mut self, number: u32)
        ensures { self.new ≡ slice_set self.old number None }
    {
        let words = clear(&mut self.places, number as usize);
        self.wasted = self.wasted.saturating_add(words);
        if words > 0 {
            let _ = self.free.push(number);
        }
    }
}

/// Frees a place. Returns the length of its clause.
fn clear(places: &mut Vec<Option<Span>>, at: usize) -> usize
    ensures { places.new.items ≡ slice_set places.old.items at None }
{
    if places.len() <= at {
        return 0;
    }
    let length = match places[at] {
        Some(span) => span.end.saturating_sub(span.start),
        None => 0,
    };
    places[at] = None;
    length
}

/// Writes a span to a place that is free, one of `free` if there is one. Returns the place.
fn place(places: &mut Vec<Option<Span>>, free: &mut Vec<u32>, span: Span) -> Result<u32, AllocError>
    ensures number { IfOk result (λ n. n < 4294967295) }
    ensures free { IfOk result (λ n. slice_index_or places.old.items n None ≡ None) }
    ensures placed { IfOk result (λ n. places.new.items ≡ put_at places.old.items n (Some span)) }
    ensures no_memory { OnErr result (places.new.items ≡ places.old.items) }
{
    if let Some(number) = free.pop() {
        let at = number as usize;
        if number < NO_CLAUSE && at < places.len() && places[at].is_none() {
            places[at] = Some(span);
            return Ok(number);
        }
    }
    let number = match u32::try_from(places.len()) {
        Ok(number) => number,
        Err(_) => NO_CLAUSE,
    };
    if number == NO_CLAUSE {
        return Err(AllocError);
    }
    places.push(Some(span))?;
    Ok(number)
}
