//! A set of clauses that a formula entails, with the theorem as its invariant.
ghost use Rattle.std.specs.Prelude.{◌≡◌, ◌<◌, ◌≤◌, ◌||◌, [], ◌∷◌, length, true, false, is_some, IfOk, IfSome, IfNone, IsSome, OnErr, slice_set, None, List, ℕ, map, replicate, ◌++◌};
ghost use Rattle.clause_kernel.specs.Clauses.{Entails, IsUnsatisfiable};
ghost use Rattle.clause_kernel.specs.Propagation.{clause_at, is_fixed, follows_by};
ghost use Rattle.clause_kernel.specs.Kernel.{Adds, kept, fixed_with, refuted_with};

use crate::formula::ClauseList;
use crate::literal::negated;
use crate::marks::Marks;
use crate::store::{NO_CLAUSE, Store};
use std::alloc::{AllocError, Global};
use std::marker::{Brand, Model, PhantomData};

/// A formula that is known to proofs alone. Each call of a program picks its own.
pub trait Formula {
    ghost clauses: { List (List ℕ) };
}

impl Formula for Brand {
    ghost use Rattle.std.specs.Prelude.{[]};

    ghost clauses = { [] };
}

/// A `Kernel` is a set of clauses that the formula `F` entails.
#[derive(Drop)]
pub struct Kernel<F: Formula> {
    store: Store,
    marks: Marks,
    is_refuted: bool,
    of: PhantomData<F>,
}

impl<F: Formula> Model for Kernel<F> {
    ghost use Rattle.clause_kernel.specs.Kernel.{Held, IsEntailed};

    ghost Value = { Held };

    ghost view = { λ k. record { clauses = k.store; fixed = k.marks; refuted = k.is_refuted } };

    ghost invariant = { λ k. IsEntailed F.clauses (record { clauses = k.store; fixed = k.marks; refuted = k.is_refuted }) };
}

fn either(one: bool, other: bool) -> bool
    ensures { result ≡ (one || other) }
{
    one || other
}

/// A `Lemma` is a clause that the formula `F` entails. Another kernel of `F` takes it as it is.
#[derive(Drop)]
pub struct Lemma<F: Formula> {
    pub clause: Vec<u32>,
    of: PhantomData<F>,
    pub ghost entailed: { Entails F.clauses clause.items },
}

fn copied(alloc: Global, clause: &[u32]) -> Result<Vec<u32>, AllocError>
    ensures { IfOk result (λ copy. copy.items ≡ clause.now) }
{
    let mut copy = Vec::with_capacity(alloc, clause.len())?;
    copy.extend_from_slice(clause)?;
    Ok(copy)
}

fn lemma_of<F: Formula>(clause: Vec<u32>) -> Lemma<F>
    requires { Entails F.clauses clause.items }
    ensures { result.clause ≡ clause }
{
    Lemma {
        clause,
        of: PhantomData,
    }
}

impl<F: Formula> Kernel<F> {
    #[tactic(auto, using(crate::proofs::KernelLemmas::new_rules))]
    fn empty(alloc: Global, literals: usize) -> Result<Kernel<F>, AllocError>
        ensures { IfOk result (λ kernel. kernel ≡ record { clauses = []; fixed = replicate literals false; refuted = false }) }
    {
        Ok(Kernel {
            store: Store::new(alloc),
            marks: Marks::new(alloc, literals)?,
            is_refuted: false,
            of: PhantomData,
        })
    }

    /// The clauses of a formula, each at its place in the formula. One of one literal or none has no
    /// number.
    #[tactic(auto, using(crate::proofs::KernelLemmas::given_rules))]
    pub fn new(alloc: Global, formula: &ClauseList) -> Result<Kernel<F>, AllocError>
        requires { formula.now ≡ F.clauses }
        ensures { IfOk result (λ kernel. kernel.clauses ≡ map kept F.clauses) }
    {
        let mut kernel = Kernel::empty(alloc, formula.literal_count())?;
        for number in 0..formula.len() {
            kernel.give(formula.get(number))?;
        }
        Ok(kernel)
    }

    /// Adds a clause that is known to follow, at the next number.
    #[tactic(auto, using(crate::proofs::KernelLemmas::give_rules))]
    fn give(&mut self, clause: &[u32]) -> Result<(), AllocError>
        requires { Entails F.clauses clause.now }
        ensures clauses { IfOk result (λ _. self.new.clauses ≡ self.old.clauses ++ kept clause.now ∷ []) }
        ensures fixed { IfOk result (λ _. self.new.fixed ≡ fixed_with self.old.fixed clause.now) }
        ensures refuted { IfOk result (λ _. self.new.refuted ≡ refuted_with self.old clause.now) }
    {
        match clause {
            [] => {
                self.refute();
                self.skip()
            }
            [literal] => {
                self.fix(*literal);
                self.skip()
            }
            _ => self.append(clause),
        }
    }

    #[tactic(auto, using(crate::proofs::KernelLemmas::give_rules))]
    fn append(&mut self, clause: &[u32]) -> Result<(), AllocError>
        requires { Entails F.clauses clause.now }
        ensures clauses { IfOk result (λ _. self.new.clauses ≡ self.old.clauses ++ Some clause.now ∷ []) }
        ensures fixed { self.new.fixed ≡ self.old.fixed }
        ensures refuted { self.new.refuted ≡ self.old.refuted }
    {
        self.store.append(clause)?;
        Ok(())
    }

    #[tactic(auto, using(crate::proofs::KernelLemmas::give_rules))]
    fn skip(&mut self) -> Result<(), AllocError>
        ensures clauses { IfOk result (λ _. self.new.clauses ≡ self.old.clauses ++ None ∷ []) }
        ensures fixed { self.new.fixed ≡ self.old.fixed }
        ensures refuted { self.new.refuted ≡ self.old.refuted }
    {
        self.store.append_free()?;
        Ok(())
    }

    /// Adds a clause if it follows by unit propagation along the clauses with the numbers `hints`,
    /// in this order. Returns its number.
    #[tactic(auto, using(crate::proofs::KernelLemmas::learn_rules))]
    pub fn learn(&mut self, clause: &[u32], hints: &[u32]) -> Result<Option<u32>, AllocError>
        ensures entailed { IfOk result (λ number. IsSome number → Entails F.clauses clause.now) }
        ensures exact { IfOk result (λ number. is_some number ≡ follows_by self.old.clauses self.old.fixed clause.now hints.now) }
        ensures added { IfOk result (λ number. IfSome number (λ n. Adds self.old clause.now n self.new)) }
        ensures refused { IfOk result (λ number. number ≡ None → self.new ≡ self.old) }
        ensures no_memory { OnErr result (self.new ≡ self.old) }
    {
        if !self.marks.follows(&self.store, clause, hints) {
            return Ok(None);
        }
        let number = self.admit(clause)?;
        Ok(Some(number))
    }

    /// Adds a clause that is known to follow, as one that another kernel learned.
    #[tactic(auto, using(crate::proofs::KernelLemmas::admit_rules))]
    pub fn admit(&mut self, clause: &[u32]) -> Result<u32, AllocError>
        requires { Entails F.clauses clause.now }
        ensures added { IfOk result (λ n. Adds self.old clause.now n self.new) }
        ensures no_memory { OnErr result (self.new ≡ self.old) }
    {
        match clause {
            [] => Ok(self.refute()),
            [literal] => Ok(self.fix(*literal)),
            _ => self.keep(clause),
        }
    }

    #[tactic(auto, using(crate::proofs::KernelLemmas::refute_rules))]
    fn refute(&mut self) -> u32
        requires { Entails F.clauses [] }
        ensures { Adds self.old [] result self.new }
    {
        self.is_refuted = true;
        NO_CLAUSE
    }

    #[tactic(auto, using(crate::proofs::KernelLemmas::fix_rules))]
    fn fix(&mut self, literal: u32) -> u32
        requires { Entails F.clauses (literal ∷ []) }
        ensures { Adds self.old (literal ∷ []) result self.new }
    {
        let is_false = self.marks.is_fixed(negated(literal));
        self.is_refuted = either(self.is_refuted, is_false);
        self.marks.fix(literal);
        NO_CLAUSE
    }

    #[tactic(auto, using(crate::proofs::KernelLemmas::keep_rules))]
    fn keep(&mut self, clause: &[u32]) -> Result<u32, AllocError>
        requires entailed { Entails F.clauses clause.now }
        requires long { 2 ≤ length clause.now }
        ensures added { IfOk result (λ n. Adds self.old clause.now n self.new) }
        ensures no_memory { OnErr result (self.new ≡ self.old) }
    {
        self.store.push(clause)
    }

    /// Drops a clause. Its number is free for another.
    #[tactic(auto, using(crate::proofs::KernelLemmas::forget_rules))]
    pub fn forget(&mut self, number: u32)
        ensures clauses { self.new.clauses ≡ slice_set self.old.clauses number None }
        ensures fixed { self.new.fixed ≡ self.old.fixed }
        ensures refuted { self.new.refuted ≡ self.old.refuted }
    {
        self.store.remove(number);
    }

    pub fn is_refuted(&self) -> bool
        ensures value { result ≡ self.now.refuted }
        ensures refuted { result ≡ true → IsUnsatisfiable F.clauses }
    {
        self.is_refuted
    }

    /// The clause of a number as a message to other kernels; none if the number is free.
    #[tactic(auto, using(crate::proofs::KernelLemmas::lemma_rules))]
    pub fn lemma(&self, number: u32) -> Result<Option<Lemma<F>>, AllocError>
        ensures free { IfOk result (λ lemma. is_some lemma ≡ is_some (clause_at self.now.clauses number)) }
        ensures clause { IfOk result (λ lemma. IfSome lemma (λ l. clause_at self.now.clauses number ≡ Some l.clause.items)) }
    {
        match self.store.get(number) {
            Some(clause) => Ok(Some(lemma_of(copied(self.store.alloc(), clause)?))),
            None => Ok(None),
        }
    }

    /// A literal as a message to other kernels; none if it is no clause of its own.
    #[tactic(auto, using(crate::proofs::KernelLemmas::lemma_rules))]
    pub fn unit(&self, literal: u32) -> Result<Option<Lemma<F>>, AllocError>
        ensures fixed { IfOk result (λ lemma. is_some lemma ≡ is_fixed self.now.fixed literal) }
        ensures clause { IfOk result (λ lemma. IfSome lemma (λ l. l.clause.items ≡ literal ∷ [])) }
    {
        if !self.is_fixed(literal) {
            return Ok(None);
        }
        let mut clause = Vec::with_capacity(self.store.alloc(), 1)?;
        clause.push(literal)?;
        Ok(Some(lemma_of(clause)))
    }

    /// Adds the clause of another kernel, without a check. Returns its number.
    pub fn accept(&mut self, lemma: &Lemma<F>) -> Result<u32, AllocError>
        ensures added { IfOk result (λ n. Adds self.old lemma.now.clause.items n self.new) }
        ensures no_memory { OnErr result (self.new ≡ self.old) }
    {
        self.admit(&lemma.clause)
    }

    /// The literals of a clause; none if the number is free.
    pub fn clause(&self, number: u32) -> &[u32] {
        self.store.get(number).unwrap_or_default()
    }

    /// Whether a literal is a clause of its own.
    pub fn is_fixed(&self, literal: u32) -> bool
        ensures { result ≡ is_fixed self.now.fixed literal }
    {
        self.marks.is_fixed(literal)
    }

    /// How many literals there are: two of each variable.
    pub fn literals(&self) -> usize
        ensures { result ≡ length self.now.fixed }
    {
        self.marks.count()
    }

    /// Memory, in words of four bytes.
    pub fn words(&self) -> usize {
        self.store.words().saturating_add(self.marks.count())
    }
}
