//! What is known of a project: the best schedule, and a lower bound.
ghost use Rattle.std.specs.Prelude.{◌≡◌, ◌+◌, ◌≤◌, ◌<◌, ◌⊎◌, ℕ, [], true, false, IfSome, IsSomeAnd, Some, None, option_map};
ghost use Rattle.std.specs.Option.{option_copied};
ghost use Rattle.mrcpsp.specs.Project.{ProjectData};
ghost use Rattle.mrcpsp.specs.Schedule.{IsInfeasible};
ghost use Rattle.price_search.specs.LowerBound.{TakesAtLeast};
ghost use Rattle.prover.specs.Known.{IsBest, IsOpen, is_decided};
ghost use Rattle.prover.specs.Answers.{IsAnswer, Tells};

use mrcpsp::Schedule;
use std::marker::{Brand, Model, PhantomData};

/// A project that is known to proofs alone. Each call of a program picks its own.
pub trait Subject {
    ghost project: { ProjectData };
}

impl Subject for Brand {
    ghost use Rattle.std.specs.Prelude.{[]};

    ghost project = { record { activities = []; renewable = []; nonrenewable = [] } };
}

/// A `BestKnown` is a feasible schedule with its makespan in periods.
#[derive(Debug, Drop)]
pub struct BestKnown {
    pub schedule: Schedule,
    pub makespan: u32,
}

/// An `Answer` is what is known of a project in the end.
#[derive(Debug, Drop)]
pub enum Answer {
    /// No feasible schedule is shorter.
    Optimal(BestKnown),
    /// No feasible schedule takes fewer periods than the bound.
    Gap(BestKnown, u32),
    /// No schedule was found, and none takes fewer periods.
    AtLeast(u32),
    /// No schedule is feasible.
    Infeasible,
}

/// A `Question` is whether a feasible schedule takes at most `within` periods.
#[derive(Clone, Copy, Debug, PartialEq, Eq)]
pub struct Question {
    pub within: u32,
}

/// `Known` is the best schedule of the project `F` so far, and a lower bound of all makespans.
#[derive(Drop)]
pub struct Known<F: Subject> {
    best: Option<BestKnown>,
    bound: u32,
    is_infeasible: bool,
    of: PhantomData<F>,
}

impl<F: Subject> Model for Known<F> {
    ghost use Rattle.prover.specs.Known.{Facts, IsTrue};

    ghost Value = { Facts };

    ghost view = { λ k. record { best = k.best; bound = k.bound; infeasible = k.is_infeasible } };

    ghost invariant = { λ k. IsTrue F.project (record { best = k.best; bound = k.bound; infeasible = k.is_infeasible }) };
}

impl<F: Subject> Known<F> {
    #[tactic(auto, using(crate::proofs::KnownLemmas::new_rules))]
    pub fn new() -> Known<F>
        ensures { result ≡ record { best = None; bound = 0; infeasible = false } }
    {
        Known {
            best: None,
            bound: 0,
            is_infeasible: false,
            of: PhantomData,
        }
    }

    /// Keeps a schedule if it is shorter than the best one. Returns whether it is.
    #[tactic(auto, using(crate::proofs::KnownLemmas::known_rules))]
    pub fn offer(&mut self, found: BestKnown) -> bool
        requires { IsBest F.project found }
        ensures bound { self.new.bound ≡ self.old.bound }
        ensures infeasible { self.new.infeasible ≡ self.old.infeasible }
        ensures taken { result ≡ true → self.new.best ≡ Some found }
        ensures shorter { result ≡ true → IfSome self.old.best (λ best. found.makespan < best.makespan) }
        ensures left { result ≡ false → self.new ≡ self.old }
        ensures kept { IsSomeAnd self.new.best (λ best. best.makespan ≤ found.makespan) }
    {
        if let Some(best) = &self.best
            && best.makespan <= found.makespan
        {
            return false;
        }
        self.best = Some(found);
        true
    }

    /// Raises the bound. Returns whether it was lower.
    #[tactic(auto, using(crate::proofs::KnownLemmas::known_rules))]
    pub fn raise(&mut self, bound: u32) -> bool
        requires { TakesAtLeast F.project bound }
        ensures best { self.new.best ≡ self.old.best }
        ensures infeasible { self.new.infeasible ≡ self.old.infeasible }
        ensures taken { result ≡ true → self.new.bound ≡ bound }
        ensures left { result ≡ false → self.new ≡ self.old }
        ensures known { bound ≤ self.new.bound }
    {
        if bound <= self.bound {
            return false;
        }
        self.bound = bound;
        true
    }

    /// No schedule is feasible.
    #[tactic(auto, using(crate::proofs::KnownLemmas::known_rules))]
    pub fn rule_out(&mut self)
        requires { IsInfeasible F.project }
        ensures best { self.new.best ≡ self.old.best }
        ensures bound { self.new.bound ≡ self.old.bound }
        ensures infeasible { self.new.infeasible ≡ true }
    {
        self.is_infeasible = true;
    }

    /// The lower bound in periods.
    pub fn bound(&self) -> u32
        ensures exact { result ≡ self.now.bound }
        ensures least { TakesAtLeast F.project result }
    {
        self.bound
    }

    /// The best schedule so far.
    pub fn best(&self) -> Option<&BestKnown>
        ensures exact { option_copied result ≡ self.now.best }
        ensures feasible { IfSome (option_copied result) (IsBest F.project) }
    {
        self.best.as_ref()
    }

    /// The makespan of the best schedule, in periods.
    pub fn makespan(&self) -> Option<u32>
        ensures { result ≡ option_map (λ best. best.makespan) self.now.best }
    {
        match &self.best {
            Some(best) => Some(best.makespan),
            None => None,
        }
    }

    /// Whether nothing is open.
    pub fn is_decided(&self) -> bool
        ensures { result ≡ is_decided self.now }
    {
        if self.is_infeasible {
            return true;
        }
        match &self.best {
            Some(best) => best.makespan <= self.bound,
            None => false,
        }
    }

    /// Whether the answer to a question would change nothing.
    #[tactic(auto, using(crate::proofs::KnownLemmas::known_rules))]
    pub fn is_moot(&self, question: Question) -> bool
        ensures open { result ≡ false → IsOpen self.now question }
        ensures moot { result ≡ true → (self.now.infeasible ≡ true) ⊎ (IsOpen self.now question → ⊥) }
    {
        if self.is_infeasible || question.within < self.bound {
            return true;
        }
        match &self.best {
            Some(best) => best.makespan <= question.within,
            None => false,
        }
    }

    /// What is known, as an answer.
    #[tactic(auto, using(crate::proofs::KnownLemmas::answer_rules))]
    pub fn into_answer(self) -> Answer
        ensures holds { IsAnswer F.project result }
        ensures told { Tells self result }
    {
        if self.is_infeasible {
            return Answer::Infeasible;
        }
        let bound = self.bound;
        match self.best {
            Some(best) => {
                if best.makespan <= bound {
                    Answer::Optimal(best)
                } else {
                    Answer::Gap(best, bound)
                }
            }
            None => Answer::AtLeast(bound),
        }
    }
}
