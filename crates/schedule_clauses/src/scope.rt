//! Clauses that hold of all schedules of a scope.
ghost use Rattle.std.specs.Prelude.{◌≡◌, ◌++◌, ◌∷◌, [], IfOk};
ghost use Rattle.schedule_clauses.specs.Meaning.{IsValid};

use crate::encoding::Encoding;
use crate::formula::{CapacityRow, ScheduleFormula, Section, SectionKind};
use crate::meaning::Term;
use mrcpsp::Project;
use std::alloc::{AllocError, Global};
use std::marker::Model;

/// A `Scope` is the feasible schedules of a project; with a limit, those of at most this makespan.
#[derive(Clone, Copy)]
pub(crate) struct Scope<'a> {
    pub(crate) project: &'a Project,
    pub(crate) limit: Option<u32>,
}

/// A `Clauses` is clauses that each schedule of a scope satisfies. Contracts see the scope, the
/// kinds of the sections that are ended, and the rows left out.
#[derive(Drop)]
pub(crate) struct Clauses<'a> {
    scope: Scope<'a>,
    encoding: Encoding,
    sections: Vec<Section>,
    /// The number of clauses in sections.
    counted: usize,
    left_out: Vec<CapacityRow>,
}

impl<'a> Model for Clauses<'a> {
    ghost use Rattle.schedule_clauses.specs.Encoding.{ScopeData};
    ghost use Rattle.schedule_clauses.specs.Sections.{AreWhole, kinds_of};

    ghost Value = { ScopeData };

    ghost view = { λ c. record { project = c.scope.project.now; limit = c.scope.limit; kinds = kinds_of c.sections.items; left_out = c.left_out.items } };

    ghost invariant = { λ c. AreWhole c.scope.project.now c.scope.limit c.encoding c.sections.items c.counted c.left_out.items };
}

impl<'a> Clauses<'a> {
    ghost use Rattle.schedule_clauses.specs.Encoding.{AreGood};
    ghost use Rattle.schedule_clauses.specs.Sections.{AreSections, with_kind};
    ghost use Rattle.schedule_clauses.specs.LeftOut.{AreLeftOut, AreBefore, IsRowOf, with_row};

    #[tactic(auto, using(crate::proofs::EncodingLemmas::new_rules, crate::proofs::LeftOutLemmas::scope_rules))]
    pub(crate) fn new(alloc: Global, scope: Scope<'a>) -> Result<Clauses<'a>, AllocError>
        ensures project { IfOk result (λ clauses. clauses.project ≡ scope.entry.project.now) }
        ensures limit { IfOk result (λ clauses. clauses.limit ≡ scope.entry.limit) }
        ensures kinds { IfOk result (λ clauses. clauses.kinds ≡ []) }
        ensures left_out { IfOk result (λ clauses. clauses.left_out ≡ []) }
    {
        let encoding = Encoding::new(alloc)?;
        Ok(Clauses {
            scope,
            encoding,
            sections: Vec::new(alloc),
            counted: 0,
            left_out: Vec::new(alloc),
        })
    }

    pub(crate) fn scope(&self) -> Scope<'a>
        ensures project { result.project.now ≡ self.now.project }
        ensures limit { result.limit ≡ self.now.limit }
    {
        self.scope
    }

    pub(crate) fn alloc(&self) -> Global {
        self.encoding.alloc
    }

    pub(crate) fn add(&mut self, terms: &[Term]) -> Result<(), AllocError>
        requires { IsValid self.old.project self.old.limit terms.now }
        ensures { self.new ≡ self.old }
    {
        self.encoding.add(self.scope, terms)
    }

    /// The clauses behind the last section are one of this kind.
    #[tactic(auto, using(crate::proofs::LeftOutLemmas::scope_rules))]
    pub(crate) fn end_section(&mut self, kind: SectionKind) -> Result<(), AllocError>
        ensures { IfOk result (λ _. self.new ≡ with_kind kind self.old) }
    {
        let all = self.encoding.clauses.len();
        let count = all - self.counted;
        self.sections.push(Section { kind, count })?;
        self.counted = all;
        Ok(())
    }

    #[tactic(auto, using(crate::proofs::LeftOutLemmas::scope_rules))]
    pub(crate) fn leave_out(&mut self, row: CapacityRow) -> Result<(), AllocError>
        requires row { IsRowOf self.old.project self.old.limit row }
        requires before { AreBefore self.old.left_out row }
        ensures { IfOk result (λ _. self.new ≡ with_row row self.old) }
    {
        self.left_out.push(row)?;
        Ok(())
    }

    /// Ends the last section.
    #[tactic(auto, using(crate::proofs::LeftOutLemmas::scope_rules))]
    pub(crate) fn into_formula(self, kind: SectionKind) -> Result<ScheduleFormula, AllocError>
        ensures good { IfOk result (λ formula.
            AreGood self.entry.project self.entry.limit formula.meanings.items formula.clauses) }
        ensures sections { IfOk result (λ formula.
            AreSections (self.entry.kinds ++ kind ∷ []) formula.sections.items formula.clauses) }
        ensures left_out { IfOk result (λ formula.
            AreLeftOut self.entry.project self.entry.limit formula.left_out.items) }
    {
        let encoding = self.encoding;
        let clauses = encoding.clauses;
        let meanings = encoding.meanings;
        let mut sections = self.sections;
        let left_out = self.left_out;
        let count = clauses.len() - self.counted;
        sections.push(Section { kind, count })?;
        Ok(ScheduleFormula {
            clauses,
            meanings,
            sections,
            left_out,
        })
    }
}
