//! One question, asked by several searches that tell each other what they learn (Hamadi, Jabbour and
//! Sais 2009).
ghost use Rattle.std.specs.Prelude.{◌≡◌, IfOk, IfSome};
ghost use Rattle.clause_kernel.specs.Clauses.{IsUnsatisfiable};
ghost use Rattle.schedule_prices.specs.Choices.{EachExceeds};
ghost use Rattle.schedule_clauses.specs.Satisfied.{SatisfiedByShort};
ghost use Rattle.prover.specs.Decided.{IsDecided};

use crate::board::MessageBoard;
use crate::decide::{Decision, found_by, schedule_of};
use crate::herald::Herald;
use crate::known::{Question, Subject};
use crate::lanes::SLICE;
use crate::shared_work::SharedWork;
use clause_kernel::Kernel;
use clause_search::{Search, SearchAnswer, SearchLimits};
use schedule_clauses::{CertificateFault, ScheduleFormula, open_clauses};
use std::alloc::AllocError;
use std::marker::Brand;
use std::sync::{Mutex, Wait};
use std::thread;
use std::thread::Threads;
use std::time::Clock;

/// The most levels of the literals of a clause that searches tell each other.
const MOST_GLUE: u32 = 8;

/// How a search of a team begins.
#[derive(Clone, Copy, Debug, PartialEq, Eq)]
enum TeamStyle {
    /// Variables are false first.
    Plain,
    /// They are true first.
    TrueFirst,
    /// It aims at values.
    Values,
}

/// A `Member` is a search of a team.
#[derive(Clone, Copy, Debug)]
struct Member {
    place: usize,
    style: TeamStyle,
}

/// The most searches of a team.
const MOST_MEMBERS: usize = 3;

/// How the search at a place begins. That a schedule is found is likely with the last question alone.
fn style_at(place: usize, is_last: bool) -> TeamStyle {
    match place {
        0 => TeamStyle::Plain,
        1 => TeamStyle::TrueFirst,
        _ => {
            if is_last {
                TeamStyle::Values
            } else {
                TeamStyle::Plain
            }
        }
    }
}

/// A `Team` is what the searches of a question share.
#[derive(Drop)]
struct Team<'a, 'b, F: Subject, L: clause_kernel::Formula, R, H> {
    shared: &'a SharedWork<'b, F, R, H>,
    question: Question,
    formula: &'a ScheduleFormula,
    board: &'a Mutex<MessageBoard<L>>,
    ghost clauses: { formula.now.clauses ≡ L.clauses },
    ghost refutes: { IsUnsatisfiable L.clauses → EachExceeds F.project question.within },
}

fn prepare(search: &mut Search, style: TeamStyle) {
    search.tell_up_to(MOST_GLUE);
    match style {
        TeamStyle::Plain => {}
        TeamStyle::TrueFirst => search.begin_with_true(),
        TeamStyle::Values => search.prefer_values(),
    }
}

impl<F: Subject, L: clause_kernel::Formula, R: Wait + Clock, H: Herald> Team<'_, '_, F, L, R, H> {
    /// The end of a search, or `None` if it goes on.
    fn decision_of(
        &self,
        kernel: &Kernel<L>,
        search: &Search,
        answer: SearchAnswer,
    ) -> Result<Option<Decision>, AllocError>
        ensures { IfOk result (λ decision. IfSome decision (IsDecided F.project self.now.question.within)) }
    {
        if kernel.is_refuted() {
            return Ok(Some(Decision::None));
        }
        if answer == SearchAnswer::Satisfied {
            let (alloc, project) = (self.shared.alloc, self.shared.project);
            let meanings = &self.formula.meanings;
            let schedule = schedule_of(alloc, project.size(), meanings, search.values())?;
            return Ok(Some(found_by(project, self.question.within, schedule)));
        }
        let has_ended = answer == SearchAnswer::Full
            || search.refused() > 0
            || search.conflicts() >= self.shared.limits.conflicts;
        Ok(if has_ended {
            Some(Decision::Open)
        } else {
            None
        })
    }

    /// Sends what a search has learned to the others, and takes what they have sent. Returns the
    /// number of all messages.
    fn exchange(
        &self,
        place: usize,
        search: &mut Search,
        kernel: &mut Kernel<L>,
        seen: u64,
    ) -> Result<u64, AllocError> {
        let shared = self.shared;
        let told = search.tell(kernel)?;
        let mut board = self.board.lock(shared.deadline.rt);
        for sent in board.since(seen) {
            if sent.sender != place {
                search.take(kernel, &sent.message)?;
            }
        }
        board.post(place, told)?;
        Ok(board.count())
    }

    /// Searches until the question is decided or moot, or the limits are met.
    fn search(&self, member: Member) -> Result<(), AllocError> {
        let shared = self.shared;
        let clauses = &self.formula.clauses;
        let words = shared.limits.words;
        let mut kernel = Kernel::<L>::new(shared.alloc, clauses)?;
        let mut search = Search::new(shared.alloc, clauses, SearchLimits { words })?;
        prepare(&mut search, member.style);
        let mut seen = 0;
        for _ in shared.deadline.rt.forever() {
            if shared.deadline.is_over() || shared.is_moot(self.question) {
                break;
            }
            let left = shared.limits.conflicts.saturating_sub(search.conflicts());
            let answer = search.run(&mut kernel, SLICE.min(left))?;
            if let Some(decision) = self.decision_of(&kernel, &search, answer)? {
                shared.take_in(self.question, decision);
                break;
            }
            seen = self.exchange(member.place, &mut search, &mut kernel, seen)?;
        }
        shared.count(search.conflicts());
        Ok(())
    }

    /// Want of memory ends a member alone.
    fn join(&self, member: Member) {
        let _ = self.search(member);
    }
}

/// One worker improves, and the others ask together.
fn members<F: Subject, R: Wait + Clock, H: Herald>(
    shared: &SharedWork<'_, F, R, H>,
    question: Question,
) -> Result<Vec<Member>, AllocError> {
    let (_, makespan) = shared.gap();
    let is_last = makespan == question.within.checked_add(1);
    let mut members = Vec::with_capacity(shared.alloc, MOST_MEMBERS)?;
    for place in 0..MOST_MEMBERS {
        if place + 1 < shared.jobs {
            let style = style_at(place, is_last);
            members.push(Member { place, style })?;
        }
    }
    Ok(members)
}

#[tactic(auto, using(crate::proofs::DecideLemmas::decide_rules))]
fn ask_as<
    F: Subject + Send + Sync,
    L: clause_kernel::Formula + Send + Sync,
    R: Threads + Wait + Clock + Sync,
    H: Herald + Sync,
>(
    shared: &SharedWork<'_, F, R, H>,
    question: Question,
    formula: &ScheduleFormula,
) -> Result<(), AllocError>
    requires clauses { formula.now.clauses ≡ L.clauses }
    requires short { SatisfiedByShort F.project question.within L.clauses }
{
    let members = members(shared, question)?;
    let board = Mutex::new(MessageBoard::<L>::new(shared.alloc));
    let team = Team {
        shared,
        question,
        formula,
        board: &board,
    };
    let team = &team;
    thread::map_vec(
        shared.deadline.rt,
        members,
        &|member: Member| -> () { team.join(member) },
    )?;
    Ok(())
}

/// Asks the question by searches in threads of their own. Only want of memory is an
/// error; a question of too many clauses decides nothing.
pub(crate) fn ask_together<
    F: Subject + Send + Sync,
    R: Threads + Wait + Clock + Sync,
    H: Herald + Sync,
>(shared: &SharedWork<'_, F, R, H>, question: Question) -> Result<(), AllocError> {
    match open_clauses(shared.alloc, shared.project, question.within) {
        Ok(Some(formula)) => ask_as::<F, Brand, R, H>(shared, question, &formula),
        Ok(None) => {
            shared.take_in(question, Decision::None);
            Ok(())
        }
        Err(CertificateFault::NoMemory) => Err(AllocError),
        Err(_) => Ok(()),
    }
}
