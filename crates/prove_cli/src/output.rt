//! An answer as text.
ghost use Rattle.std.specs.Prelude.{◌≡◌, ◌++◌, IfOk, string_bytes, drop};
ghost use Rattle.std.specs.Option.{option_copied};
ghost use Rattle.prover.specs.declared.known.Answer.TheVariants as told;
ghost use Rattle.prove_cli.specs.Proved.{answer_text, schedule_line, IsLedByBlank};
ghost use Rattle.prove_cli.specs.Proved.{better_line, seconds_json, cost_json, verdict_json, object_json, answer_json, told_text};
ghost use Rattle.schedule_files.specs.ScheduleText.{schedule_text};

use crate::cost::Cost;
use mrcpsp::Schedule;
use prover::{Answer, BestKnown};
use schedule_files::put_schedule;
use schedule_json::{put_number_json, put_schedule_json};
use std::alloc::{AllocError, Global};

/// The words behind the first blank.
#[tactic(auto, using(crate::proofs::LineLemmas::blank_rules))]
fn behind_blank(words: &str) -> &str
    requires { IsLedByBlank words.now }
    ensures { result.now ≡ drop 1 words.now }
{
    match words.strip_prefix(' ') {
        Some(rest) => rest,
        None => words,
    }
}

#[tactic(auto, using(crate::proofs::LineLemmas::line_rules))]
fn words_of(alloc: Global, schedule: &Schedule) -> Result<String, AllocError>
    ensures { IfOk result (λ words. string_bytes words ≡ schedule_text schedule.now) }
{
    let mut words = String::new(alloc);
    put_schedule(&mut words, schedule)?;
    Ok(words)
}

#[tactic(auto, using(crate::proofs::LineLemmas::line_rules))]
fn put_line(alloc: Global, text: &mut String, schedule: &Schedule) -> Result<(), AllocError>
    ensures { IfOk result (λ _. string_bytes text.new ≡ string_bytes text.old ++ schedule_line schedule.now) }
{
    let words = words_of(alloc, schedule)?;
    text.push_str(behind_blank(&words))?;
    text.push('\n')?;
    Ok(())
}

/// The verdict in a line, and the words of the schedule in a second one. An error is want of memory.
pub fn tell(alloc: Global, answer: &Answer) -> Result<String, AllocError>
    ensures { IfOk result (λ text. string_bytes text ≡ answer_text answer.now) }
{
    let mut text = String::new(alloc);
    match answer {
        Answer::Optimal(best) => {
            let makespan = best.makespan;
            write!(text, "optimal {makespan}\n")?;
            put_line(alloc, &mut text, &best.schedule)?;
        }
        Answer::Gap(best, bound) => {
            let makespan = best.makespan;
            write!(text, "makespan {makespan} at least {bound}\n")?;
            put_line(alloc, &mut text, &best.schedule)?;
        }
        Answer::AtLeast(bound) => write!(text, "at least {bound}\n")?,
        Answer::Infeasible => text.push_str("infeasible\n")?,
    }
    Ok(text)
}

/// A line of a better schedule, as `solve` prints it. An error is want of memory.
pub(crate) fn tell_better(alloc: Global, best: &BestKnown) -> Result<String, AllocError>
    ensures { IfOk result (λ text. string_bytes text ≡ better_line best.now.makespan best.now.schedule) }
{
    let makespan = best.makespan;
    let mut text = String::new(alloc);
    write!(text, "makespan {makespan} open")?;
    put_schedule(&mut text, &best.schedule)?;
    text.push('\n')?;
    Ok(text)
}

fn put_seconds(text: &mut String, cost: Cost) -> Result<(), AllocError>
    ensures { IfOk result (λ _. string_bytes text.new ≡ string_bytes text.old ++ seconds_json cost) }
{
    let (seconds, tenths) = (cost.seconds, cost.tenths);
    write!(text, ",\"seconds\":{seconds}.{tenths}")?;
    Ok(())
}

fn put_cost(text: &mut String, cost: Cost) -> Result<(), AllocError>
    ensures { IfOk result (λ _. string_bytes text.new ≡ string_bytes text.old ++ cost_json cost) }
{
    let jobs = cost.jobs;
    put_seconds(text, cost)?;
    write!(text, ",\"jobs\":{jobs},\"conflicts\":")?;
    put_number_json(text, cost.conflicts)?;
    Ok(())
}

fn put_verdict(
    text: &mut String,
    word: &str,
    makespan: Option<u64>,
    bound: Option<u64>,
) -> Result<(), AllocError>
    ensures { IfOk result (λ _.
        string_bytes text.new ≡ string_bytes text.old ++ verdict_json word.now makespan bound) }
{
    write!(text, "{{\"verdict\":\"{word}\",\"makespan\":")?;
    put_number_json(text, makespan)?;
    text.push_str(",\"bound\":")?;
    put_number_json(text, bound)?;
    Ok(())
}

fn put_object(
    text: &mut String,
    word: &str,
    makespan: Option<u64>,
    bound: Option<u64>,
    best: Option<&Schedule>,
    cost: Cost,
) -> Result<(), AllocError>
    ensures { IfOk result (λ _.
        string_bytes text.new
        ≡ string_bytes text.old ++ object_json word.now makespan bound (option_copied best.entry) cost) }
{
    put_verdict(text, word, makespan, bound)?;
    text.push_str(",\"schedule\":")?;
    put_schedule_json(text, best)?;
    put_cost(text, cost)?;
    text.push_str("}\n")?;
    Ok(())
}

/// A schedule with a bound, as the JSON object of an answer. An error is want of memory.
pub fn tell_gap_json(
    alloc: Global,
    best: &BestKnown,
    bound: u32,
    cost: Cost,
) -> Result<String, AllocError>
    ensures { IfOk result (λ text. string_bytes text ≡ answer_json (told.Gap best.now bound) cost) }
{
    let (makespan, schedule) = (best.makespan as u64, &best.schedule);
    let mut text = String::new(alloc);
    put_object(
        &mut text,
        "gap",
        Some(makespan),
        Some(bound as u64),
        Some(schedule),
        cost,
    )?;
    Ok(text)
}

/// The answer as a JSON object on one line. An error is want of memory.
pub fn tell_json(alloc: Global, answer: &Answer, cost: Cost) -> Result<String, AllocError>
    ensures { IfOk result (λ text. string_bytes text ≡ answer_json answer.now cost) }
{
    let mut text = String::new(alloc);
    match answer {
        Answer::Optimal(best) => {
            let (makespan, schedule) = (Some(best.makespan as u64), Some(&best.schedule));
            put_object(&mut text, "optimal", makespan, makespan, schedule, cost)?;
        }
        Answer::Gap(best, bound) => return tell_gap_json(alloc, best, *bound, cost),
        Answer::AtLeast(bound) => put_object(
            &mut text,
            "open",
            None,
            Some(*bound as u64),
            None,
            cost,
        )?,
        Answer::Infeasible => put_object(&mut text, "infeasible", None, None, None, cost)?,
    }
    Ok(text)
}

/// `tell_json`, or `tell` if `is_json` is not set.
pub(crate) fn output_text(
    alloc: Global,
    is_json: bool,
    answer: &Answer,
    cost: Cost,
) -> Result<String, AllocError>
    ensures { IfOk result (λ text. string_bytes text ≡ told_text is_json answer.now cost) }
{
    if is_json {
        tell_json(alloc, answer, cost)
    } else {
        tell(alloc, answer)
    }
}
