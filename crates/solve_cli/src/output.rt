//! What a search has found, as text.
ghost use Rattle.std.specs.Prelude.{◌≡◌, ◌++◌, IfOk, codes, string_bytes};
ghost use Rattle.std.specs.Option.{option_copied};
ghost use Rattle.solve_cli.specs.FoundText.{best_text, places_of, shown_text, better_line, found_text};
ghost use Rattle.solve_cli.specs.FoundText.{object_json, found_json};
ghost use Rattle.schedule_json.specs.ScheduleJson.{number_json};

use crate::search_result::SearchResult;
use mrcpsp::Schedule;
use schedule_files::put_schedule;
use schedule_json::{put_number_json, put_schedule_json};
use std::alloc::{AllocError, Global};

/// Adds a makespan, or `none`. An error is want of memory.
pub fn put_best(text: &mut String, makespan: Option<u32>) -> Result<(), AllocError>
    ensures { IfOk result (λ _. string_bytes text.new ≡ string_bytes text.old ++ best_text makespan) }
{
    match makespan {
        Some(makespan) => write!(text, "{makespan}")?,
        None => write!(text, "none")?,
    }
    Ok(())
}

fn put_shown(text: &mut String, found: &SearchResult) -> Result<(), AllocError>
    ensures { IfOk result (λ _. string_bytes text.new ≡ string_bytes text.old ++ shown_text found.now) }
{
    let word = found.verdict.word();
    put_best(text, found.makespan)?;
    write!(text, " {word}")?;
    Ok(())
}

fn put_places(text: &mut String, best: Option<&Schedule>) -> Result<(), AllocError>
    ensures { IfOk result (λ _. string_bytes text.new ≡ string_bytes text.old ++ places_of (option_copied best.entry)) }
{
    match best {
        Some(schedule) => put_schedule(text, schedule),
        None => Ok(()),
    }
}

/// A line of the nodes, and a line of the best schedule. An error is want of memory.
pub fn tell(alloc: Global, found: &SearchResult) -> Result<String, AllocError>
    ensures { IfOk result (λ text. string_bytes text ≡ found_text found.now) }
{
    let nodes = found.nodes;
    let mut text = String::new(alloc);
    write!(text, "nodes {nodes} best ")?;
    put_shown(&mut text, found)?;
    text.push_str("\nmakespan ")?;
    put_shown(&mut text, found)?;
    put_places(&mut text, found.best.as_ref())?;
    text.push('\n')?;
    Ok(text)
}

/// A line of `best` and of `makespan`, which is not checked, with the verdict `open`.
pub fn tell_better(alloc: Global, makespan: u32, best: &Schedule) -> Result<String, AllocError>
    ensures { IfOk result (λ text. string_bytes text ≡ better_line makespan best.now) }
{
    let mut text = String::new(alloc);
    write!(text, "makespan {makespan} open")?;
    put_schedule(&mut text, best)?;
    text.push('\n')?;
    Ok(text)
}

fn wide(makespan: Option<u32>) -> Option<u64>
    ensures { result ≡ makespan }
{
    match makespan {
        Some(makespan) => Some(makespan as u64),
        None => None,
    }
}

fn put_makespan_json(text: &mut String, makespan: Option<u32>) -> Result<(), AllocError>
    ensures { IfOk result (λ _. string_bytes text.new ≡ string_bytes text.old ++ number_json makespan) }
{
    put_number_json(text, wide(makespan))
}

fn put_object(
    text: &mut String,
    nodes: u64,
    makespan: Option<u32>,
    word: &str,
    best: Option<&Schedule>,
) -> Result<(), AllocError>
    ensures { IfOk result (λ _.
        string_bytes text.new
        ≡ string_bytes text.old ++ object_json nodes makespan word.now (option_copied best.entry)) }
{
    write!(text, "{{\"nodes\":{nodes},\"makespan\":")?;
    put_makespan_json(text, makespan)?;
    write!(text, ",\"verdict\":\"{word}\",\"schedule\":")?;
    put_schedule_json(text, best)?;
    text.push_str("}\n")
}

/// What `tell` writes, as a JSON object: `nodes`, `makespan`, `verdict` and `schedule`.
pub fn tell_json(alloc: Global, found: &SearchResult) -> Result<String, AllocError>
    ensures { IfOk result (λ text. string_bytes text ≡ found_json found.now) }
{
    let word = found.verdict.word();
    let mut text = String::new(alloc);
    put_object(
        &mut text,
        found.nodes,
        found.makespan,
        word,
        found.best.as_ref(),
    )?;
    Ok(text)
}

/// What `tell_better` writes, as a JSON object, with `nodes`.
pub fn tell_better_json(
    alloc: Global,
    nodes: u64,
    makespan: u32,
    best: &Schedule,
) -> Result<String, AllocError>
    ensures { IfOk result (λ text.
        string_bytes text ≡ object_json nodes (Some makespan) (codes "open") (Some best.now)) }
{
    let mut text = String::new(alloc);
    put_object(&mut text, nodes, Some(makespan), "open", Some(best))?;
    Ok(text)
}
