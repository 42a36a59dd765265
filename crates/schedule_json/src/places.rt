//! The objects of activities, in an array.
ghost use Rattle.std.specs.Prelude.{◌≡◌, ◌++◌, ◌+◌, ◌<◌, ◌^◌, IfOk, string_bytes};
ghost use Rattle.std.specs.Option.{option_copied};
ghost use Rattle.schedule_json.specs.ScheduleJson.{comma_before, next_json, places_json, schedule_json, number_json};

use mrcpsp::Schedule;
use std::alloc::AllocError;

fn comma_before(place: usize) -> &'static str
    ensures { result.now ≡ comma_before place }
{
    if place == 0 { "" } else { "," }
}

fn put_place_json(text: &mut String, place: usize, mode: u32, start: u32) -> Result<(), AllocError>
    requires { place + 1 < 2 ^ 64 }
    ensures { IfOk result (λ _. string_bytes text.new ≡ string_bytes text.old ++ next_json place mode start) }
{
    let comma = comma_before(place);
    let number = place + 1;
    write!(
        text,
        "{comma}{{\"activity\":{number},\"mode\":{mode},\"start\":{start}}}"
    )?;
    Ok(())
}

#[tactic(auto, using(crate::proofs::JsonLemmas::json_rules))]
fn put_places_json(text: &mut String, schedule: &Schedule) -> Result<(), AllocError>
    ensures { IfOk result (λ _.
        string_bytes text.new ≡ string_bytes text.old ++ places_json 0 schedule.now.modes schedule.now.starts) }
{
    let modes = schedule.modes.as_slice();
    let starts = schedule.starts.as_slice();
    for place in 0..modes.len().min(starts.len()) {
        put_place_json(text, place, modes[place], starts[place])?;
    }
    Ok(())
}

fn put_array(text: &mut String, schedule: &Schedule) -> Result<(), AllocError>
    ensures { IfOk result (λ _. string_bytes text.new ≡ string_bytes text.old ++ schedule_json (Some schedule.now)) }
{
    text.push('[')?;
    put_places_json(text, schedule)?;
    text.push(']')
}

/// Adds the array of a schedule, or `null`. An error is want of memory.
pub fn put_schedule_json(text: &mut String, best: Option<&Schedule>) -> Result<(), AllocError>
    ensures { IfOk result (λ _.
        string_bytes text.new ≡ string_bytes text.old ++ schedule_json (option_copied best.entry)) }
{
    match best {
        Some(schedule) => put_array(text, schedule),
        None => text.push_str("null"),
    }
}

/// Adds a number, or `null`. An error is want of memory.
pub fn put_number_json(text: &mut String, number: Option<u64>) -> Result<(), AllocError>
    ensures { IfOk result (λ _. string_bytes text.new ≡ string_bytes text.old ++ number_json number) }
{
    match number {
        Some(number) => write!(text, "{number}")?,
        None => text.push_str("null")?,
    }
    Ok(())
}
