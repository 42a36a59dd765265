ghost use Rattle.std.specs.Prelude.{◌≡◌, ◌++◌, IfOk, string_bytes};
ghost use Rattle.schedule_files.specs.ScheduleText.{place_text, schedule_text};

use mrcpsp::Schedule;
use std::alloc::AllocError;

fn put_place(text: &mut String, number: usize, mode: u32, start: u32) -> Result<(), AllocError>
    ensures { IfOk result (λ _. string_bytes text.new ≡ string_bytes text.old ++ place_text number mode start) }
{
    write!(text, " {number}:{mode}:{start}")?;
    Ok(())
}

/// Adds the words of `schedule`, each behind a blank. An error is want of memory.
#[tactic(auto, using(crate::proofs::PlaceLemmas::place_rules))]
pub fn put_schedule(text: &mut String, schedule: &Schedule) -> Result<(), AllocError>
    ensures { IfOk result (λ _. string_bytes text.new ≡ string_bytes text.old ++ schedule_text schedule.now) }
{
    let modes = schedule.modes.as_slice();
    let starts = schedule.starts.as_slice();
    for place in 0..modes.len().min(starts.len()) {
        put_place(text, place + 1, modes[place], starts[place])?;
    }
    Ok(())
}
