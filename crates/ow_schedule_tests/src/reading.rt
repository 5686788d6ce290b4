// Schedules that tests read from JSON texts.
use ow_schedule::{AlarmRefusal, Schedule, due_moments, read_schedule, refusal_text};
use ow_value::{NoMemory, read_val};
use std::alloc::Global;
use std::test::Fail;

/// The schedule of a JSON text, or why there is none.
pub(crate) fn read(alloc: Global, text: &str) -> Result<Result<Schedule, AlarmRefusal>, Fail> {
    let value = read_val(alloc, text.as_bytes())?;
    Ok(read_schedule(alloc, &value))
}

fn numbers_text(alloc: Global, numbers: &[u64]) -> Result<String, NoMemory> {
    let mut text = String::new(alloc);
    for number in numbers {
        if !text.is_empty() {
            text.push_str(" ")?;
        }
        let digits = format!(in alloc; "{number}")?;
        text.push_str(digits.as_str())?;
    }
    Ok(text)
}

fn moments_text(
    alloc: Global,
    schedule: &Schedule,
    since: u64,
    until: u64,
) -> Result<String, NoMemory> {
    let moments = due_moments(alloc, schedule, since, until)?;
    numbers_text(alloc, moments.as_slice())
}

/// The due moments of a range with a space between them, or the text of the refusal.
pub(crate) fn shown(alloc: Global, text: &str, since: u64, until: u64) -> Result<String, Fail> {
    match read(alloc, text)? {
        Ok(schedule) => Ok(moments_text(alloc, &schedule, since, until)?),
        Err(refusal) => {
            let text = refusal_text(alloc, refusal)?;
            Ok(format!(in alloc; "{}", text.as_str())?)
        }
    }
}

/// Fails with the text, where it isn't the wanted one.
pub(crate) fn equals(text: String, wanted: &str) -> Result<(), Fail> {
    if text.as_str() == wanted {
        Ok(())
    } else {
        Err(Fail::new(text))
    }
}
