// What tests hold and compare. What they hold is in boxes, since each return path of a function drops what the function
// holds: a box by one call, a record by its fields and their variants.
use ow_value::{NoMemory, PlainData};
use std::alloc::Global;
use std::fmt::Debug;
use std::test::Fail;

/// The value, in a box.
pub(crate) fn held<T: Drop>(alloc: Global, value: T) -> Result<Box<T>, Fail> {
    match Box::new(alloc, value) {
        Ok(held) => Ok(held),
        Err(_) => Err("no memory")?,
    }
}

/// What was made, in a box.
pub(crate) fn boxed<T: Drop, E: Debug + Drop>(
    alloc: Global,
    made: Result<T, E>,
) -> Result<Box<T>, Fail> {
    held(alloc, made?)
}

/// Fails with the text, where it isn't the wanted one.
pub(crate) fn equals(text: String, wanted: &str) -> Result<(), Fail> {
    if text.as_str() == wanted {
        Ok(())
    } else {
        Err(Fail::new(text))
    }
}

/// Fails with the case, where the fact doesn't hold there.
pub(crate) fn holds(fact: bool, case: &str) -> Result<(), Fail> {
    if fact { Ok(()) } else { Err(Fail::new(case)) }
}

/// Whether a copy of the value is equal to it, and not to the other one.
pub(crate) fn is_told_from<T: PlainData + Drop>(
    alloc: Global,
    value: &T,
    other: &T,
) -> Result<bool, NoMemory> {
    let copied = value.copy(alloc)?;
    Ok(copied.same(value) && !copied.same(other))
}
