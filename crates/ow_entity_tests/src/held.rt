// What tests hold. It is in boxes, since each return path of a function drops what the function holds: a box by one
// call, a row by its variants and their fields.
use ow_entity::{EntityKind, EntityRefusal, Row, finish, read_entity};
use ow_names::{FullName, read_name, resolve};
use ow_value::{Val, read_val};
use std::alloc::Global;
use std::fmt::Debug;
use std::test::Fail;

/// The value, in a box.
pub(crate) fn boxed<T: Drop, E: Debug + Drop>(
    alloc: Global,
    made: Result<T, E>,
) -> Result<Box<T>, Fail> {
    match Box::new(alloc, made?) {
        Ok(held) => Ok(held),
        Err(_) => Err("no memory")?,
    }
}

/// The name of the path, with the namespace guest.
pub(crate) fn name_of(alloc: Global, path: &str) -> Result<Box<FullName>, Fail> {
    let guest = boxed(alloc, read_name(alloc, b"guest"))?;
    boxed(alloc, resolve(alloc, path, &guest))
}

/// The value of the JSON text.
pub(crate) fn value_of(alloc: Global, text: &str) -> Result<Box<Val>, Fail> {
    boxed(alloc, read_val(alloc, text.as_bytes()))
}

/// The action that a body makes over an old row.
pub(crate) fn made(
    alloc: Global,
    name: &FullName,
    body: &Val,
    old: Option<&Row>,
) -> Result<Row, EntityRefusal> {
    let draft = read_entity(alloc, EntityKind::Action, name, body)?;
    finish(alloc, draft, old)
}
