// The rows that are there from the start.
ghost use Rattle.std.specs.Prelude.{◌≡◌, ◌&&◌, IfOk};
ghost use Rattle.std.specs.Str.{bytes_eq};
ghost use Rattle.ow_names.specs.FullName.{full_text};
ghost use Rattle.ow_tables.specs.Builtin.{echo, is_builtin, utils};

use ow_entity::{Action, EntityParams, Exec, FIRST_VERSION, Limits, Package, PlainCode, Row};
use ow_names::{EntityName, FullName, read_name};
use ow_value::NoMemory;
use std::alloc::Global;

/// Whether the row has the kind and the name of one that is there from the start.
pub fn is_builtin(row: &Row) -> bool
    ensures { result ≡ is_builtin row.now }
{
    let name = row.name();
    match row {
        Row::Action(_) => is_echo(name),
        Row::Package(_) => is_utils(name),
        Row::Rule(_) | Row::Trigger(_) => false,
    }
}

/// The action that returns what it is given.
pub(crate) fn echo(alloc: Global) -> Result<Action, NoMemory>
    ensures { IfOk result (λ a. a ≡ echo) }
{
    let code = plain_code(
        alloc,
        "{\"cases\":[{\"give\":{\"$all\":true},\"when\":{}}]}",
    )?;
    let name = echo_name(alloc)?;
    Ok(Action {
        name,
        version: FIRST_VERSION,
        publish: false,
        params: EntityParams::new(),
        notes: EntityParams::new(),
        exec: Exec::Plain { code },
        limits: Limits::DEFAULT,
    })
}

fn echo_name(alloc: Global) -> Result<FullName, NoMemory>
    ensures { IfOk result (λ n. n ≡ echo.name) }
{
    let namespace = name(alloc, "whisk.system")?;
    let package = name(alloc, "utils")?;
    let name = name(alloc, "echo")?;
    Ok(FullName {
        namespace,
        package: Some(package),
        name,
    })
}

/// The package in which it lies.
pub(crate) fn utils(alloc: Global) -> Result<Package, NoMemory>
    ensures { IfOk result (λ p. p ≡ utils) }
{
    let namespace = name(alloc, "whisk.system")?;
    let name = name(alloc, "utils")?;
    Ok(Package {
        name: FullName {
            namespace,
            package: None,
            name,
        },
        version: FIRST_VERSION,
        publish: true,
        params: EntityParams::new(),
        notes: EntityParams::new(),
        binding: None,
    })
}

// Whether the name is that of the action.
fn is_echo(name: &FullName) -> bool
    ensures { result ≡ bytes_eq (full_text name.now) (full_text echo.name) }
{
    let namespace = name.namespace.as_str();
    let local = name.name.as_str();
    match &name.package {
        Some(bundle) => is_echo_in(namespace, bundle.as_str(), local),
        None => false,
    }
}

fn is_echo_in(namespace: &str, bundle: &str, local: &str) -> bool
    ensures { result ≡ (bytes_eq namespace.now echo.name.namespace && (bytes_eq bundle.now utils.name.name && bytes_eq local.now echo.name.name)) }
{
    namespace == "whisk.system" && bundle == "utils" && local == "echo"
}

// Whether the name is that of the package.
fn is_utils(name: &FullName) -> bool
    ensures { result ≡ bytes_eq (full_text name.now) (full_text utils.name) }
{
    let namespace = name.namespace.as_str();
    let local = name.name.as_str();
    match &name.package {
        Some(bundle) => {
            let _name = bundle.as_str();
            false
        }
        None => is_utils_in(namespace, local),
    }
}

fn is_utils_in(namespace: &str, local: &str) -> bool
    ensures { result ≡ (bytes_eq namespace.now utils.name.namespace && bytes_eq local.now utils.name.name) }
{
    namespace == "whisk.system" && local == "utils"
}

// The text is a name, so this fails only if out of memory.
fn name(alloc: Global, text: &str) -> Result<EntityName, NoMemory>
    ensures { IfOk result (λ n. n ≡ text.now) }
{
    read_name(alloc, text.as_bytes()).map_err(|_| NoMemory)
}

// The text is plain code, so this fails only if out of memory.
fn plain_code(alloc: Global, text: &str) -> Result<PlainCode, NoMemory>
    ensures { IfOk result (λ c. c ≡ text.now) }
{
    PlainCode::read(alloc, text).map_err(|_| NoMemory)
}
