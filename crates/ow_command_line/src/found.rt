// What was found for single options.
ghost use Rattle.std.specs.Prelude.{◌≡◌, ◌≤◌, IfOk, IfSome, codes};
ghost use Rattle.ow_value.specs.Decimal.{number_within};
ghost use Rattle.ow_command_line.specs.Parse.{values_found};
ghost use Rattle.ow_command_line.specs.Words.{connections_of, port_of, workers_of};

use clap::ArgMatches;
use ow_value::{NoMemory, Str, decimal_of};
use std::alloc::Global;

/// The text of the option of this name, where it was found.
pub(crate) fn text_of(
    alloc: Global,
    found: &ArgMatches<'_>,
    name: &str,
) -> Result<Option<Str>, NoMemory>
    ensures { IfOk result (λ text. text ≡ values_found found.now name.now) }
{
    match found.get_str(name) {
        Some(value) => Ok(Some(Str::of(alloc, value)?)),
        None => Ok(None),
    }
}

/// The port, where it was found and is one.
pub(crate) fn port_of(found: &ArgMatches<'_>) -> Option<u16>
    ensures { result ≡ port_of (values_found found.now (codes "port")) }
{
    let n = number_within(0, u32::from(u16::MAX), found.get_str("port")?)?;
    Some(n as u16)
}

/// The number of workers, unless what was found is none.
pub(crate) fn workers_of(found: &ArgMatches<'_>) -> Option<u32>
    ensures { result ≡ workers_of (values_found found.now (codes "workers")) }
{
    match found.get_str("workers") {
        Some(text) => number_within(1, 64, text),
        None => Some(4),
    }
}

/// The number of connections, if one was found, unless what was found is none.
pub(crate) fn connections_of(found: &ArgMatches<'_>) -> Option<Option<u64>>
    ensures { result ≡ connections_of (values_found found.now (codes "connections")) }
{
    match found.get_str("connections") {
        Some(text) => Some(Some(decimal_of(text.as_bytes())?)),
        None => Some(None),
    }
}

/// The number, if it lies between these two.
pub(crate) fn number_within(least: u32, most: u32, text: &str) -> Option<u32>
    ensures is { result ≡ number_within least most text.now }
    ensures most { IfSome result (λ n. n ≤ most) }
{
    let n = decimal_of(text.as_bytes())?;
    if u64::from(least) <= n && n <= u64::from(most) {
        Some(n as u32)
    } else {
        None
    }
}
