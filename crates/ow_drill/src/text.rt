// The texts of a drill.
ghost use Rattle.std.specs.Prelude.{◌≡◌, IfOk, string_bytes};
ghost use Rattle.ow_drill.specs.Drill.{call_text, drill_text};

use crate::tally::Tally;
use ow_value::NoMemory;
use std::alloc::Global;

/// The action that is called.
pub(crate) const ECHO: &str = "/whisk.system/utils/echo";

/// The parameters of the kth call, as JSON.
pub(crate) fn call_text(alloc: Global, k: u64) -> Result<String, NoMemory>
    ensures { IfOk result (λ text. string_bytes text ≡ call_text k) }
{
    Ok(format!(in alloc; "{{\"k\":{k}}}")?)
}

/// The line that a drill writes.
pub(crate) fn drill_text(alloc: Global, n: u64, seed: u64, tally: Tally) -> Result<String, NoMemory>
    ensures { IfOk result (λ text. string_bytes text ≡ drill_text n seed tally) }
{
    let Tally {
        accepted,
        refused,
        recorded,
    } = tally;
    Ok(format!(in alloc;
        "drill {n} {seed} accepted {accepted} refused {refused} recorded {recorded}\n"
    )?)
}
