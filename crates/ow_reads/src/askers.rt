// Who makes a request, and what is granted to the holder of a key.
ghost use Rattle.std.specs.Prelude.{◌≡◌, MatchResult, Ok, Err, IfOk};
ghost use Rattle.ow_names.specs.Path.{home};
ghost use Rattle.ow_reads.specs.Tenants.{asker, may, office};

use ow_http::{Reason, ServiceRefusal};
use ow_tenant::{Holder, Right, Tenants};
use ow_value::{NoMemory, Str};
use std::alloc::Global;

const OFFICE: &str = "office";

/// Who holds the key of a request.
pub fn asker<'a>(tenants: &'a Tenants, key: &Option<Str>) -> Result<&'a Holder, Reason>
    ensures { MatchResult result (λ h. asker tenants.now key.now ≡ Ok h.now) (λ e. asker tenants.now key.now ≡ Err e) }
{
    let key = match key {
        Some(key) => Some(key.as_str()),
        None => None,
    };
    match tenants.holder_of(key) {
        Some(holder) => Ok(holder),
        None => Err(Reason::Service(ServiceRefusal::UnknownKey)),
    }
}

/// Whether the holder has the right in the namespace, `_` being the key's own.
pub(crate) fn may(holder: &Holder, right: Right, namespace: &[u8]) -> bool
    ensures { result ≡ may holder.now right namespace.now }
{
    holder.may(home_of(holder, namespace), right)
}

/// A namespace of a path, `_` being the key's own.
pub(crate) fn home_of<'a>(holder: &'a Holder, namespace: &'a [u8]) -> &'a [u8]
    ensures { result.now ≡ home holder.now.home namespace.now }
{
    if namespace == b"_".as_slice() {
        return holder.home.as_str().as_bytes();
    }
    namespace
}

/// The subject in whose name the office's own calls run.
pub fn office(alloc: Global) -> Result<Str, NoMemory>
    ensures { IfOk result (λ s. s ≡ office) }
{
    Str::of(alloc, OFFICE)
}
