// What the types of a table's parts say of them. These functions only look.
ghost use Rattle.std.specs.List.{AllByRecursion};
ghost use Rattle.ow_names.specs.Name.{IsName};

use crate::entries::Holder;
use ow_value::Str;

/// Makes known that each holder's own namespace is a name.
pub(crate) fn known_homes(entries: &[(Str, Holder)])
    ensures { AllByRecursion (λ e. IsName e.1.home) entries.now }
{
    let mut rest = entries;
    while let [entry, after @ ..] = rest {
        known_home(entry);
        rest = after;
    }
}

fn known_home(entry: &(Str, Holder))
    ensures { IsName entry.now.1.home }
{
    entry.1.home.as_str();
}
