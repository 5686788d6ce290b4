// The members of an object, by name.
ghost use Rattle.std.specs.Prelude.{◌≡◌, option_map, IfOk, IfErr};
ghost use Rattle.ow_value.specs.Value.{AreParams, object, members_of};
ghost use Rattle.ow_value.specs.Place.{IsPlace, IsGap};
ghost use Rattle.ow_value.specs.Find.{find};
ghost use Rattle.ow_value.specs.Field.{field};
ghost use Rattle.ow_value.specs.View.{view, pair_views};

use crate::shared::held;
use crate::val::{Pair, Params, Val};

impl Params {
    /// The value of the name.
    pub fn find(&self, name: &str) -> Option<&Val>
        ensures value { option_map (λ v. view v.now) result ≡ find name.now self.now }
        ensures field { option_map (λ v. view v.now) result ≡ field name.now (object (members_of self.now)) }
    {
        self.value_at(name)
    }

    fn value_at(&self, name: &str) -> Option<&Val>
        ensures { option_map (λ v. view v.now) result ≡ find name.now self.now }
    {
        let pairs = held(&self.pairs);
        match place(pairs, name) {
            Ok(i) => Some(&pairs[i].value),
            Err(_) => None,
        }
    }
}

// The place of the name, or where it would be inserted.
pub(crate) fn place(pairs: &[Pair], name: &str) -> Result<usize, usize>
    requires { AreParams (pair_views pairs.now) }
    ensures ok { IfOk result (λ i. IsPlace pairs.now name.now i) }
    ensures err { IfErr result (λ i. IsGap pairs.now name.now i) }
{
    pairs.binary_search_by(|p| p.name.compare(name))
}
