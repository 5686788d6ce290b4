// One object over another.
ghost use Rattle.std.specs.Prelude.{◌≡◌, ℕ, List, ◌≤◌, ◌+◌, IfOk, length, drop};
ghost use Rattle.std.specs.declared.cmp.Ordering.TheVariants.{Less, Equal, Greater};
ghost use Rattle.std.specs.Option.{option_or};
ghost use Rattle.ow_value.specs.Find.{find, merge};
ghost use Rattle.ow_value.specs.Merge.{head_order};
ghost use Rattle.ow_value.specs.Value.{AreParams};
ghost use Rattle.ow_value.specs.View.{pair_views};

use crate::memory::NoMemory;
use crate::shared::held;
use crate::val::{Pair, Params};
use std::alloc::Global;
use std::cmp::Ordering;

/// The members of b, and those of a whose name b lacks. Where one has no members, the other is shared.
pub fn merge(alloc: Global, a: &Params, b: &Params) -> Result<Params, NoMemory>
    ensures value { IfOk result (λ r. r ≡ merge a.now b.now) }
    ensures finds { IfOk result (λ r. (q : List ℕ) → find q r ≡ option_or (find q b.now) (find q a.now)) }
{
    let xs = held(&a.pairs);
    let ys = held(&b.pairs);
    if xs.is_empty() {
        return b.again();
    }
    if ys.is_empty() {
        return a.again();
    }
    let pairs = merged(alloc, xs, ys)?;
    Ok(Params::of_pairs(pairs)?)
}

fn merged(alloc: Global, xs: &[Pair], ys: &[Pair]) -> Result<Vec<Pair>, NoMemory>
    requires xs_rise { AreParams (pair_views xs.now) }
    requires ys_rise { AreParams (pair_views ys.now) }
    ensures { IfOk result (λ r. pair_views r.items ≡ merge (pair_views xs.now) (pair_views ys.now)) }
{
    let mut pairs = Vec::new(alloc);
    let mut i = 0;
    let mut j = 0;
    'merging: while i < xs.len() || j < ys.len() {
        match order_at(xs, i, ys, j) {
            Ordering::Less => {
                pairs.push(xs[i].again()?)?;
                i += 1;
            }
            Ordering::Equal => i += 1,
            Ordering::Greater => {
                pairs.push(ys[j].again()?)?;
                j += 1;
            }
        }
    }
    Ok(pairs)
}

// The order of the next names. A list that is at its end comes last.
fn order_at(xs: &[Pair], i: usize, ys: &[Pair], j: usize) -> Ordering
    requires i_in_range { i ≤ length xs.now }
    requires j_in_range { j ≤ length ys.now }
    ensures { result ≡ head_order (drop i xs.now) (drop j ys.now) }
{
    if i == xs.len() {
        return if j == ys.len() {
            Ordering::Equal
        } else {
            Ordering::Greater
        };
    }
    if j == ys.len() {
        return Ordering::Less;
    }
    xs[i].name.compare(ys[j].name.as_str())
}
