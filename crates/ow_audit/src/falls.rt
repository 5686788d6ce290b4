// Places that don't rise in receipts.
ghost use Rattle.std.specs.Prelude.{◌≡◌};
ghost use Rattle.ow_audit.specs.Places.{first_fall, first_fall_of, notes_of};

use ow_desk::{Placed, Receipts};
use ow_traits::Keeper;

/// The first two neighbouring places in one receipts of which the later doesn't rise.
pub(crate) fn first_fall_of<P: Keeper + Drop>(receipts: &[Receipts<P>]) -> Option<(u64, u64)>
    ensures { result ≡ first_fall_of (notes_of receipts.now) }
{
    for held in receipts {
        if let Some(fall) = first_fall(held.entries().as_slice()) {
            return Some(fall);
        }
    }
    None
}

fn first_fall(entries: &[Placed]) -> Option<(u64, u64)>
    ensures { result ≡ first_fall entries.now }
{
    let mut last = None;
    for it in entries {
        if let Some(earlier) = last {
            if it.place <= earlier {
                return Some((earlier, it.place));
            }
        }
        last = Some(it.place);
    }
    None
}
