// Whether the book has room.
ghost use Rattle.std.specs.Prelude.{◌≡◌};
ghost use Rattle.ow_decide.specs.Sight.{Sight, is_full, room_for};

use ow_http::{Reason, ServiceRefusal};

// How many bytes a book counts at most.
const MOST_COUNTED: u128 = 1_073_741_824;

/// Refuses unless the book has room for an entry of this many bytes beside its 64.
pub(crate) fn room_for(counted: u64, size: u64) -> Result<(), Reason>
    ensures { (S : Sight) → S.counted ≡ counted → result ≡ room_for S size }
{
    if is_full(counted, size) {
        return Err(Reason::Service(ServiceRefusal::BookFull));
    }
    Ok(())
}

/// Whether a book that counts `counted` bytes has no room for an entry of `size` bytes beside its 64.
#[tactic(auto, unfolding(crate::specs::Sight::is_full))]
pub fn is_full(counted: u64, size: u64) -> bool
    ensures { result ≡ is_full counted size }
{
    counted as u128 + 64 + size as u128 > MOST_COUNTED
}
