// The lists of texts, of pairs of texts and of bytes.
ghost use Rattle.std.specs.Prelude.{◌≡◌, IfOk};

use crate::memory::NoMemory;
use crate::shared::Items;
use crate::text::Str;
use std::alloc::Global;

/// A list of texts.
pub type Lines = Items<Str>;

/// A list of pairs of texts.
pub type Pairs = Items<(Str, Str)>;

/// A list of bytes.
pub type Bytes = Items<u8>;

/// A copy of the bytes, to be shared.
pub fn bytes_of(alloc: Global, bytes: &[u8]) -> Result<Bytes, NoMemory>
    ensures { IfOk result (λ r. r ≡ bytes.now) }
{
    Bytes::from_vec(Vec::from_slice(alloc, bytes)?)
}
