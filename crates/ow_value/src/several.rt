// Several copies or results at once: all of them, or the first refusal. The caller holds none of them at a return path.
ghost use Rattle.std.specs.Prelude.{◌≡◌, Ok, Err, IfOk, MatchResult};
ghost use Rattle.ow_value.specs.Results.{joined2, joined3};

use crate::memory::NoMemory;
use crate::plain::PlainData;
use std::alloc::Global;

/// The value with what was made beside it, or the refusal. The caller holds neither value at the return path.
pub fn kept_beside<A: Drop, B, E>(held: A, made: Result<B, E>) -> Result<(A, B), E>
    ensures { MatchResult result (λ r. (r.0 ≡ held) × (made ≡ Ok r.1)) (λ e. made ≡ Err e) }
{
    match made {
        Ok(value) => Ok((held, value)),
        Err(e) => Err(e),
    }
}

/// Both values, or the first refusal.
pub fn joined2<A: Drop, B: Drop, F: Drop>(a: Result<A, F>, b: Result<B, F>) -> Result<(A, B), F>
    ensures { result ≡ joined2 a b }
{
    let a = a?;
    let b = b?;
    Ok((a, b))
}

/// All three, or the first refusal.
pub fn joined3<A: Drop, B: Drop, C: Drop, F: Drop>(
    a: Result<A, F>,
    b: Result<B, F>,
    c: Result<C, F>,
) -> Result<(A, B, C), F>
    ensures { result ≡ joined3 a b c }
{
    let a = a?;
    let b = b?;
    let c = c?;
    Ok((a, b, c))
}

/// A copy of each of two values.
pub fn copied2<A: PlainData + Drop, B: PlainData>(
    alloc: Global,
    a: &A,
    b: &B,
) -> Result<(A, B), NoMemory>
    ensures { IfOk result (λ r. r ≡ (a.now, b.now)) }
{
    let a = a.copy(alloc)?;
    let b = b.copy(alloc)?;
    Ok((a, b))
}

/// A copy of each of three.
pub fn copied3<A: PlainData + Drop, B: PlainData + Drop, C: PlainData>(
    alloc: Global,
    a: &A,
    b: &B,
    c: &C,
) -> Result<(A, B, C), NoMemory>
    ensures { IfOk result (λ r. r ≡ (a.now, b.now, c.now)) }
{
    let a = a.copy(alloc)?;
    let b = b.copy(alloc)?;
    let c = c.copy(alloc)?;
    Ok((a, b, c))
}

/// A copy of each of four.
pub fn copied4<A: PlainData + Drop, B: PlainData + Drop, C: PlainData + Drop, D: PlainData>(
    alloc: Global,
    a: &A,
    b: &B,
    c: &C,
    d: &D,
) -> Result<(A, B, C, D), NoMemory>
    ensures { IfOk result (λ r. r ≡ (a.now, b.now, c.now, d.now)) }
{
    let a = a.copy(alloc)?;
    let b = b.copy(alloc)?;
    let c = c.copy(alloc)?;
    let d = d.copy(alloc)?;
    Ok((a, b, c, d))
}

/// A copy of each of five.
pub fn copied5<
    A: PlainData + Drop,
    B: PlainData + Drop,
    C: PlainData + Drop,
    D: PlainData + Drop,
    E: PlainData,
>(alloc: Global, a: &A, b: &B, c: &C, d: &D, e: &E) -> Result<(A, B, C, D, E), NoMemory>
    ensures { IfOk result (λ r. r ≡ (a.now, b.now, c.now, d.now, e.now)) }
{
    let a = a.copy(alloc)?;
    let b = b.copy(alloc)?;
    let c = c.copy(alloc)?;
    let d = d.copy(alloc)?;
    let e = e.copy(alloc)?;
    Ok((a, b, c, d, e))
}
