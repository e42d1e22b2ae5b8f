//! Several values copied one after another.
ghost use Rattle.std.specs.Prelude.{◌≡◌, IfOk};

use st_text::Duplicate;
use std::alloc::{AllocError, Global};

/// Copies of two values.
pub(crate) fn copy_two<A: Duplicate + Drop, B: Duplicate + Drop>(
    alloc: Global,
    a: &A,
    b: &B,
) -> Result<(A, B), AllocError>
    ensures { IfOk result (λ copied. (copied.0 ≡ a.now) × (copied.1 ≡ b.now)) }
{
    let a = a.copy(alloc)?;
    let b = b.copy(alloc)?;
    Ok((a, b))
}

/// Copies of three values.
pub(crate) fn copy_three<A: Duplicate + Drop, B: Duplicate + Drop, C: Duplicate + Drop>(
    alloc: Global,
    a: &A,
    b: &B,
    c: &C,
) -> Result<(A, B, C), AllocError>
    ensures { IfOk result (λ copied. (copied.0 ≡ a.now) × (copied.1 ≡ b.now) × (copied.2 ≡ c.now)) }
{
    let a = a.copy(alloc)?;
    let b = b.copy(alloc)?;
    let c = c.copy(alloc)?;
    Ok((a, b, c))
}

/// Copies of four values.
pub(crate) fn copy_four<
    A: Duplicate + Drop,
    B: Duplicate + Drop,
    C: Duplicate + Drop,
    D: Duplicate + Drop,
>(alloc: Global, a: &A, b: &B, c: &C, d: &D) -> Result<(A, B, C, D), AllocError>
    ensures { IfOk result (λ copied. (copied.0 ≡ a.now) × (copied.1 ≡ b.now) × (copied.2 ≡ c.now) × (copied.3 ≡ d.now)) }
{
    let (a, b) = copy_two(alloc, a, b)?;
    let (c, d) = copy_two(alloc, c, d)?;
    Ok((a, b, c, d))
}
