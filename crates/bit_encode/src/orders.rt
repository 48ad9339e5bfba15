//! Orders of the variables, and where each variable's bits begin.

ghost use Rattle.std.specs.Prelude.{◌≡◌, ◌↔◌, ◌<◌, ◌≤◌, ◌^◌, ℕ, All, true, IsTrue, IfOk, length, slice_index};
ghost use Rattle.bit_encode.specs.Code.{IsOrder, bit_count, declared, first_bit};
ghost use Rattle.bit_encode.specs.Layouts.{counted};

use crate::domains::Domain;
use std::alloc::{AllocError, Global};

/// How many bits all types take, and the greatest `u32` where it is more than that.
pub(crate) fn total_bits(domains: &[Domain]) -> u32
    ensures { result ≡ counted (bit_count domains.now) }
{
    let mut total: u32 = 0;
    for domain in domains {
        total = total.saturating_add(domain.width());
    }
    total
}

/// Whether all marks are set.
fn all_set(marks: &[bool]) -> bool
    ensures { IsTrue result ↔ All (λ b. b ≡ true) marks.now }
{
    marks.iter().all(|x| *x)
}

/// Whether the order names each of the variables below `count` once, and nothing else.
pub(crate) fn is_order(alloc: Global, count: usize, order: &[u32]) -> Result<bool, AllocError>
    ensures { IfOk result (λ b. IsTrue b ↔ IsOrder count order.now) }
{
    let mut named = vec![in alloc; false; count]?;
    for x in order {
        let x = *x as usize;
        if x >= count || named[x] {
            return Ok(false);
        }
        named[x] = true;
    }
    Ok(all_set(&named))
}

/// The variables in declared order, by their numbers. At most 2^32 numbers fit.
pub fn declared_order(alloc: Global, count: usize) -> Result<Vec<u32>, AllocError>
    requires { count ≤ 2 ^ 32 }
    ensures order { IfOk result (λ order. order.items ≡ declared count) }
    ensures names { IfOk result (λ order. IsOrder count order.items) }
{
    let mut order = Vec::new(alloc);
    for var in 0..count {
        order.push(var as u32)?;
    }
    Ok(order)
}

/// For each variable the place of its first bit.
pub(crate) fn first_bits(
    alloc: Global,
    domains: &[Domain],
    order: &[u32],
) -> Result<Vec<u32>, AllocError>
    requires ordered { IsOrder (length domains.now) order.now }
    requires few { bit_count domains.now < 2 ^ 32 }
    ensures each { IfOk result (λ v. length v.items ≡ length domains.now) }
    ensures firsts { IfOk result (λ v. (x : ℕ) → x < length domains.now
        → slice_index v.items x ≡ first_bit (record { types = domains.now; order = order.now }) x) }
{
    let mut firsts = vec![in alloc; 0; domains.len()]?;
    let mut next: u32 = 0;
    for x in order {
        firsts[*x as usize] = next;
        next += domains[*x as usize].width();
    }
    Ok(firsts)
}
