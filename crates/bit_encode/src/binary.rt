//! Numbers as lists of bits, the most significant bit first.

ghost use Rattle.std.specs.Prelude.{◌≡◌, ◌≤◌, ◌++◌, OnOk, length};
ghost use Rattle.bit_encode.specs.Binary.{binary, number, width};

use std::alloc::AllocError;

/// The least number of bits with which this many values have codes of their own, from 0 to 64.
pub fn bit_width(count: usize) -> u32
    ensures bits { result ≡ width count }
    ensures few { result ≤ 64 }
{
    if count == 0 {
        return 0;
    }
    usize::BITS - (count - 1).leading_zeros()
}

/// Appends the bits of the number, `len` of them.
pub(crate) fn push_binary(bits: &mut Vec<bool>, len: u32, n: usize) -> Result<(), AllocError>
    requires { len ≤ 64 }
    ensures { OnOk result (bits.new.items ≡ bits.old.items ++ binary len n) }
{
    let mut left = len;
    let mut rest = n;
    while left > 0 {
        left -= 1;
        let half = 1usize << left;
        if rest >= half {
            bits.push(true)?;
            rest -= half;
        } else {
            bits.push(false)?;
        }
    }
    Ok(())
}

/// The number that the bits spell.
pub(crate) fn spelled(bits: &[bool]) -> usize
    requires { length bits.now ≤ 64 }
    ensures { result ≡ number bits.now }
{
    let mut n = 0;
    for bit in bits {
        if *bit {
            n = 2 * n + 1;
        } else {
            n = 2 * n;
        }
    }
    n
}
