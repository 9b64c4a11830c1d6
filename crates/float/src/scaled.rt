// A number times a power of two, rounded once, and the power of two under the largest of some numbers. Real is f64 (float::width).
ghost use Rattle.std.specs.Prelude.{◌≡◌, false, from_bits};
ghost use Rattle.std.specs.Float.{fin};
ghost use Rattle.float.specs.Width.{F};
ghost use Rattle.float.specs.Scaled.{limited, times_limited, times_each, InReach, PowerPromise, pattern_of, larger_pattern};

use crate::bits::{is_nan, of_number, to_bits};
use crate::parts::biased;
use crate::width::{Bits, Exponent, GREATEST, INFINITY, LEADING, LOWEST, PRECISION, Real, SIGN};

// 2^k. In units of the smallest number it is 2^j: below the smallest normal number the digit itself, and from there on a field.
fn power(k: Exponent) -> Real
    requires { InReach F k }
    ensures { result ≡ fin false 1 k }
{
    let j = biased(k);
    if j < PRECISION - 1 {
        of_number(1 << j)
    } else {
        of_number((j - (PRECISION - 2)) * LEADING)
    }
}

// k, or the nearer end of the exponents that occur.
fn limited(k: Exponent) -> Exponent
    ensures { result ≡ limited F k }
{
    k.clamp(LOWEST, -LOWEST)
}

// N numbers times 2^k, k being limited. Where 2^k is a number, one product rounds each once; where it is too large, 2^-k is a number, and one quotient
// does. The power is made once.
pub fn scaled_all<const N: usize>(x: [Real; N], k: Exponent) -> [Real; N]
    ensures { result ≡ times_each F N x.entry k }
{
    let j = limited(k);
    let mut y = x;
    if j <= GREATEST {
        let p = power(j);
        for v in &mut y {
            *v *= p;
        }
    } else {
        let p = power(-j);
        for v in &mut y {
            *v /= p;
        }
    }
    y
}

// The same of one number.
pub fn scaled(x: Real, k: Exponent) -> Real
    ensures { result ≡ times_limited F x k }
{
    scaled_all([x], k)[0]
}

// The pattern of x with the sign off; 0 for a NaN.
#[tactic(auto, unfolding(crate::specs::Scaled::pattern_of))]
fn pattern(x: Real) -> Bits
    ensures { result ≡ pattern_of F x }
{
    if is_nan(x) { 0 } else { to_bits(x) % SIGN }
}

// The larger of the number with the pattern b and the magnitude of x, as a pattern: patterns without a sign are in the order of their numbers.
#[tactic(auto, unfolding(crate::specs::Scaled::larger_pattern))]
pub fn larger(b: Bits, x: Real) -> Bits
    ensures { result ≡ larger_pattern F b x }
{
    b.max(pattern(x))
}

// The k with 2^k under the number x of the pattern b, x being from 2^k up to 2^(k + 1) in magnitude; 0 for zeros and for what is no number.
pub fn power_under(b: Bits) -> Exponent
    ensures { PowerPromise F (from_bits F b) result }
{
    let c = b % SIGN;
    if c == 0 || c >= INFINITY {
        0
    } else if c < LEADING {
        Exponent::from(c.ilog2()) + LOWEST
    } else {
        (c / LEADING) as Exponent - GREATEST
    }
}
