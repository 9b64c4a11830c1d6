// The correctly rounded root, from the bits. Real is f64 (float::width).
//
// A finite x above 0 is m * 2^e, which is m * 2^DIGITS at the exponent e - DIGITS. With that exponent halved downwards and the odd bit
// folded into m, the root of x is that of m * 2^DIGITS at half the exponent. m is scaled by fours to PRECISION digits or one more, so
// that the whole root q of m * 2^DIGITS has the PRECISION digits of a number, and what is left beyond q's square says whether the
// next number up is nearer. LOWEST - DIGITS is even, so the halves need no case for a lowest exponent that is odd.
//
// Of a normal number the rounded root is tried first: a guess, one exact step and a test (`tried53`, which is for 53 digits; a root of another width
// takes its digits from a file of its own, by the one `use` line that names this one). What the test leaves open, and what is no normal number,
// is worked out digit by digit.
ghost use Rattle.std.specs.Prelude.{◌≡◌, ◌-◌, ◌*◌, ◌/◌, ◌<◌};
ghost use Rattle.std.specs.Float.Ieee.{prec, hid, ones};
ghost use Rattle.float.specs.Width.{F};
ghost use Rattle.float.specs.Root.{root_bits_of, RootPromise};
ghost use Rattle.float.specs.Digits.{WholeRoot, ScaledUp, RootPattern, QuickRoot};

use crate::bits::{is_nan, not_a_number, of_bits, of_number, to_bits};
use crate::parts::{biased, halved, is_odd, parts_of};
use crate::tried53::tried_root;
use crate::width::{
    Bits, DIGITS, Exponent, HALF_BIAS, INFINITY, LEADING, NAN, PRECISION, Real, SIGN,
};

// A whole root and what is left beyond its square.
#[derive(Clone, Copy)]
pub struct Whole {
    pub q: Bits,
    pub left: Bits,
}

// The whole root of m * 2^DIGITS, one binary digit a pass: `left` takes the next two digits of m * 2^DIGITS, of which `rest` holds
// those still to come, and the digit is 1 where the square of 2q + 1 still fits.
fn whole_root(m: Bits) -> Whole
    requires { m < 4 * hid F }
    ensures { WholeRoot (m * hid F) (prec F) result.q result.left }
{
    let mut rest = m;
    let mut q: Bits = 0;
    let mut left: Bits = 0;
    for _ in 0..PRECISION {
        left = left * 4 + rest / LEADING;
        rest = rest % LEADING * 4;
        let odd = q * 4 + 1;
        q *= 2;
        if odd <= left {
            left -= odd;
            q += 1;
        }
    }
    Whole { q, left }
}

// m * 4^j, with j such that it has PRECISION digits or one more.
#[derive(Clone, Copy)]
pub struct Scaled {
    pub m: Bits,
    pub j: Bits,
}

fn scaled_up(m: Bits) -> Scaled
    requires { (0 < m) × (m < 4 * hid F) }
    ensures { ScaledUp m (prec F - 1) (prec F / 2) result.m result.j }
{
    let mut n = m;
    let mut j: Bits = 0;
    while n < LEADING {
        n *= 4;
        j += 1;
    }
    Scaled { m: n, j }
}

// The pattern of the root of the finite number above 0 that b is the pattern of.
fn root_pattern(b: Bits) -> Bits
    requires { (0 < b) × (b < ones F * hid F) }
    ensures { RootPattern F b result }
{
    let p = parts_of(b);
    let e = p.e - DIGITS;
    let m = if is_odd(e) { p.m * 2 } else { p.m };
    let s = scaled_up(m);
    let w = whole_root(s.m);
    let q = if w.left > w.q { w.q + 1 } else { w.q };
    (biased(halved(e)) - s.j) * LEADING + q
}

// The root's pattern of a normal number's, where the digits that are tried for it are sure. In the pattern of an odd field the lowest digit
// of the field stands where the leading digit of the significand belongs; an even one has the odd bit that is folded into m.
fn quick_root(b: Bits) -> Option<Bits>
    ensures { QuickRoot F b result }
{
    if b < LEADING || b >= INFINITY {
        return None;
    }
    let digits = b % (2 * LEADING);
    let m = if digits < LEADING {
        2 * digits + 2 * LEADING
    } else {
        digits
    };
    let t = tried_root(b, m)?;
    let field = (b / LEADING - 1) / 2 + HALF_BIAS;
    Some(field * LEADING + t.upper + t.lower)
}

// The root on patterns: zeros keep their sign, +infinity stays, negative numbers and NaNs give NAN.
pub fn root_bits(b: Bits) -> Bits
    ensures { result ≡ root_bits_of F b }
{
    if b % SIGN == 0 || b == INFINITY {
        b
    } else if b > INFINITY {
        NAN
    } else {
        root_pattern(b)
    }
}

// The root of x: the nearest number to the exact one.
pub fn root(x: Real) -> Real
    ensures { RootPromise F x result }
{
    if is_nan(x) {
        return not_a_number();
    }
    let b = to_bits(x);
    match quick_root(b) {
        Some(r) => of_number(r),
        None => of_bits(root_bits(b)),
    }
}
