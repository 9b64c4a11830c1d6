// A root of 53 digits worked out from a guess, in whole numbers of 64 digits, and the test that says whether it is the nearest.
//
// m has 63 or 64 digits, and the root is that of m * 2^42. Its first 32 digits are the guess a, or a little more. From what m has beyond the square
// of a the guessed inverse gives the last 21 digits, e, which make up for what a has too little. The rest is exact, whatever was guessed, or it does
// not pass for small; so the test at the end is one of the whole root, a * 2^21 + e.
ghost use Rattle.std.specs.Prelude.{◌≡◌, ◌+◌, ◌*◌, ◌^◌, ◌<◌, ◌≤◌, true};
ghost use Rattle.std.specs.Float.Ieee.{hid};
ghost use Rattle.float.specs.Width.{F};
ghost use Rattle.float.specs.Digits.{NearestRoot, TriedRoot};

use crate::guess53::guess_for;
use crate::width::Bits;

// The weight that the first digits have beside the last.
const LAST: Bits = 0x20_0000;

// A rest is small below this.
const SMALL: Bits = 0x4_0000_0000;

// Digits whose sum is the nearest to the root, in two parts, since the exponent can be put to the upper one while the lower one is still worked out.
#[derive(Clone, Copy)]
pub(crate) struct Tried {
    pub upper: Bits,
    pub lower: Bits,
}

// What m has beyond the square of a, where that is small.
fn rest_of(m: Bits, a: Bits) -> Bits
    requires { (2 ^ 62 ≤ m) × (a < 2 ^ 32) }
    ensures { result < 2 ^ 34 → a * a + result ≡ m }
{
    m.wrapping_sub(a * a)
}

// Half of r over a, in units of the last digits, rounded.
fn last_digits(r: Bits, inverse: Bits) -> Bits
    requires { (r < 2 ^ 34) × (inverse < 2 ^ 29) }
    ensures { result ≤ 2 ^ 23 }
{
    (r * inverse + 0x80_0000_0000) / 0x100_0000_0000
}

// How many times 2^22 goes into q with the square of e put to it, and into what is below q with that taken off.
fn above(q: Bits, square: Bits) -> Bits
    requires { (q < 2 ^ 54) × (square < 2 ^ 54) }
    ensures { result * 2 ^ 22 ≤ q + square }
{
    (q + square) / (2 * LAST)
}

fn below(q: Bits, square: Bits) -> Bits
    requires { square < q }
    ensures { result * 2 ^ 22 + square < q }
{
    (q - 1 - square) / (2 * LAST)
}

// Whether q = a * 2^21 + e is the nearest to the root of n = (a * a + r) * 2^42. n has r * 2^42 - 2^22 * (a * e) - e * e beyond the square of q, and
// that must be above -q and at most q. Divided by 2^22 all of it fits in 64 digits.
fn is_nearest(r: Bits, a: Bits, e: Bits) -> bool
    requires { (r < 2 ^ 34) × (2 ^ 30 ≤ a) × (a < 2 ^ 32) × (e ≤ 2 ^ 23) }
    ensures { result ≡ true → NearestRoot ((a * a + r) * 2 ^ 42) (a * 2 ^ 21 + e) }
{
    let q = a * LAST + e;
    let square = e * e;
    let u = above(q, square);
    let v = below(q, square);
    let beyond = (r * (LAST / 2) + v).wrapping_sub(a * e);
    beyond <= u + v
}

// The digits that come of the guess a of the first ones and of the guessed inverse, whatever these are; none where the test leaves them open.
fn tried_by(m: Bits, a: Bits, inverse: Bits) -> Option<Tried>
    requires { (2 ^ 62 ≤ m) × (a < 2 ^ 32) × (inverse < 2 ^ 29) }
    ensures { TriedRoot F (m * 2 ^ 42) result }
{
    let r = rest_of(m, a);
    if r >= SMALL {
        return None;
    }
    let e = last_digits(r, inverse);
    is_nearest(r, a, e).then_some(Tried {
        upper: a * LAST,
        lower: e,
    })
}

// The digits of the root of m * 2^52, tried for the number with the pattern b, of whose significand m is made.
pub(crate) fn tried_root(b: Bits, m: Bits) -> Option<Tried>
    requires { (hid F ≤ m) × (m < 4 * hid F) }
    ensures { TriedRoot F (m * hid F) result }
{
    let g = guess_for(b);
    tried_by(m * 0x400, g.root / 0x1_0000_0000, g.inverse / 0x8_0000_0000)
}
