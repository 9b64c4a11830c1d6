// The two ways in which a matrix is worked: scaled, so that its largest magnitude is from 1 up to 2, or as it is given. Real is f64
// (float::width).
ghost use Rattle.std.specs.Prelude.{◌≡◌, ◌≤◌, IfSome, Some, None};
ghost use Rattle.float.specs.Choice.{pick};
ghost use Rattle.float.specs.Width.{F};
ghost use Rattle.float.specs.Scaled.{InReach, largest_magnitude, largest_pattern, PowerPromise};
ghost use Rattle.kinds.specs.Work.{first_of};
ghost use Rattle.kinds.specs.Ways.{is_scaled, power_for, divided, multiplied_back, work_of};
ghost use Rattle.kinds.specs.Read.{asked, asked_by, whole_worked, worked};

use crate::table::{Kind, Way};
use crate::work::{Asked, Refused, Worked, plain};
use float::scaled::{larger, power_under, scaled_all};
use float::sign::all_finite;
use float::width::{Bits, Exponent, Real};
use matrix::codes::Refusal;

// Divided by 2^k.
fn divided(a: Asked, k: Exponent) -> Asked
    requires { InReach F k }
    ensures { asked result ≡ divided F k (asked a) }
{
    Asked {
        nine: scaled_all(a.nine, -k),
        ..a
    }
}

// The values multiplied by 2^k, if they are all finite then.
fn multiplied_back(w: Worked, k: Exponent) -> Result<Worked, Refused>
    requires { InReach F k }
    ensures { worked F result ≡ multiplied_back F k (whole_worked w) }
{
    let values = scaled_all(w.values, k);
    if !all_finite(&values) {
        return Err(Refusal::AnswerNotFinite.into());
    }
    Ok(Worked { values, ..w })
}

// The largest magnitude of the first n numbers, as a pattern.
fn largest_first(x: [Real; 9], n: usize) -> Bits
    requires { n ≤ 9 }
    ensures { result ≡ largest_pattern F (first_of n x) }
{
    x[..n].iter().fold(0, |b, y| larger(b, *y))
}

// The power of two under the largest magnitude of the first n.
fn power_of_first(x: [Real; 9], n: usize) -> Exponent
    requires { n ≤ 9 }
    ensures { PowerPromise F (largest_magnitude F (first_of n x)) result }
{
    power_under(largest_first(x, n))
}

// The power of two that the matrix is divided by, if it is scaled.
fn power_for(a: Asked) -> Option<Exponent>
    ensures value { result ≡ pick (is_scaled (asked a)) (Some (power_for F (asked a))) None }
    ensures in_reach { IfSome result (InReach F) }
{
    let row = a.kind.row();
    if row.scales && a.way == Way::Scaled {
        Some(power_of_first(a.nine, row.nine))
    } else {
        None
    }
}

// The answer of a kind. One call of `plain` serves both ways: the compiler then makes one of it and this function, and no kind pays for a copy of its
// numbers.
pub fn work(a: Asked) -> Result<Worked, Refused>
    ensures { worked F result ≡ work_of F (asked a) }
{
    let k = power_for(a);
    let w = plain(k.map_or(a, |k| divided(a, k)))?;
    match k {
        Some(k) => multiplied_back(w, k),
        None => Ok(w),
    }
}

// The same of a request's bytes, whatever they are: a number that no kind has is refused, and any way but 0 takes the matrix as it is given.
pub fn work_numbered(
    kind: u8,
    way: u8,
    nine: [Real; 9],
    three: [Real; 3],
) -> Result<Worked, Refused>
    ensures { worked F result ≡ work_of F (asked_by kind way nine three) }
{
    let kind = Kind::try_from(kind)?;
    let way = if way == 0 { Way::Scaled } else { Way::AsGiven };
    work(Asked {
        kind,
        way,
        nine,
        three,
    })
}
