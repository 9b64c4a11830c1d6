// What the answers hold before a call. Each place has a code, a count and numbers of its own, and another mark than its neighbours, so
// that a place that was touched, moved or exchanged shows. Real is f64 (float::width).
ghost use Rattle.std.specs.Prelude.{◌≤◌, ◌<◌};
ghost use Rattle.row.specs.Row.{room_places};

use float::bits::of_bits;
use float::width::{Bits, Real};
use jacobi::made::Made;
use matrix::square::Mat3;
use row::rows::{ROOM, SvdPlace};
use std::array;

// The code and the count of the first place: no call gives such a code, and no run makes so many rotations.
const FIRST_CODE: usize = 30;

const FIRST_COUNT: usize = 130;

// The numbers of a place.
const NUMBERS: usize = 30;

// The k-th number above 0, and those after it: k is its pattern.
fn numbers<const N: usize>(k: usize) -> [Real; N]
    requires { k ≤ 65536 }
{
    let mut numbers = [0.0; N];
    for (i, number) in numbers.iter_mut().enumerate() {
        *number = of_bits((k as Bits).saturating_add(i as Bits));
    }
    numbers
}

fn matrix(k: usize) -> Mat3
    requires { k ≤ 65536 }
{
    Mat3 { data: numbers(k) }
}

// Place i. All numbers of all places, one after the other, are the first ones above 0.
fn found(i: usize) -> SvdPlace
    requires { i < room_places }
{
    let k = NUMBERS * i + 1;
    SvdPlace {
        code: (FIRST_CODE + i) as u8,
        made: Made {
            count: (FIRST_COUNT + i) as u8,
        },
        settled: i % 2 == 1,
        values: numbers(k),
        u: matrix(k + 3),
        v: matrix(k + 12),
        worked: matrix(k + 21),
    }
}

pub(crate) fn all_found() -> [SvdPlace; ROOM] {
    array::from_fn(
        |i| -> SvdPlace
            requires { i < room_places }
        { found(i) },
    )
}
