// What a request's bytes say: the tests of 3, 4 and 5 in their order, and then its kind's answer. Real is f64 (float::width).
ghost use Rattle.std.specs.Prelude.{◌≡◌, ◌&&◌, ◌≤◌, IfOk, take};
ghost use Rattle.float.specs.Width.{F};
ghost use Rattle.float.specs.Sign.{all_finite};
ghost use Rattle.matrix.specs.Codes.{code_of};
ghost use Rattle.kinds.specs.Read.{number_of_kind, row_of, byte_of_way, worked};
ghost use Rattle.wire.specs.Bytes.{place_of, numbers_from};
ghost use Rattle.record.specs.Layout.{request_size};
ghost use Rattle.record.specs.Request.{kind_of, way_of, reserved_zero, unused_zero, form_of, sized_form_of, judged_of};

use crate::layout::{KIND_AT, NUMBERS_AT, REQUEST_SIZE, RESERVED_AT, THREE_AT, WAY_AT};
use float::sign::all_finite;
use float::width::{NUMBER_SIZE, Real};
use kinds::table::{Kind, Way};
use kinds::ways::work;
use kinds::work::{Asked, Refused, Worked};
use matrix::codes::Refusal;
use wire::bytes::{number_at, zeros_in};

// Whether the reserved bytes and the numbers that the kind doesn't use are all zero bits.
fn unused_zero(s: &[u8; REQUEST_SIZE], kind: Kind) -> bool
    ensures { result ≡ (reserved_zero s.now && unused_zero F (row_of kind) s.now) }
{
    let row = kind.row();
    zeros_in(s, RESERVED_AT, NUMBERS_AT)
        && zeros_in(s, NUMBERS_AT + NUMBER_SIZE * row.nine, THREE_AT)
        && zeros_in(s, THREE_AT + NUMBER_SIZE * row.three, REQUEST_SIZE)
}

// The kind and the way, if the request passes the tests of 3 and 4.
#[tactic(auto, unfolding(crate::specs::Request::form_of))]
fn form_of(s: &[u8; REQUEST_SIZE]) -> Result<(Kind, Way), Refusal>
    ensures code { code_of result ≡ form_of F s.now }
    ensures read { IfOk result (λ p. (number_of_kind p.0 ≡ kind_of s.now) × (byte_of_way (row_of p.0) p.1 ≡ way_of s.now)) }
{
    let kind = Kind::try_from(s[KIND_AT])?;
    let way = kind.way(s[WAY_AT])?;
    if !unused_zero(s, kind) {
        return Err(Refusal::Reserved);
    }
    Ok((kind, way))
}

// The tests of 1, 3 and 4 on a request's bytes.
#[tactic(auto, unfolding(crate::specs::Request::sized_form_of))]
pub fn form(request: &[u8]) -> Result<(), Refusal>
    ensures { code_of result ≡ sized_form_of F request.now }
{
    let Ok(s) = request.try_into() else {
        return Err(Refusal::InputLength);
    };
    form_of(s)?;
    Ok(())
}

// N numbers from byte `at` on. It is lent the whole request, and the place is the format's own.
fn numbers<const N: usize>(s: &[u8], at: usize) -> [Real; N]
    requires { place_of F at N ≤ request_size F }
    ensures { result ≡ numbers_from F N at s.now }
{
    let mut xs = [0.0; N];
    for i in 0..N {
        xs[i] = number_at(s, at + NUMBER_SIZE * i);
    }
    xs
}

// Whether the numbers that the kind uses are finite.
fn used_finite(kind: Kind, nine: [Real; 9], three: [Real; 3]) -> bool
    ensures { result ≡ (all_finite (take (row_of kind).nine nine) && all_finite (take (row_of kind).three three)) }
{
    let row = kind.row();
    all_finite(&nine[..row.nine]) && all_finite(&three[..row.three])
}

// The answer of a request of the right size.
pub(crate) fn judged(s: &[u8; REQUEST_SIZE]) -> Result<Worked, Refused>
    ensures { worked F result ≡ judged_of F s.now }
{
    let (kind, way) = form_of(s)?;
    let nine = numbers(s, NUMBERS_AT);
    let three = numbers(s, THREE_AT);
    if !used_finite(kind, nine, three) {
        return Err(Refusal::InputNotFinite.into());
    }
    work(Asked {
        kind,
        way,
        nine,
        three,
    })
}
