// Numbers that were worked out: each is handed on if it is finite, and put into a lent slice. Real is f64 (float::width).
ghost use Rattle.std.specs.Prelude.{◌≡◌};
ghost use Rattle.float.specs.Width.{F};
ghost use Rattle.matrix.specs.Codes.{code_of};
ghost use Rattle.matrix.specs.Places.{zeros};
ghost use Rattle.matrix.specs.Answer.{Outcome, judged_one, judged_all, put_of, answered, scalar};

use crate::codes::{DONE, Refusal, code_of};
use float::sign::all_finite;
use float::width::Real;

// A refusal of a call on a matrix that it was given by value, and the matrix, handed back as it was.
#[derive(Clone, Copy)]
pub struct Unchanged<M> {
    pub why: Refusal,
    pub matrix: M,
}

pub fn judge(x: Real) -> Result<Real, Refusal>
    ensures { scalar F result ≡ judged_one F x }
{
    if all_finite(&[x]) {
        Ok(x)
    } else {
        Err(Refusal::AnswerNotFinite)
    }
}

// The numbers are handed on if all are finite.
pub fn judge_all<const N: usize>(values: [Real; N]) -> Result<[Real; N], Refusal>
    ensures { answered (zeros F N) result ≡ judged_all F N values.entry }
{
    if all_finite(&values) {
        Ok(values)
    } else {
        Err(Refusal::AnswerNotFinite)
    }
}

// The first places of a lent slice take the numbers, if there are any; what lies past them stays.
pub fn put<const N: usize>(y: &mut [Real], p: Result<[Real; N], Refusal>) -> Result<(), Refusal>
    ensures { Outcome (put_of N (answered (zeros F N) p.entry) y.old) (code_of result) y.new }
{
    if y.len() < N {
        return Err(Refusal::OutputLength);
    }
    let values = p?;
    y[..N].copy_from_slice(&values);
    Ok(())
}

// The same of a call that is told by its code, whichever code that is: its numbers count where it is 0.
pub fn put_coded<const N: usize>(y: &mut [Real], code: u8, values: [Real; N]) -> u8
    ensures { Outcome (put_of N (record { code = code; value = values.entry }) y.old) result y.new }
{
    if code == DONE {
        code_of(put(y, Ok(values)))
    } else if y.len() < N {
        u8::from(Refusal::OutputLength)
    } else {
        code
    }
}
