// A factor with a solution, or why there is none. Real is f64 (float::width).
ghost use Rattle.std.specs.Prelude.{◌≡◌};
ghost use Rattle.cholesky.specs.Error.{why_of, pivot_number};

use float::width::Real;
use matrix::codes::Refusal;

// Why there is no factor.
#[derive(Clone, Copy, Debug, PartialEq, Eq)]
pub enum FactorError {
    // The pivot of this number is at most zero.
    AtMostZero(u8),
    // The pivot of this number is NaN.
    NotANumber(u8),
    // A used input number is NaN or infinite.
    InputNotFinite,
    // A number of the answer is NaN or infinite.
    AnswerNotFinite,
}

impl FactorError {
    pub fn refusal(self) -> Refusal
        ensures { result ≡ why_of self }
    {
        match self {
            FactorError::AtMostZero(_) => Refusal::Pivot,
            FactorError::NotANumber(_) => Refusal::NanPivot,
            FactorError::InputNotFinite => Refusal::InputNotFinite,
            FactorError::AnswerNotFinite => Refusal::AnswerNotFinite,
        }
    }

    // The number of the refused pivot, and 0 where none was refused.
    pub fn pivot(self) -> u8
        ensures { result ≡ pivot_number self }
    {
        match self {
            FactorError::AtMostZero(k) | FactorError::NotANumber(k) => k,
            FactorError::InputNotFinite | FactorError::AnswerNotFinite => 0,
        }
    }
}

// The factor of a matrix, and the solution that it gives.
#[derive(Clone, Copy)]
pub struct Solved<M, const N: usize> {
    pub factor: M,
    pub solution: [Real; N],
}
