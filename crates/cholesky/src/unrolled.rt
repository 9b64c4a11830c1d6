// What stands around the steps and the substitution, which are unrolled for each size as in the crate. Real is f64 (float::width).
ghost use Rattle.std.specs.Prelude.{◌≡◌, List, Float};
ghost use Rattle.float.specs.Width.{F};
ghost use Rattle.matrix.specs.Answer.{Outcome, answered, on_first};
ghost use Rattle.matrix.specs.Codes.{code_of};
ghost use Rattle.matrix.specs.Places.{zeros, triangular};
ghost use Rattle.cholesky.specs.Factor.{FactorAnswer, factored, factor_of};
ghost use Rattle.cholesky.specs.Solve.{judged_solution, solved_answer, solved_by};

use crate::answers::{FactorError, Solved};
use float::sign::{all_finite, both_finite};
use float::width::Real;
use matrix::answers::{judge_all, put};
use matrix::codes::Refusal;

// A symmetric matrix of size N, as its upper triangle.
pub(crate) trait Unrolled<const N: usize>: Copy {
    ghost listed: { Self → List Float };

    ghost steps_of: { List Float → List Float → FactorAnswer };

    ghost solution_of: { List Float → List Float → List Float };

    fn numbers(&self) -> &[Real]
        ensures { result.now ≡ listed self.now };

    fn zero() -> Self
        ensures { listed result ≡ zeros F (triangular N) };

    // The steps, unjudged. What is not written stays.
    fn steps(&mut self, a: Self) -> Result<(), FactorError>
        ensures { factored result (listed self.new) ≡ steps_of (listed self.old) (listed a) };

    // Forward substitution for L c = b, then backward for L' x = c.
    fn substitute(self, b: [Real; N]) -> [Real; N]
        ensures { result ≡ solution_of (listed self) b.entry };
}

// The factor of a takes the place of the factor l. Where a pivot is refused the writes before it stand, and on any other refusal all of l stays.
pub(crate) fn factor<const N: usize, L: Unrolled<N>>(l: &mut L, a: L) -> Result<(), FactorError>
    ensures { factored result (L.listed l.new) ≡ factor_of (L.listed l.old) (L.listed a) (L.steps_of (L.listed l.old) (L.listed a)) }
{
    if !all_finite(a.numbers()) {
        return Err(FactorError::InputNotFinite);
    }
    let old = *l;
    l.steps(a)?;
    if !all_finite(l.numbers()) {
        *l = old;
        return Err(FactorError::AnswerNotFinite);
    }
    Ok(())
}

// The solution of L L' x = b.
fn solution<const N: usize, L: Unrolled<N>>(l: L, b: [Real; N]) -> Result<[Real; N], Refusal>
    ensures { answered (zeros F N) result ≡ judged_solution F N L.solution_of (L.listed l) b.entry }
{
    if !both_finite(l.numbers(), &b) {
        return Err(Refusal::InputNotFinite);
    }
    judge_all(l.substitute(b))
}

// The same on the first N places of slices of N or more.
pub(crate) fn solve<const N: usize, L: Unrolled<N>>(
    l: L,
    x: &mut [Real],
    b: &[Real],
) -> Result<(), Refusal>
    ensures { Outcome (on_first N (judged_solution F N L.solution_of (L.listed l)) b.now x.old) (code_of result) x.new }
{
    if x.len() < N {
        return Err(Refusal::OutputLength);
    }
    let Some(b) = b.first_chunk::<N>() else {
        return Err(Refusal::InputLength);
    };
    put(x, solution(l, *b))
}

// The factor of a, and the solution of a x = b.
pub(crate) fn factor_and_solve<const N: usize, L: Unrolled<N>>(
    a: L,
    b: [Real; N],
) -> Result<Solved<L, N>, FactorError>
    ensures { solved_answer L.listed F N result ≡ solved_by F N L.steps_of L.solution_of (L.listed a) b.entry }
{
    if !both_finite(a.numbers(), &b) {
        return Err(FactorError::InputNotFinite);
    }
    let mut factor = L::zero();
    factor.steps(a)?;
    let solution = factor.substitute(b);
    if !both_finite(factor.numbers(), &solution) {
        return Err(FactorError::AnswerNotFinite);
    }
    Ok(Solved { factor, solution })
}
