// The 2x2 Cholesky factor, and the solution it gives. The crate has a name for each size, and steps that are unrolled, and so has this. Real is f64
// (float::width).
ghost use Rattle.std.specs.Prelude.{◌≡◌};
ghost use Rattle.float.specs.Width.{F};
ghost use Rattle.matrix.specs.Answer.{Outcome};
ghost use Rattle.matrix.specs.Codes.{code_of};
ghost use Rattle.cholesky.specs.Factor.{factored, steps2_of, factor2_of};
ghost use Rattle.cholesky.specs.Solve.{solution2_of, solve2_of, solved2_answer, factor_and_solve2_of};

use crate::answers::{FactorError, Solved};
use crate::pivot::pivot_step;
use crate::unrolled;
use crate::unrolled::Unrolled;
use float::width::Real;
use matrix::codes::Refusal;
use matrix::symmetric::Sym2;

pub type Solved2 = Solved<Sym2, 2>;

impl Unrolled<2> for Sym2 {
    ghost listed = { λ l. l.«data» };

    ghost steps_of = { steps2_of F };

    ghost solution_of = { solution2_of F };

    fn numbers(&self) -> &[Real] {
        &self.data
    }

    fn zero() -> Self {
        Sym2::zeros()
    }

    fn steps(&mut self, a: Self) -> Result<(), FactorError> {
        self.data[0] = pivot_step(a.data[0], 1)?;
        self.data[1] = a.data[1] / self.data[0];
        self.data[2] = pivot_step(a.data[2] - self.data[1] * self.data[1], 2)?;
        Ok(())
    }

    fn substitute(self, b: [Real; 2]) -> [Real; 2]
        ensures { result ≡ solution2_of F self.«data» b }
    {
        let c0 = b[0] / self.data[0];
        let c1 = (b[1] - self.data[1] * c0) / self.data[2];
        let x1 = c1 / self.data[2];
        let x0 = (c0 - self.data[1] * x1) / self.data[0];
        [x0, x1]
    }
}

// The factor of a takes the place of the factor l. Where a pivot is refused the writes before it stand, and on any other refusal all of l stays.
#[tactic(auto, unfolding(crate::specs::Factor::factor2_of))]
pub fn cholesky_2x2_explicit_factor(l: &mut Sym2, a: Sym2) -> Result<(), FactorError>
    ensures { factored result l.new.«data» ≡ factor2_of F l.old.«data» a.«data» }
{
    unrolled::factor(l, a)
}

// The solution of L L' x = b, on the first 2 places of slices of 2 or more.
#[tactic(auto, unfolding(crate::specs::Solve::solve2_of))]
pub fn cholesky_2x2_explicit_solve(l: Sym2, x: &mut [Real], b: &[Real]) -> Result<(), Refusal>
    ensures { Outcome (solve2_of F l.«data» b.now x.old) (code_of result) x.new }
{
    unrolled::solve(l, x, b)
}

// The factor of a, and the solution of a x = b.
#[tactic(auto, unfolding(crate::specs::Solve::factor_and_solve2_of))]
pub fn factor_and_solve(a: Sym2, b: [Real; 2]) -> Result<Solved2, FactorError>
    ensures { solved2_answer F result ≡ factor_and_solve2_of F a.«data» b }
{
    unrolled::factor_and_solve(a, b)
}
