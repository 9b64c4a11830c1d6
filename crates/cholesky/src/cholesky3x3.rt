// The 3x3 Cholesky factor, and the solution it gives. The crate has a name for each size, and steps that are unrolled, and so has this. Real is f64
// (float::width).
ghost use Rattle.std.specs.Prelude.{◌≡◌};
ghost use Rattle.float.specs.Width.{F};
ghost use Rattle.matrix.specs.Answer.{Outcome};
ghost use Rattle.matrix.specs.Codes.{code_of};
ghost use Rattle.cholesky.specs.Factor.{factored, steps3_of, factor3_of};
ghost use Rattle.cholesky.specs.Solve.{solution3_of, solve3_of, solved3_answer, factor_and_solve3_of};

use crate::answers::{FactorError, Solved};
use crate::pivot::pivot_step;
use crate::unrolled;
use crate::unrolled::Unrolled;
use float::bits::canonical;
use float::width::Real;
use matrix::codes::Refusal;
use matrix::symmetric::Sym3;

pub type Solved3 = Solved<Sym3, 3>;

impl Unrolled<3> for Sym3 {
    ghost listed = { λ l. l.«data» };

    ghost steps_of = { steps3_of F };

    ghost solution_of = { solution3_of F };

    fn numbers(&self) -> &[Real] {
        &self.data
    }

    fn zero() -> Self {
        Sym3::zeros()
    }

    // If the third pivot is NaN, so is L32, which is among the writes before it: it is written with the bits of the one NaN.
    fn steps(&mut self, a: Self) -> Result<(), FactorError> {
        self.data[0] = pivot_step(a.data[0], 1)?;
        self.data[1] = a.data[1] / self.data[0];
        self.data[2] = pivot_step(a.data[2] - self.data[1] * self.data[1], 2)?;
        self.data[3] = a.data[3] / self.data[0];
        self.data[4] = (a.data[4] - self.data[1] * self.data[3]) / self.data[2];
        match pivot_step(
            a.data[5] - self.data[3] * self.data[3] - self.data[4] * self.data[4],
            3,
        ) {
            Ok(root) => self.data[5] = root,
            Err(e) => {
                self.data[4] = canonical(self.data[4]);
                return Err(e);
            }
        }
        Ok(())
    }

    fn substitute(self, b: [Real; 3]) -> [Real; 3]
        ensures { result ≡ solution3_of F self.«data» b }
    {
        let c0 = b[0] / self.data[0];
        let c1 = (b[1] - self.data[1] * c0) / self.data[2];
        let c2 = (b[2] - self.data[3] * c0 - self.data[4] * c1) / self.data[5];
        let x2 = c2 / self.data[5];
        let x1 = (c1 - self.data[4] * x2) / self.data[2];
        let x0 = (c0 - self.data[1] * x1 - self.data[3] * x2) / self.data[0];
        [x0, x1, x2]
    }
}

// The factor of a takes the place of the factor l. Where a pivot is refused the writes before it stand, and on any other refusal all of l stays.
#[tactic(auto, unfolding(crate::specs::Factor::factor3_of))]
pub fn cholesky_3x3_explicit_factor(l: &mut Sym3, a: Sym3) -> Result<(), FactorError>
    ensures { factored result l.new.«data» ≡ factor3_of F l.old.«data» a.«data» }
{
    unrolled::factor(l, a)
}

// The solution of L L' x = b, on the first 3 places of slices of 3 or more.
#[tactic(auto, unfolding(crate::specs::Solve::solve3_of))]
pub fn cholesky_3x3_explicit_solve(l: Sym3, x: &mut [Real], b: &[Real]) -> Result<(), Refusal>
    ensures { Outcome (solve3_of F l.«data» b.now x.old) (code_of result) x.new }
{
    unrolled::solve(l, x, b)
}

// The factor of a, and the solution of a x = b.
#[tactic(auto, unfolding(crate::specs::Solve::factor_and_solve3_of))]
pub fn factor_and_solve(a: Sym3, b: [Real; 3]) -> Result<Solved3, FactorError>
    ensures { solved3_answer F result ≡ factor_and_solve3_of F a.«data» b }
{
    unrolled::factor_and_solve(a, b)
}
