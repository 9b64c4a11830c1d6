// Products, Cholesky factors and solutions, eigenvalues and singular values, on slices of doubles. Real is f64 (float::width).
// C has no Result and no generic function: each entry hands out the code as a number, takes each slice by itself, and has a name for each size.
ghost use Rattle.std.specs.Prelude.{◌≡◌, ◌≤◌};
ghost use Rattle.float.specs.Width.{F};
ghost use Rattle.matrix.specs.Answer.{Outcome};
ghost use Rattle.matrix.specs.Codes.{code_of};
ghost use Rattle.matrix.specs.Places.{IsSquare};
ghost use Rattle.cholesky.specs.Error.{factor_code, factor_pivot};
ghost use Rattle.exports.specs.Kernels.{square_mul_of, packed_mul_of, Factored, factor2_into, factor3_into, solve2_into, solve3_into};
ghost use Rattle.exports.specs.Kernels.{eigen3_into, svd3_into};

use crate::slices::numbers;
use cholesky::answers::FactorError;
use cholesky::cholesky2x2::{cholesky_2x2_explicit_factor, cholesky_2x2_explicit_solve};
use cholesky::cholesky3x3::{cholesky_3x3_explicit_factor, cholesky_3x3_explicit_solve};
use eigen::eigen3x3::eigen_jacobi;
use float::width::Real;
use matrix::codes::{DONE, Refusal, code_of};
use matrix::shape::DenseMatrixN;
use matrix::square::Mat3;
use matrix::symmetric::{Sym2, Sym3};
use svd::svd3x3::svd;

fn square_mul<const N: usize, const S: usize>(
    a: &[Real],
    y: &mut [Real],
    x: &[Real],
) -> Result<(), Refusal>
    requires square { IsSquare N S }
    requires small { S ≤ 9 }
    ensures { Outcome (square_mul_of F N a.now x.now y.old) (code_of result) y.new }
{
    if y.len() != N {
        return Err(Refusal::OutputLength);
    }
    let data = numbers::<S>(a)?;
    DenseMatrixN::<N, S> { data }.mul(y, x)
}

#[unsafe(no_mangle)]
pub extern "C" fn zanikory_mat2_mul(a: &[Real], y: &mut [Real], x: &[Real]) -> u8
    ensures { Outcome (square_mul_of F 2 a.now x.now y.old) result y.new }
{
    code_of(square_mul::<2, 4>(a, y, x))
}

#[unsafe(no_mangle)]
pub extern "C" fn zanikory_mat3_mul(a: &[Real], y: &mut [Real], x: &[Real]) -> u8
    ensures { Outcome (square_mul_of F 3 a.now x.now y.old) result y.new }
{
    code_of(square_mul::<3, 9>(a, y, x))
}

fn packed_mul(h: &[Real], y: &mut [Real], x: &[Real]) -> Result<(), Refusal>
    ensures { Outcome (packed_mul_of F h.now x.now y.old) (code_of result) y.new }
{
    if y.len() < 3 {
        return Err(Refusal::OutputLength);
    }
    let data = numbers(h)?;
    Sym3 { data }.mul(y, x)
}

#[unsafe(no_mangle)]
pub extern "C" fn zanikory_sym3_mul(h: &[Real], y: &mut [Real], x: &[Real]) -> u8
    ensures { Outcome (packed_mul_of F h.now x.now y.old) result y.new }
{
    code_of(packed_mul(h, y, x))
}

// The code of a factor, and the number of a refused pivot into its place.
fn factor_told(r: Result<(), FactorError>, pivot: &mut u8) -> u8
    ensures code { result ≡ factor_code r }
    ensures number { pivot.new ≡ factor_pivot r }
{
    match r {
        Ok(()) => {
            *pivot = 0;
            DONE
        }
        Err(e) => {
            *pivot = e.pivot();
            u8::from(e.refusal())
        }
    }
}

// L is the old factor at entry, and is replaced as far as the kernel writes.
// Each size has its own steps, since the bound of a closure that takes the matrix can't name a const size; so have the two solutions below.
#[unsafe(no_mangle)]
pub extern "C" fn zanikory_cholesky_2x2_factor(l: &mut [Real], a: &[Real], pivot: &mut u8) -> u8
    ensures { Factored (factor2_into F l.old a.now) result l.new pivot.new }
{
    *pivot = 0;
    let Ok(old) = numbers(l) else {
        return u8::from(Refusal::OutputLength);
    };
    let Ok(data) = numbers(a) else {
        return u8::from(Refusal::InputLength);
    };
    let mut factor = Sym2 { data: old };
    let r = cholesky_2x2_explicit_factor(&mut factor, Sym2 { data });
    l.copy_from_slice(&factor.data);
    factor_told(r, pivot)
}

// L is the old factor at entry, and is replaced as far as the kernel writes.
#[unsafe(no_mangle)]
pub extern "C" fn zanikory_cholesky_3x3_factor(l: &mut [Real], a: &[Real], pivot: &mut u8) -> u8
    ensures { Factored (factor3_into F l.old a.now) result l.new pivot.new }
{
    *pivot = 0;
    let Ok(old) = numbers(l) else {
        return u8::from(Refusal::OutputLength);
    };
    let Ok(data) = numbers(a) else {
        return u8::from(Refusal::InputLength);
    };
    let mut factor = Sym3 { data: old };
    let r = cholesky_3x3_explicit_factor(&mut factor, Sym3 { data });
    l.copy_from_slice(&factor.data);
    factor_told(r, pivot)
}

fn solve2(l: &[Real], x: &mut [Real], b: &[Real]) -> Result<(), Refusal>
    ensures { Outcome (solve2_into F l.now b.now x.old) (code_of result) x.new }
{
    if x.len() < 2 {
        return Err(Refusal::OutputLength);
    }
    let data = numbers(l)?;
    cholesky_2x2_explicit_solve(Sym2 { data }, x, b)
}

#[unsafe(no_mangle)]
pub extern "C" fn zanikory_cholesky_2x2_solve(l: &[Real], x: &mut [Real], b: &[Real]) -> u8
    ensures { Outcome (solve2_into F l.now b.now x.old) result x.new }
{
    code_of(solve2(l, x, b))
}

fn solve3(l: &[Real], x: &mut [Real], b: &[Real]) -> Result<(), Refusal>
    ensures { Outcome (solve3_into F l.now b.now x.old) (code_of result) x.new }
{
    if x.len() < 3 {
        return Err(Refusal::OutputLength);
    }
    let data = numbers(l)?;
    cholesky_3x3_explicit_solve(Sym3 { data }, x, b)
}

#[unsafe(no_mangle)]
pub extern "C" fn zanikory_cholesky_3x3_solve(l: &[Real], x: &mut [Real], b: &[Real]) -> u8
    ensures { Outcome (solve3_into F l.now b.now x.old) result x.new }
{
    code_of(solve3(l, x, b))
}

// Values, vectors, worked matrix.
fn eigen3(a: &[Real], out: &mut [Real]) -> Result<(), Refusal>
    ensures { Outcome (eigen3_into F a.now out.old) (code_of result) out.new }
{
    if out.len() != 18 {
        return Err(Refusal::OutputLength);
    }
    let data = numbers(a)?;
    let r = eigen_jacobi(Sym3 { data })?;
    out[..3].copy_from_slice(&r.values);
    out[3..12].copy_from_slice(&r.vectors.data);
    out[12..].copy_from_slice(&r.worked.data);
    Ok(())
}

#[unsafe(no_mangle)]
pub extern "C" fn zanikory_eigen_3x3(a: &[Real], out: &mut [Real]) -> u8
    ensures { Outcome (eigen3_into F a.now out.old) result out.new }
{
    code_of(eigen3(a, out))
}

// Values, U, V, worked matrix.
fn svd3(a: &[Real], out: &mut [Real]) -> Result<(), Refusal>
    ensures { Outcome (svd3_into F a.now out.old) (code_of result) out.new }
{
    if out.len() != 30 {
        return Err(Refusal::OutputLength);
    }
    let data = numbers(a)?;
    let r = svd(Mat3 { data })?;
    out[..3].copy_from_slice(&r.values);
    out[3..12].copy_from_slice(&r.u.data);
    out[12..21].copy_from_slice(&r.v.data);
    out[21..].copy_from_slice(&r.worked.data);
    Ok(())
}

#[unsafe(no_mangle)]
pub extern "C" fn zanikory_svd_3x3(a: &[Real], out: &mut [Real]) -> u8
    ensures { Outcome (svd3_into F a.now out.old) result out.new }
{
    code_of(svd3(a, out))
}
