// Cholesky factors and the solutions they give: one function for each operation.
use crate::answer::Answer;
use crate::item::Item;
use crate::of_matrix::{lent, sym2, sym3};
use cholesky::answers::FactorError;
use cholesky::cholesky2x2::{cholesky_2x2_explicit_factor, cholesky_2x2_explicit_solve};
use cholesky::cholesky3x3::{cholesky_3x3_explicit_factor, cholesky_3x3_explicit_solve};
use cholesky::pivot::pivot_step;
use cholesky::{cholesky2x2, cholesky3x3};
use matrix::codes::DONE;

// Code and pivot; and what is handed out, if anything is.
fn told<T>(out: &mut Answer, r: Result<T, FactorError>) -> Option<T> {
    match r {
        Ok(x) => {
            out.code(DONE);
            out.word(0);
            Some(x)
        }
        Err(why) => {
            out.code(u8::from(why.refusal()));
            out.word(u64::from(why.pivot()));
            None
        }
    }
}

// The old factor, the matrix; code, pivot, factor.
fn factor2(item: &mut Item, out: &mut Answer) {
    let mut l = sym2(item);
    let r = cholesky_2x2_explicit_factor(&mut l, sym2(item));
    let _ = told(out, r);
    out.numbers(&l.data);
}

fn factor3(item: &mut Item, out: &mut Answer) {
    let mut l = sym3(item);
    let r = cholesky_3x3_explicit_factor(&mut l, sym3(item));
    let _ = told(out, r);
    out.numbers(&l.data);
}

// The matrix, the right side; code, pivot, factor, solution.
fn factor_and_solve2(item: &mut Item, out: &mut Answer) {
    let r = cholesky2x2::factor_and_solve(sym2(item), item.numbers());
    if let Some(x) = told(out, r) {
        out.numbers(&x.factor.data);
        out.numbers(&x.solution);
    }
}

fn factor_and_solve3(item: &mut Item, out: &mut Answer) {
    let r = cholesky3x3::factor_and_solve(sym3(item), item.numbers());
    if let Some(x) = told(out, r) {
        out.numbers(&x.factor.data);
        out.numbers(&x.solution);
    }
}

// A pivot, its number; code, number of the refused one, root.
fn pivot(item: &mut Item, out: &mut Answer) {
    let t = item.number();
    let k = (item.word() % 256) as u8;
    if let Some(root) = told(out, pivot_step(t, k)) {
        out.number(root);
    }
}

pub(crate) fn cholesky(op: u8, item: &mut Item, out: &mut Answer) -> Option<()> {
    match op {
        32 => factor2(item, out),
        33 => factor3(item, out),
        34 => {
            let l = sym2(item);
            lent(item, out, |x, b| cholesky_2x2_explicit_solve(l, x, b));
        }
        35 => {
            let l = sym3(item);
            lent(item, out, |x, b| cholesky_3x3_explicit_solve(l, x, b));
        }
        36 => factor_and_solve2(item, out),
        37 => factor_and_solve3(item, out),
        38 => pivot(item, out),
        _ => return None,
    }
    Some(())
}
