// Singular values and vectors, and the steps to them.
use crate::answer::Answer;
use crate::item::Item;
use crate::of_eigen::{pair, put_off_diag};
use crate::of_matrix::{mat2, mat3};
use float::width::Real;
use svd::polar::TwoSided;
use svd::{order, pairs, polar};

// Code, count, settled, values, U, V, worked matrix.
fn svd3(item: &mut Item, out: &mut Answer) {
    if let Some(x) = out.told(svd::svd3x3::svd(mat3(item))) {
        out.code(x.made.count);
        out.word(u64::from(x.settled));
        out.numbers(&x.values);
        out.numbers(&x.u.data);
        out.numbers(&x.v.data);
        out.numbers(&x.worked.data);
    }
}

fn svd2(item: &mut Item, out: &mut Answer) {
    if let Some(x) = out.told(svd::svd2x2::svd(mat2(item))) {
        out.word(u64::from(x.settled));
        out.numbers(&x.values);
        out.numbers(&x.u.data);
        out.numbers(&x.v.data);
    }
}

fn hypot(item: &mut Item, out: &mut Answer) {
    let [x, y]: [Real; 2] = item.numbers();
    out.number(polar::hypot_fast(x, y));
}

// A 2x2 by columns; cosine, sine, and the symmetric matrix's three numbers.
fn compute_polar_2x2(item: &mut Item, out: &mut Answer) {
    let [app, aqp, apq, aqq]: [Real; 4] = item.numbers();
    let r = polar::compute_polar_2x2(app, aqp, apq, aqq);
    out.numbers(&[r.c, r.s, r.s11, r.s12, r.s22]);
}

// A 2x2 by columns; left, right, diagonal, and the symmetric matrix's three numbers.
fn compute_two_sided_rotation(item: &mut Item, out: &mut Answer) {
    let [app, aqp, apq, aqq]: [Real; 4] = item.numbers();
    let r = polar::compute_two_sided_rotation(app, aqp, apq, aqq);
    out.numbers(&[r.cl, r.sl, r.cr, r.sr, r.d1, r.d2, r.s11, r.s12, r.s22]);
}

// A pair, its rotation, and the matrix.
fn apply_two_sided_rotation(item: &mut Item, out: &mut Answer) {
    let p = pair(item);
    let [cl, sl, cr, sr, d1, d2, s11, s12, s22]: [Real; 9] = item.numbers();
    let r = TwoSided {
        cl,
        sl,
        cr,
        sr,
        d1,
        d2,
        s11,
        s12,
        s22,
    };
    out.numbers(&pairs::apply_two_sided_rotation(mat3(item), p, r).data);
}

// The diagonal, U, V; the values, U, V.
fn fix_order_and_signs_3x3(item: &mut Item, out: &mut Answer) {
    let [a, b, c]: [Real; 3] = item.numbers();
    let r = order::fix_order_and_signs_3x3(a, b, c, mat3(item), mat3(item));
    out.numbers(&r.values);
    out.numbers(&r.u.data);
    out.numbers(&r.v.data);
}

fn set_order_and_signs_2x2(item: &mut Item, out: &mut Answer) {
    let [a, b]: [Real; 2] = item.numbers();
    let r = order::set_order_and_signs_2x2(a, b, mat2(item), mat2(item));
    out.numbers(&r.values);
    out.numbers(&r.u.data);
    out.numbers(&r.v.data);
}

pub(crate) fn svd(op: u8, item: &mut Item, out: &mut Answer) -> Option<()> {
    match op {
        64 => svd3(item, out),
        65 => svd2(item, out),
        66 => hypot(item, out),
        67 => compute_polar_2x2(item, out),
        68 => compute_two_sided_rotation(item, out),
        69 => put_off_diag(out, pairs::find_largest_off_diag_nonsym(mat3(item))),
        70 => apply_two_sided_rotation(item, out),
        71 => fix_order_and_signs_3x3(item, out),
        72 => set_order_and_signs_2x2(item, out),
        _ => return None,
    }
    Some(())
}
