// Eigenvalues, eigenvectors and the steps to them.
use crate::answer::Answer;
use crate::item::Item;
use crate::of_matrix::{mat3, sym2, sym3};
use eigen::{order, pairs};
use float::width::Real;
use jacobi::pairs::{OffDiag, Pair, turn_columns};
use jacobi::rotation::{Elements, Rotation};

// Code, count, settled, values, vectors, worked matrix.
fn eigen_jacobi(item: &mut Item, out: &mut Answer) {
    if let Some(x) = out.told(eigen::eigen3x3::eigen_jacobi(sym3(item))) {
        out.code(x.made.count);
        out.word(u64::from(x.settled));
        out.numbers(&x.values);
        out.numbers(&x.vectors.data);
        out.numbers(&x.worked.data);
    }
}

fn eigvals_jacobi(item: &mut Item, out: &mut Answer) {
    if let Some(x) = out.told(eigen::eigen3x3::eigvals_jacobi(sym3(item))) {
        out.code(x.made.count);
        out.word(u64::from(x.settled));
        out.numbers(&x.values);
        out.numbers(&x.worked.data);
    }
}

fn eigen2(item: &mut Item, out: &mut Answer) {
    if let Some(x) = out.told(eigen::eigen2x2::eigen(sym2(item))) {
        out.word(u64::from(x.settled));
        out.numbers(&x.values);
        out.numbers(&x.vectors.data);
    }
}

fn eigvals2(item: &mut Item, out: &mut Answer) {
    if let Some(x) = out.told(eigen::eigen2x2::eigvals(sym2(item))) {
        out.word(u64::from(x.settled));
        out.numbers(&x.values);
    }
}

// The pairs by their rows and columns: 12, 13, 23. These words are the jobs' alone, so `Pair` itself has no such conversion.
fn number_of(p: Pair) -> u64 {
    match p {
        Pair::P12 => 12,
        Pair::P13 => 13,
        Pair::P23 => 23,
    }
}

pub(crate) fn pair(item: &mut Item) -> Pair {
    match item.word() {
        12 => Pair::P12,
        13 => Pair::P13,
        _ => Pair::P23,
    }
}

// A pair and its size.
pub(crate) fn put_off_diag(out: &mut Answer, r: OffDiag) {
    out.word(number_of(r.pair));
    out.number(r.size);
}

// Cosine, sine and tangent.
fn rotation(item: &mut Item) -> Rotation {
    let [c, s, t]: [Real; 3] = item.numbers();
    Rotation { c, s, t }
}

fn jacobi_rotation(item: &mut Item, out: &mut Answer) {
    let [apq, app, aqq]: [Real; 3] = item.numbers();
    let r = Elements { apq, app, aqq }.rotation();
    out.numbers(&[r.c, r.s, r.t]);
}

// Of the pair: a rotation and the matrix; cosine, sine, tangent and the columns.
fn apply_rotation(item: &mut Item, out: &mut Answer) {
    let p = pair(item);
    let r = rotation(item);
    out.numbers(&pairs::apply_rotation(sym3(item), p, r).data);
}

fn update_eigenvectors(item: &mut Item, out: &mut Answer) {
    let p = pair(item);
    let r = rotation(item);
    out.numbers(&pairs::update_eigenvectors(mat3(item), p, r).data);
}

// The tangent is there, and is not used.
fn turn(item: &mut Item, out: &mut Answer) {
    let p = pair(item);
    let [c, s, _t]: [Real; 3] = item.numbers();
    out.numbers(&turn_columns(mat3(item), p, c, s).data);
}

fn sort3(item: &mut Item, out: &mut Answer) {
    let [a, b, c]: [Real; 3] = item.numbers();
    out.numbers(&order::sort3(a, b, c));
}

fn sort3_with_columns(item: &mut Item, out: &mut Answer) {
    let [a, b, c]: [Real; 3] = item.numbers();
    let r = order::sort3_with_columns(a, b, c, mat3(item));
    out.numbers(&r.values);
    out.numbers(&r.columns.data);
}

// Code, and the matrix: rotated, or on refusal as it was.
fn rotate(item: &mut Item, out: &mut Answer) {
    let p = pair(item);
    let r = rotation(item);
    let rotated = out.handed(lent::rotate(sym3(item), p, r));
    out.numbers(&rotated.data);
}

pub(crate) fn eigen(op: u8, item: &mut Item, out: &mut Answer) -> Option<()> {
    match op {
        48 => eigen_jacobi(item, out),
        49 => eigvals_jacobi(item, out),
        50 => eigen2(item, out),
        51 => eigvals2(item, out),
        52 => jacobi_rotation(item, out),
        53 => put_off_diag(out, pairs::find_largest_off_diag(sym3(item))),
        54 => apply_rotation(item, out),
        55 => update_eigenvectors(item, out),
        56 => turn(item, out),
        57 => sort3(item, out),
        58 => sort3_with_columns(item, out),
        59 => rotate(item, out),
        _ => return None,
    }
    Some(())
}
