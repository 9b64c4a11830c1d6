// The matrix types: one function for each operation, which may run several of theirs.
use crate::answer::Answer;
use crate::item::Item;
use float::width::Real;
use matrix::codes::{Refusal, code_of};
use matrix::shape::{DenseMatrixN, DenseMatrixSymN};
use matrix::square::{Mat2, Mat3};
use matrix::symmetric::{Sym2, Sym3};

// A row, a column, and a number to write there.
#[derive(Clone, Copy)]
struct Write {
    r: usize,
    c: usize,
    x: Real,
}

impl Write {
    fn next(item: &mut Item) -> Self {
        Write {
            r: item.place(),
            c: item.place(),
            x: item.number(),
        }
    }
}

// Code and place, code and number.
fn put_place(out: &mut Answer, place: Option<usize>, number: Option<Real>) {
    let place = out.told(place.ok_or(Refusal::Outside)).unwrap_or(0);
    out.word(place as u64);
    let number = out.told(number.ok_or(Refusal::Outside)).unwrap_or(0.0);
    out.number(number);
}

// Where to write, and the matrix; code and place, code and number, code and matrix.
fn places_square<const N: usize, const S: usize>(
    w: Write,
    a: &DenseMatrixN<N, S>,
    out: &mut Answer,
) {
    let place = a.index_linear(w.r, w.c);
    let number = a.index(w.r, w.c);
    put_place(out, place, number);
    let written = out.handed(a.index_mut(w.r, w.c, w.x));
    out.numbers(&written.data);
}

fn places_packed<const N: usize, const S: usize>(
    w: Write,
    a: &DenseMatrixSymN<N, S>,
    out: &mut Answer,
) {
    let place = a.index_linear(w.r, w.c);
    let number = a.index(w.r, w.c);
    put_place(out, place, number);
    let written = out.handed(a.index_mut(w.r, w.c, w.x));
    out.numbers(&written.data);
}

// Two columns and the matrix; identity, transpose, code and flipped, code and swapped.
fn moves<const N: usize, const S: usize>(
    i: usize,
    j: usize,
    a: &DenseMatrixN<N, S>,
    out: &mut Answer,
) {
    let identity = a.set_identity();
    out.numbers(&identity.data);
    let transposed = a.transpose_in_place();
    out.numbers(&transposed.data);
    let flipped = out.handed(a.flip_column(i));
    out.numbers(&flipped.data);
    let swapped = out.handed(a.swap_columns(i, j));
    out.numbers(&swapped.data);
}

// A factor, the matrix, another that is written over; code and scaled, copied.
fn scaled<const N: usize, const S: usize>(
    c: Real,
    b: &DenseMatrixSymN<N, S>,
    a: &DenseMatrixSymN<N, S>,
    out: &mut Answer,
) {
    let scaled = DenseMatrixSymN::scaled_from(c, *b);
    match out.told(scaled) {
        Some(x) => out.numbers(&x.data),
        None => out.numbers(&[0.0; S]),
    }
    let copied = a.copy_from(*b);
    out.numbers(&copied.data);
}

// Two lengths, eight places of the output and of the input; the code of a call on the parts that are lent, and the output's places.
pub(crate) fn lent<F: FnOnce(&mut [Real], &[Real]) -> Result<(), Refusal>>(
    item: &mut Item,
    out: &mut Answer,
    call: F,
)
    requires { F.IsAlwaysCallable call }
{
    let n = item.length();
    let m = item.length();
    let mut y = item.numbers::<8>();
    let x = item.numbers::<8>();
    out.code(code_of(call(&mut y[..n], &x[..m])));
    out.numbers(&y);
}

// Code and number.
fn put_scalar(out: &mut Answer, x: Result<Real, Refusal>) {
    let number = out.told(x).unwrap_or(0.0);
    out.number(number);
}

// The matrix, two lengths, eight places of both inputs.
fn quad_form(item: &mut Item, out: &mut Answer) {
    let a = sym3(item);
    let n = item.length();
    let m = item.length();
    let y = item.numbers::<8>();
    let x = item.numbers::<8>();
    put_scalar(out, a.quad_form(&y[..n], &x[..m]));
}

pub(crate) fn sym2(item: &mut Item) -> Sym2 {
    Sym2 {
        data: item.numbers(),
    }
}

pub(crate) fn sym3(item: &mut Item) -> Sym3 {
    Sym3 {
        data: item.numbers(),
    }
}

pub(crate) fn mat2(item: &mut Item) -> Mat2 {
    Mat2 {
        data: item.numbers(),
    }
}

pub(crate) fn mat3(item: &mut Item) -> Mat3 {
    Mat3 {
        data: item.numbers(),
    }
}

pub(crate) fn matrix(op: u8, item: &mut Item, out: &mut Answer) -> Option<()> {
    match op {
        16 => places_packed(Write::next(item), &sym2(item), out),
        17 => places_packed(Write::next(item), &sym3(item), out),
        18 => places_square(Write::next(item), &mat2(item), out),
        19 => places_square(Write::next(item), &mat3(item), out),
        20 => moves(item.place(), item.place(), &mat2(item), out),
        21 => moves(item.place(), item.place(), &mat3(item), out),
        22 => scaled(item.number(), &sym2(item), &sym2(item), out),
        23 => scaled(item.number(), &sym3(item), &sym3(item), out),
        24 => {
            let a = mat2(item);
            lent(item, out, |y, x| a.mul(y, x));
        }
        25 => {
            let a = mat3(item);
            lent(item, out, |y, x| a.mul(y, x));
        }
        26 => {
            let a = sym3(item);
            lent(item, out, |y, x| a.mul(y, x));
        }
        27 => quad_form(item, out),
        28 => put_scalar(out, sym3(item).norm_fro()),
        _ => return None,
    }
    Some(())
}
