// Reading, writing and moving the numbers of a matrix where they stand, in a lent array. Real is f64 (float::width).
// C has no Result and no generic function: each entry hands out the code as a number, takes row and column by themselves, and has a name for each size.
ghost use Rattle.std.specs.Prelude.{◌≡◌};
ghost use Rattle.float.specs.Width.{F};
ghost use Rattle.matrix.specs.Answer.{Outcome, done, entry};
ghost use Rattle.matrix.specs.Indexed.{read_of, write_of, swap_columns_of, flip_column_of, moved, written};
ghost use Rattle.matrix.specs.Indexed.{mat2_answer, mat3_answer, sym2_answer, sym3_answer};
ghost use Rattle.matrix.specs.Places.{square_index, packed_index};
ghost use Rattle.matrix.specs.Square.{identity_of, transpose_of};
ghost use Rattle.shown.specs.Left.{left};

use float::width::Real;
use matrix::answers::Unchanged;
use matrix::codes::{DONE, Refusal};
use matrix::shape::{DenseMatrixN, DenseMatrixSymN};
use matrix::square::{Mat2, Mat3};
use matrix::symmetric::{Sym2, Sym3};

// The place takes the number, or +0.
fn put_entry(place: &mut Real, x: Option<Real>) -> u8
    ensures { left result place.new ≡ entry F x }
{
    let Some(number) = x else {
        *place = 0.0;
        return u8::from(Refusal::Outside);
    };
    *place = number;
    DONE
}

// The array takes the numbers of the matrix that is handed out, or back.
fn put_moved<const N: usize, const S: usize>(
    a: &mut [Real; S],
    r: Result<DenseMatrixN<N, S>, Unchanged<DenseMatrixN<N, S>>>,
) -> u8
    ensures { left result a.new ≡ moved r.entry }
{
    match r {
        Ok(m) => {
            a.copy_from_slice(&m.data);
            DONE
        }
        Err(e) => {
            a.copy_from_slice(&e.matrix.data);
            u8::from(e.why)
        }
    }
}

// The same of a symmetric matrix, which is another type and has another view.
fn put_written<const N: usize, const S: usize>(
    a: &mut [Real; S],
    r: Result<DenseMatrixSymN<N, S>, Unchanged<DenseMatrixSymN<N, S>>>,
) -> u8
    ensures { left result a.new ≡ written r.entry }
{
    match r {
        Ok(m) => {
            a.copy_from_slice(&m.data);
            DONE
        }
        Err(e) => {
            a.copy_from_slice(&e.matrix.data);
            u8::from(e.why)
        }
    }
}

#[unsafe(no_mangle)]
pub extern "C" fn zanikory_mat2_transpose(a: &mut [Real; 4]) -> u8
    ensures { Outcome (done (transpose_of 2 a.old)) result a.new }
{
    let moved = Mat2 { data: *a }.transpose_in_place();
    a.copy_from_slice(&moved.data);
    DONE
}

#[unsafe(no_mangle)]
pub extern "C" fn zanikory_mat2_set_identity(a: &mut [Real; 4]) -> u8
    ensures { Outcome (done (identity_of F 2)) result a.new }
{
    let moved = Mat2 { data: *a }.set_identity();
    a.copy_from_slice(&moved.data);
    DONE
}

#[unsafe(no_mangle)]
pub extern "C" fn zanikory_mat2_swap_columns(i: usize, j: usize, a: &mut [Real; 4]) -> u8
    ensures { mat2_answer (left result a.new) ≡ mat2_answer (swap_columns_of 2 i j a.old) }
{
    let m = Mat2 { data: *a };
    put_moved(a, m.swap_columns(i, j))
}

#[unsafe(no_mangle)]
pub extern "C" fn zanikory_mat2_flip_column(i: usize, a: &mut [Real; 4]) -> u8
    ensures { mat2_answer (left result a.new) ≡ mat2_answer (flip_column_of 2 i a.old) }
{
    let m = Mat2 { data: *a };
    put_moved(a, m.flip_column(i))
}

#[unsafe(no_mangle)]
pub extern "C" fn zanikory_mat2_index(
    row: usize,
    column: usize,
    a: &[Real; 4],
    place: &mut Real,
) -> u8
    ensures { left result place.new ≡ read_of F 2 row column (square_index 2 row column) a.now }
{
    let m = Mat2 { data: *a };
    put_entry(place, m.index(row, column))
}

#[unsafe(no_mangle)]
pub extern "C" fn zanikory_mat2_index_mut(
    row: usize,
    column: usize,
    x: Real,
    a: &mut [Real; 4],
) -> u8
    ensures { mat2_answer (left result a.new) ≡ mat2_answer (write_of 2 row column (square_index 2 row column) x a.old) }
{
    let m = Mat2 { data: *a };
    put_moved(a, m.index_mut(row, column, x))
}

#[unsafe(no_mangle)]
pub extern "C" fn zanikory_mat3_transpose(a: &mut [Real; 9]) -> u8
    ensures { Outcome (done (transpose_of 3 a.old)) result a.new }
{
    let moved = Mat3 { data: *a }.transpose_in_place();
    a.copy_from_slice(&moved.data);
    DONE
}

#[unsafe(no_mangle)]
pub extern "C" fn zanikory_mat3_set_identity(a: &mut [Real; 9]) -> u8
    ensures { Outcome (done (identity_of F 3)) result a.new }
{
    let moved = Mat3 { data: *a }.set_identity();
    a.copy_from_slice(&moved.data);
    DONE
}

#[unsafe(no_mangle)]
pub extern "C" fn zanikory_mat3_swap_columns(i: usize, j: usize, a: &mut [Real; 9]) -> u8
    ensures { mat3_answer (left result a.new) ≡ mat3_answer (swap_columns_of 3 i j a.old) }
{
    let m = Mat3 { data: *a };
    put_moved(a, m.swap_columns(i, j))
}

#[unsafe(no_mangle)]
pub extern "C" fn zanikory_mat3_flip_column(i: usize, a: &mut [Real; 9]) -> u8
    ensures { mat3_answer (left result a.new) ≡ mat3_answer (flip_column_of 3 i a.old) }
{
    let m = Mat3 { data: *a };
    put_moved(a, m.flip_column(i))
}

#[unsafe(no_mangle)]
pub extern "C" fn zanikory_mat3_index(
    row: usize,
    column: usize,
    a: &[Real; 9],
    place: &mut Real,
) -> u8
    ensures { left result place.new ≡ read_of F 3 row column (square_index 3 row column) a.now }
{
    let m = Mat3 { data: *a };
    put_entry(place, m.index(row, column))
}

#[unsafe(no_mangle)]
pub extern "C" fn zanikory_mat3_index_mut(
    row: usize,
    column: usize,
    x: Real,
    a: &mut [Real; 9],
) -> u8
    ensures { mat3_answer (left result a.new) ≡ mat3_answer (write_of 3 row column (square_index 3 row column) x a.old) }
{
    let m = Mat3 { data: *a };
    put_moved(a, m.index_mut(row, column, x))
}

#[unsafe(no_mangle)]
pub extern "C" fn zanikory_sym2_index(
    row: usize,
    column: usize,
    a: &[Real; 3],
    place: &mut Real,
) -> u8
    ensures { left result place.new ≡ read_of F 2 row column (packed_index row column) a.now }
{
    let m = Sym2 { data: *a };
    put_entry(place, m.index(row, column))
}

// Writes a copy, so that copy_from is seen too.
#[unsafe(no_mangle)]
pub extern "C" fn zanikory_sym2_index_mut(
    row: usize,
    column: usize,
    x: Real,
    a: &mut [Real; 3],
) -> u8
    ensures { sym2_answer (left result a.new) ≡ sym2_answer (write_of 2 row column (packed_index row column) x a.old) }
{
    let m = Sym2::zeros().copy_from(Sym2 { data: *a });
    put_written(a, m.index_mut(row, column, x))
}

#[unsafe(no_mangle)]
pub extern "C" fn zanikory_sym3_index(
    row: usize,
    column: usize,
    a: &[Real; 6],
    place: &mut Real,
) -> u8
    ensures { left result place.new ≡ read_of F 3 row column (packed_index row column) a.now }
{
    let m = Sym3 { data: *a };
    put_entry(place, m.index(row, column))
}

// Writes a copy, so that copy_from is seen too.
#[unsafe(no_mangle)]
pub extern "C" fn zanikory_sym3_index_mut(
    row: usize,
    column: usize,
    x: Real,
    a: &mut [Real; 6],
) -> u8
    ensures { sym3_answer (left result a.new) ≡ sym3_answer (write_of 3 row column (packed_index row column) x a.old) }
{
    let m = Sym3::zeros().copy_from(Sym3 { data: *a });
    put_written(a, m.index_mut(row, column, x))
}
