// The row call on bytes, for a host: matrices of nine numbers, and answers of one size, one after the other. Real is f64 (float::width).
ghost use Rattle.std.specs.Prelude.{◌≡◌, ◌++◌, ◌+◌, ◌*◌, ◌≤◌, ◌<◌, length, take};
ghost use Rattle.std.proofs.lemmas.List.Edits.{sets};
ghost use Rattle.float.specs.Width.{F};
ghost use Rattle.matrix.specs.Answer.{Outcome};
ghost use Rattle.matrix.specs.Codes.{code_of};
ghost use Rattle.matrix.specs.Square.{mat3};
ghost use Rattle.wire.specs.Bytes.{place_of, number_at, numbers_from, number_bytes_of, placed_of};
ghost use Rattle.row.specs.Row.{single_of, answer_in};
ghost use Rattle.row.specs.Bytes.{mat_size, mat_at, values_at, svd_size, svd_bytes_of, bytes_code_of, svd_row_bytes_of};

use crate::rows::{SvdPlace, row_gate};
use float::width::NUMBER_SIZE;
use matrix::codes::Refusal;
use matrix::square::Mat3;
use std::array;
use svd::svd3x3::svd;
use wire::bytes::{number_at, put_numbers};

pub const MAT_SIZE: usize = 9 * NUMBER_SIZE;

const VALUES_AT: usize = 8;

const U_AT: usize = VALUES_AT + 3 * NUMBER_SIZE;

const V_AT: usize = U_AT + 9 * NUMBER_SIZE;

const WORKED_AT: usize = V_AT + 9 * NUMBER_SIZE;

// The size of an answer.
pub const SVD_SIZE: usize = WORKED_AT + 9 * NUMBER_SIZE;

fn mat3_in(s: &[u8], at: usize) -> Mat3
    requires { at + mat_size F ≤ length s.now }
    ensures { result ≡ mat3 (numbers_from F 9 at s.now) }
{
    Mat3 {
        data: array::from_fn(|i| number_at(s, at + NUMBER_SIZE * i)),
    }
}

// The matrix that begins at byte `at`. It is read in a slice of its own size: there the compiler knows that each number is whole, and copies no part of one.
fn mat3_at(s: &[u8], at: usize) -> Mat3
    requires { at + mat_size F ≤ length s.now }
    ensures { result ≡ mat3 (numbers_from F 9 at s.now) }
{
    mat3_in(&s[at..at + MAT_SIZE], 0)
}

// The answer's bytes from `at` on, where there is room for all of them: code, count and mark, zeros up to the numbers, and the numbers.
fn put_parts(out: &mut [u8], at: usize, r: SvdPlace)
    requires { at + svd_size F ≤ length out.old }
    ensures { out.new ≡ placed_of at (svd_bytes_of F (answer_in r)) out.old }
{
    let head = [r.code, r.made.count, u8::from(r.settled), 0, 0, 0, 0, 0];
    out[at..at + VALUES_AT].copy_from_slice(&head);
    put_numbers(out, at + VALUES_AT, &r.values);
    put_numbers(out, at + U_AT, &r.u.data);
    put_numbers(out, at + V_AT, &r.v.data);
    put_numbers(out, at + WORKED_AT, &r.worked.data);
}

// The answer's bytes from `at` on; without room for all of them nothing is written.
pub fn put_svd(out: &mut [u8], at: usize, r: SvdPlace)
    ensures { out.new ≡ placed_of at (svd_bytes_of F (answer_in r)) out.old }
{
    // a difference, since the sum of `at` and the answer's size could be past the largest usize
    if SVD_SIZE <= out.len().saturating_sub(at) {
        put_parts(out, at, r);
    }
}

// By the lengths alone. Bytes that are no whole places are rows of unequal length.
#[tactic(auto, unfolding(crate::specs::Bytes::bytes_code_of))]
fn bytes_gate(mats: usize, answers: usize) -> Result<(), Refusal>
    ensures { code_of result ≡ bytes_code_of F mats answers }
{
    if mats % MAT_SIZE != 0 || answers % SVD_SIZE != 0 {
        return Err(Refusal::RowsUnequal);
    }
    row_gate(mats / MAT_SIZE, answers / SVD_SIZE)
}

// Answers the matrix in place i.
fn answer_place(mats: &[u8], answers: &mut [u8], i: usize)
    requires { (mat_size F * i + mat_size F ≤ length mats.now) × (svd_size F * i + svd_size F ≤ length answers.old) }
    ensures { take (svd_size F * i + svd_size F) answers.new
        ≡ take (svd_size F * i) answers.old ++ svd_bytes_of F (single_of F (mat_at F i mats.now)) }
{
    let r = svd(mat3_at(mats, MAT_SIZE * i));
    put_svd(answers, SVD_SIZE * i, SvdPlace::from(r));
}

// The row call of `rows` on bytes: nine numbers for a matrix, and SVD_SIZE bytes for an answer.
pub fn zanikory_svd_3x3_row(mats: &[u8], answers: &mut [u8]) -> Result<(), Refusal>
    ensures { Outcome (svd_row_bytes_of F mats.now answers.old) (code_of result) answers.new }
{
    bytes_gate(mats.len(), answers.len())?;
    // by the number of a place: of bytes that an iterator over places writes nothing is known
    for i in 0..mats.len() / MAT_SIZE {
        answer_place(mats, answers, i);
    }
    Ok(())
}
