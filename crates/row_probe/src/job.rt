// A job's matrices in bytes, and the answer to it. Real is f64 (float::width).
ghost use Rattle.std.specs.Prelude.{◌≤◌};
ghost use Rattle.row.specs.Row.{room_places};

use crate::found::all_found;
use float::width::NUMBER_SIZE;
use matrix::codes::code_of;
use matrix::square::Mat3;
use row::bytes::{MAT_SIZE, SVD_SIZE, put_svd};
use row::rows::{ROOM, svd_row_of};
use wire::bytes::number_at;

// What a header asks for: so many matrices and so many answers are lent.
#[derive(Clone, Copy)]
pub(crate) struct Job {
    pub(crate) n: usize,
    pub(crate) m: usize,
    ghost small: { n ≤ room_places },
}

impl Job {
    pub(crate) fn new(header: [u8; 2]) -> Option<Self> {
        let [n, m] = header;
        let n = usize::from(n);
        let m = usize::from(m);
        if ROOM < n || ROOM < m {
            return None;
        }
        Some(Job { n, m })
    }
}

fn mat3(bytes: &[u8]) -> Mat3 {
    let mut data = [0.0; 9];
    for (k, x) in data.iter_mut().enumerate() {
        *x = number_at(bytes, NUMBER_SIZE * k);
    }
    Mat3 { data }
}

// The first matrices; behind them there are zeros.
fn matrices(bytes: &[u8]) -> [Mat3; ROOM] {
    let mut mats = [Mat3 { data: [0.0; 9] }; ROOM];
    for (m, s) in mats.iter_mut().zip(bytes.chunks_exact(MAT_SIZE)) {
        *m = mat3(s);
    }
    mats
}

// The code, and all answers.
pub(crate) const ANSWER_SIZE: usize = 1 + SVD_SIZE * ROOM;

// Lends the first n matrices and the first m answers, and puts what the call gives.
pub(crate) fn answer(bytes: &[u8], out: &mut [u8; ANSWER_SIZE], job: Job) {
    let r = svd_row_of(matrices(bytes), job.n, all_found(), job.m);
    out[0] = code_of(r.ended);
    for (i, place) in r.answers.iter().enumerate() {
        put_svd(out, 1 + SVD_SIZE * i, *place);
    }
}
