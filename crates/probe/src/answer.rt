// An answer, word by word. Real is f64 (float::width).
use float::bits::to_bits;
use float::width::Real;
use matrix::answers::Unchanged;
use matrix::codes::{DONE, Refusal};

// The most words of an answer.
pub(crate) const MOST_WORDS: usize = 64;

// The first `len` words are put; the others are 0.
#[derive(Drop)]
pub(crate) struct Answer {
    words: [u64; MOST_WORDS],
    len: usize,
}

impl Answer {
    pub(crate) fn new() -> Self {
        Answer {
            words: [0; MOST_WORDS],
            len: 0,
        }
    }

    // A word behind the last one has no place.
    pub(crate) fn word(&mut self, word: u64) {
        if self.len < MOST_WORDS {
            self.words[self.len] = word;
            self.len += 1;
        }
    }

    pub(crate) fn number(&mut self, x: Real) {
        self.word(to_bits(x));
    }

    pub(crate) fn numbers(&mut self, numbers: &[Real]) {
        for x in numbers {
            self.number(*x);
        }
    }

    pub(crate) fn code(&mut self, code: u8) {
        self.word(u64::from(code));
    }

    // The code of a call. What it hands out goes on to whoever puts it.
    pub(crate) fn told<T>(&mut self, r: Result<T, Refusal>) -> Option<T> {
        match r {
            Ok(x) => {
                self.code(DONE);
                Some(x)
            }
            Err(why) => {
                self.code(u8::from(why));
                None
            }
        }
    }

    // The code of a call on a matrix. The one that it hands out, or back, goes on to whoever puts it.
    pub(crate) fn handed<M>(&mut self, r: Result<M, Unchanged<M>>) -> M {
        match r {
            Ok(matrix) => {
                self.code(DONE);
                matrix
            }
            Err(Unchanged { why, matrix }) => {
                self.code(u8::from(why));
                matrix
            }
        }
    }

    // The first words, as many as there is room for, each from its lowest byte up.
    pub(crate) fn put(&self, out: &mut [u8]) {
        for (bytes, word) in out.chunks_exact_mut(8).zip(&self.words) {
            bytes.copy_from_slice(&word.to_le_bytes());
        }
    }
}
