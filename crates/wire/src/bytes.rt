// Words and numbers in byte slices, the lowest byte first. Real is f64 (float::width).
ghost use Rattle.std.specs.Prelude.{◌≡◌, ◌+◌, ◌*◌, ◌≤◌, length, to_bits};
ghost use Rattle.std.proofs.lemmas.List.Edits.{sets};
ghost use Rattle.float.specs.Width.{F};
ghost use Rattle.wire.specs.Bytes.{number_bytes, word_of, bytes_of, number_at, number_bytes_of, placed_of, zero_from};

use float::bits::{of_bits, to_bits};
use float::width::{Bits, NUMBER_SIZE, Real};

fn word(bytes: [u8; NUMBER_SIZE]) -> Bits
    ensures { result ≡ word_of bytes }
{
    Bits::from_le_bytes(bytes)
}

// The number at byte `at`; bytes behind the last one count as zeros.
pub fn number_at(s: &[u8], at: usize) -> Real
    ensures { result ≡ number_at F at s.now }
{
    let rest = &s[at.min(s.len())..];
    // most numbers are there as a whole, and eight bytes that are known to be there are one load
    if let Some(bytes) = rest.first_chunk() {
        return of_bits(word(*bytes));
    }
    let mut bytes = [0; NUMBER_SIZE];
    bytes[..rest.len()].copy_from_slice(rest);
    of_bits(word(bytes))
}

// x's eight bytes from `at` on.
fn put(out: &mut [u8], at: usize, x: Real)
    requires { at + number_bytes F ≤ length out.old }
    ensures { out.new ≡ sets out.old at (bytes_of (number_bytes F) (to_bits F x)) }
{
    out[at..at + NUMBER_SIZE].copy_from_slice(&to_bits(x).to_le_bytes());
}

// The numbers' bytes from `at` on; without room for all of them nothing is written.
pub fn put_numbers(out: &mut [u8], at: usize, xs: &[Real])
    ensures { out.new ≡ placed_of at (number_bytes_of F xs.now) out.old }
{
    // a difference and a quotient, since the sum of `at` and the numbers' bytes could be past the largest usize
    if at > out.len() || xs.len() > (out.len() - at) / NUMBER_SIZE {
        return;
    }
    for (i, x) in xs.iter().enumerate() {
        put(out, at + NUMBER_SIZE * i, *x);
    }
}

// Whether all bytes from `a` up to `e` are zero; those behind the last one do not count.
pub fn zeros_in(s: &[u8], a: usize, e: usize) -> bool
    ensures { result ≡ zero_from a e s.now }
{
    let end = e.min(s.len());
    // it takes every byte in and never stops early, so that the compiler can take many at a time
    s[a.min(end)..end].iter().fold(0, |any, b| any | *b) == 0
}
