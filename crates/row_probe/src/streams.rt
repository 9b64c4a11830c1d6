// Standard input and output. A read or a write that fails ends the matter, also one that a signal broke off, which std's own calls would make again. The
// same stands in the other probe: a library's public function has one answer within its promise, and of a stream no contract can say so much.
ghost use Rattle.std.specs.Prelude.{◌≤◌, length, take};
ghost use Rattle.std.specs.Bool.{OnTrue};
ghost use Rattle.std.specs.Io.KnownBytes.{Appends, Consumes};

use std::io::{Read, Write};

// Reads until buf is full, the input ends or a read fails, and says how many bytes came; they stand at the front.
pub(crate) fn read_full<R: Read>(from: &mut R, buf: &mut [u8]) -> usize
    ensures bound { result ≤ length buf.new }
    ensures bytes { Consumes (R.remaining from.old) (R.remaining from.new) (take result buf.new) }
{
    // how far a read goes only the call says, so no iterator has its steps
    let mut done = 0;
    while done < buf.len() {
        match from.read(&mut buf[done..]) {
            Ok(0) => return done,
            Ok(came) => done += came,
            Err(_) => return done,
        }
    }
    done
}

// Writes all of the bytes, or stops at the first write that takes nothing or fails; says whether all are written.
pub(crate) fn write_all<W: Write>(to: &mut W, bytes: &[u8]) -> bool
    ensures { OnTrue result (Appends (W.contents to.old) (W.contents to.new) bytes.now) }
{
    // nor those of a write
    let mut done = 0;
    while done < bytes.len() {
        match to.write(&bytes[done..]) {
            Ok(0) => return false,
            Ok(taken) => done += taken,
            Err(_) => return false,
        }
    }
    true
}
