// The program's reads and writes. What they move no contract can say, and tests show it; what they leave of the bytes at hand, and the
// bounds of what they answer, is said here. Each program has its own: a library's function has one answer within its promise, and these have not.
ghost use Rattle.std.specs.Prelude.{◌<◌, length};
ghost use Rattle.float.specs.Width.{F};
ghost use Rattle.stdio.specs.Calls.{Ended, ReadBehind};
ghost use Rattle.tally.specs.Buffers.{room};
ghost use Rattle.tally.specs.Given.{Text};

use crate::{LARGE, ROOM};
use std::io::{Read, Stdin, Stdout, Write};
use stdio::{Outcome, Writing, ended, to_write, wrote};

// One read, behind the `have` bytes that are kept. It is lent the whole buffer, since the promise is that these bytes stay. There is room for a byte at least,
// so that none read is the end of the input.
pub(crate) fn read(mut input: Stdin, buf: &mut [u8; LARGE], have: usize) -> Outcome
    requires { have < room F }
    ensures { ReadBehind have (room F) buf.old buf.new result }
{
    let got = input.read(&mut buf[have..ROOM]);
    ended(got, ROOM - have)
}

// Writes a listing, until no call follows: fewer bytes are written than there are only if a write failed.
pub(crate) fn put(mut output: Stdout, out: &[u8]) -> Writing
    requires { Text out.now }
    ensures { Ended (length out.now) result }
{
    // `Writing` has the bound of these calls, and `calls_fall` is a law on it: a `for` would count them a second time.
    let mut w = to_write(out.len());
    while w.calls > 0 {
        let got = output.write(&out[w.written..]);
        w = wrote(w, out.len(), ended(got, out.len() - w.written));
    }
    w
}
