// Makes the row call on rows of any lengths, so that a run beside the Rust tests the build that was proved.
//
// Standard input has jobs, one after the other. A job is a header of 2 bytes, how many matrices and how many answers are lent (0 to 65
// each), and the matrices. Before the call each of the 65 answers is what `found` makes it. A job is answered by the code and all 65
// answers as the call leaves them; a part of a job at the end is dropped.
#![tactic(auto)]

mod found;
mod job;
mod streams;

use crate::job::{ANSWER_SIZE, Job, answer};
use crate::streams::{read_full, write_all};
use arrayvec::ArrayString;
use row::bytes::MAT_SIZE;
use row::rows::ROOM;
use std::fmt::{self, Write};

// Why the program stops before the end of its input.
#[derive(Clone, Copy, Debug, PartialEq, Eq)]
enum Failure {
    BadHeader,
    CannotWrite,
}

impl fmt::Display for Failure {
    fn fmt<W: fmt::Write>(&self, f: &mut fmt::Formatter<W>) -> fmt::Result {
        f.write_str(match self {
            Failure::BadHeader => "bad header",
            Failure::CannotWrite => "cannot write",
        })
    }
}

// The matrices of a job, and the answer to it.
#[derive(Drop)]
struct Buffers {
    mats: [u8; MAT_SIZE * ROOM],
    answer: [u8; ANSWER_SIZE],
}

// The bytes that the line of a failure may have.
const MOST_LINE: usize = 64;

// The next job, if there is one. A read that fails counts as the end of the input.
fn next_job(rt: &HostRuntime) -> Result<Option<Job>, Failure> {
    let mut header = [0; 2];
    if read_full(&mut rt.stdin(), &mut header) != 2 {
        return Ok(None);
    }
    Ok(Some(Job::new(header).ok_or(Failure::BadHeader)?))
}

// Reads a job's matrices and answers it; says whether all of them came.
fn serve(rt: &HostRuntime, buffers: &mut Buffers, job: Job) -> Result<bool, Failure> {
    let end = MAT_SIZE * job.n;
    if read_full(&mut rt.stdin(), &mut buffers.mats[..end]) != end {
        return Ok(false);
    }
    answer(&buffers.mats[..end], &mut buffers.answer, job);
    if write_all(&mut rt.stdout(), &buffers.answer) {
        Ok(true)
    } else {
        Err(Failure::CannotWrite)
    }
}

// A proved loop has to end, and nothing says that the input does: no run uses up so many jobs.
fn run(rt: &HostRuntime) -> Result<(), Failure> {
    let mut buffers = Buffers {
        mats: [0; MAT_SIZE * ROOM],
        answer: [0; ANSWER_SIZE],
    };
    for _ in 0..u64::MAX {
        let Some(job) = next_job(rt)? else {
            return Ok(());
        };
        if !serve(rt, &mut buffers, job)? {
            return Ok(());
        }
    }
    Ok(())
}

fn main(rt: HostRuntime) {
    if let Err(why) = run(&rt) {
        // one line, by one write: as with an answer, a write that fails ends the matter
        let mut line = ArrayString::<MOST_LINE>::new();
        let _ = writeln!(line, "row_probe: {why}");
        write_all(&mut rt.stderr(), line.as_bytes());
    }
}
