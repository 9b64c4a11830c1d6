// Answers single operations of the proved crates, so that a run beside the Rust tests the build that was proved.
//
// Standard input has jobs, one after the other. A job is a header of 8 bytes and its items. The header: the operation, the words
// of an item (1 to 40), the words of an answer (1 to 64), a zero, and the number of items in four bytes; 0 stands for all to the
// input's end. Each whole item is answered; a part of one at the end is dropped.
#![tactic(auto)]

mod answer;
mod item;
mod job;
mod of_cholesky;
mod of_eigen;
mod of_float;
mod of_matrix;
mod of_svd;
mod operations;
mod streams;

ghost use Rattle.std.specs.Prelude.{◌≤◌};

use crate::item::Item;
use crate::job::{HEADER_SIZE, Job};
use crate::streams::{read_full, write_all};
use arrayvec::ArrayString;
use std::fmt::{self, Write};

// Why the program stops before the end of its input.
#[derive(Clone, Copy, Debug, PartialEq, Eq)]
enum Failure {
    BadHeader,
    CannotWrite,
}

impl fmt::Display for Failure {
    fn fmt<W: fmt::Write>(&self, f: &mut fmt::Formatter<W>) -> fmt::Result {
        f.write_str(match self {
            Failure::BadHeader => "bad header",
            Failure::CannotWrite => "cannot write",
        })
    }
}

// The items of a round go into one buffer, and their answers into another of this size.
const BUFFER_SIZE: usize = 65536;

// How many items a round takes: of any size they and their answers fit into the buffers.
const MOST: usize = 128;

#[derive(Drop)]
struct Buffers {
    items: [u8; BUFFER_SIZE],
    answers: [u8; BUFFER_SIZE],
}

// The bytes that the line of a failure may have.
const MOST_LINE: usize = 64;

// The next job, if there is one. A read that fails counts as the end of the input.
fn next_job(rt: &HostRuntime) -> Result<Option<Job>, Failure> {
    let mut header = [0; HEADER_SIZE];
    match read_full(&mut rt.stdin(), &mut header) {
        0 => Ok(None),
        HEADER_SIZE => Ok(Some(Job::new(header).ok_or(Failure::BadHeader)?)),
        _ => Err(Failure::BadHeader),
    }
}

// Answers the whole items among the first bytes.
fn answer_items(buffers: &mut Buffers, job: Job, came: usize)
    requires { came ≤ 65536 }
{
    let items = buffers.items[..came].chunks_exact(8 * job.n);
    let answers = buffers.answers.chunks_exact_mut(8 * job.m);
    for (item, out) in items.zip(answers) {
        if let Some(answer) = operations::answer(job.op, &mut Item::new(item)) {
            answer.put(out);
        }
    }
}

// Reads so many items, or what is left, and answers the whole ones; says whether all came.
fn round(rt: &HostRuntime, buffers: &mut Buffers, job: Job, most: usize) -> Result<bool, Failure>
    requires { most ≤ 128 }
{
    let size = 8 * job.n;
    let end = most * size;
    let came = read_full(&mut rt.stdin(), &mut buffers.items[..end]);
    answer_items(buffers, job, came);
    let count = came / size;
    let full = count * (8 * job.m);
    if write_all(&mut rt.stdout(), &buffers.answers[..full]) {
        Ok(came == end)
    } else {
        Err(Failure::CannotWrite)
    }
}

// Answers the items of a job, or as many as there are; says whether there may be a job behind them.
fn serve(rt: &HostRuntime, buffers: &mut Buffers, job: Job) -> Result<bool, Failure> {
    let mut left = job.items;
    // a round takes the most that there is room for, and the last one what is left
    while left > 0 {
        let most = left.min(MOST);
        if !round(rt, buffers, job, most)? {
            return Ok(false);
        }
        left -= most;
    }
    Ok(true)
}

// A proved loop has to end, and nothing says that the input does: no run uses up so many jobs.
fn run(rt: &HostRuntime) -> Result<(), Failure> {
    let mut buffers = Buffers {
        items: [0; BUFFER_SIZE],
        answers: [0; BUFFER_SIZE],
    };
    for _ in 0..u64::MAX {
        let Some(job) = next_job(rt)? else {
            return Ok(());
        };
        if !serve(rt, &mut buffers, job)? {
            return Ok(());
        }
    }
    Ok(())
}

fn main(rt: HostRuntime) {
    if let Err(why) = run(&rt) {
        // one line, by one write: as with an answer, a write that fails ends the matter
        let mut line = ArrayString::<MOST_LINE>::new();
        let _ = writeln!(line, "probe: {why}");
        write_all(&mut rt.stderr(), line.as_bytes());
    }
}
