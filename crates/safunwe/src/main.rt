// The console program: prints the lines of the trace on standard input and their numbers, or why it is refused.
#![tactic(auto)]

use std::io;
use std::io::{BufWriter, Read, Write};
use trace::line::LineTokens;
use trace::lines::Lines;
use trace::whole::{Counts, MAX_TRACE, whole_trace};

// The most bytes that are read: one more than a trace may have, by which a longer input is known.
// It is cast, since a constant calls no function and `u64` has no `From<usize>`.
const MAX_READ: u64 = MAX_TRACE as u64 + 1;

// One line: its place, and what its tokens say.
fn print_line<W: Write>(out: &mut W, place: usize, line: &LineTokens) -> io::Result<()> {
    let tick = line.tick();
    match line {
        LineTokens::Job { size, name, .. } => {
            let size = size.value();
            write!(out, "{place}: job {tick} {size} ")?;
            out.write_all(name.bytes())?;
            out.write_all(b"\n")
        }
        LineTokens::Lost { .. } => writeln!(out, "{place}: lost {tick}"),
    }
}

// Every line of a trace that is accepted, and how many there are; otherwise why it is refused.
fn report<W: Write>(out: &mut W, trace: &[u8]) -> io::Result<()> {
    match whole_trace(trace) {
        Ok(Counts { jobs, lines }) => {
            for line in Lines::new(trace) {
                // An accepted trace has no refused line, so `unwrap` cannot fail here: the proof shows it.
                let (line, place) = line.unwrap();
                print_line(out, place, &line)?;
            }
            writeln!(out, "jobs {jobs} lines {lines}")
        }
        Err(refused) => writeln!(out, "{refused}"),
    }
}

fn run(rt: &HostRuntime) -> io::Result<()> {
    let mut trace = Vec::new(rt.alloc());
    rt.stdin().take(MAX_READ).read_to_end(&mut trace)?;
    let mut out = BufWriter::new(rt.alloc(), rt.stdout())?;
    report(&mut out, &trace)?;
    out.flush()
}

// An error of the input or of the output is told on standard error, and the program then ends with status 1.
fn main(rt: HostRuntime) -> io::Result<()> {
    run(&rt)
}
