// Takes jobs through runs under first come, first served, and prints every action with what it leaves.
#![tactic(auto)]

mod print;
mod stray;

use print::{enter, pass, sojourn, summary, tick};
use queues::Fcfs;
use run::{End, Run};
use show::{After, Answer, Figures};
use std::io;
use stray::stray;

fn main(rt: HostRuntime) -> io::Result<()> {
    three_jobs(&rt)?;
    lost_and_empty(&rt)?;
    two_runs(&rt)?;
    limits(&rt)
}

// Three jobs arrive in ticks 0, 1 and 2 and are served to the end.
fn three_jobs(rt: &HostRuntime) -> io::Result<()> {
    println!(rt; "three jobs under fcfs")?;
    let mut run = Run::new(Fcfs::new(), 7);
    enter(rt, &mut run, "moon", 4)?;
    tick(rt, &mut run, Some("late"), End::Done)?;
    enter(rt, &mut run, "comet", 1)?;
    pass(rt, &mut run)?;
    tick(rt, &mut run, None, End::Done)?;
    enter(rt, &mut run, "arc", 3)?;
    for _ in 0..7 {
        tick(rt, &mut run, None, End::Done)?;
    }
    summary(rt, &run)?;
    sojourn(rt, &run, 2, "arc")?;
    sojourn(rt, &run, 1, "comet")?;
    sojourn(rt, &run, 0, "moon")?;
    sojourn(rt, &run, 3, "late")
}

// A lost tick, worked ticks, and an empty one.
fn lost_and_empty(rt: &HostRuntime) -> io::Result<()> {
    println!(rt; "a lost tick and an empty one")?;
    let mut run = Run::new(Fcfs::new(), 8);
    enter(rt, &mut run, "star", 1)?;
    tick(rt, &mut run, Some("late"), End::Back)?;
    enter(rt, &mut run, "late", 1)?;
    tick(rt, &mut run, None, End::Done)?;
    tick(rt, &mut run, None, End::Done)?;
    pass(rt, &mut run)?;
    summary(rt, &run)
}

// The lease of one run is handed in to another, and then back to its own.
fn two_runs(rt: &HostRuntime) -> io::Result<()> {
    println!(rt; "a lease and another run")?;
    let mut own = Run::new(Fcfs::new(), 9);
    let mut other = Run::new(Fcfs::new(), 10);
    enter(rt, &mut own, "star", 2)?;
    enter(rt, &mut other, "star", 2)?;
    let answer = Answer::from(stray(&mut own, &mut other));
    let figures = Figures::of(&other);
    println!(rt; "done by the other: {}", After { answer, figures })?;
    let after = Figures::of(&own);
    println!(rt; "back by its own: accepted; {after}")
}

// Sizes and names at the edge of their rules, and the 1,025th job.
fn limits(rt: &HostRuntime) -> io::Result<()> {
    println!(rt; "sizes, names and the full book")?;
    let mut run = Run::new(Fcfs::new(), 11);
    enter(rt, &mut run, "abcdefgh", 10_000)?;
    enter(rt, &mut run, "abcdefgh", 10_001)?;
    enter(rt, &mut run, "abcdefgh", 0)?;
    enter(rt, &mut run, "abcdefghi", 1)?;
    enter(rt, &mut run, "Moon", 1)?;
    enter(rt, &mut run, "", 1)?;
    for _ in 0..1023 {
        let _ = run.enter(b"filler", 1);
    }
    enter(rt, &mut run, "one-more", 1)
}
