// Takes two jobs through a run under round robin, and a list of calls through a contest of SRPT with first come first served, and prints every action with what it leaves.
#![tactic(auto)]

mod side_by_side;

use queues::{Quantum, RoundRobin};
use run::{End, Run};
use show::{After, Answer, Summary, TickReport, tick};
use side_by_side::side_by_side;
use std::io;

fn main(rt: HostRuntime) -> anyhow::Result<()> {
    taking_turns(&rt)?;
    side_by_side(&rt)
}

// Quantums at the edge of their rule, and two jobs of two units that take turns of one unit.
fn taking_turns(rt: &HostRuntime) -> io::Result<()> {
    println!(rt; "two jobs under round robin, quantum 1")?;
    for units in [0, 10_000, 10_001] {
        let answer = Answer::from(Quantum::new(units).map(|_| ()));
        println!(rt; "quantum {units}: {answer}")?;
    }
    let Ok(quantum) = Quantum::new(1) else {
        return Ok(());
    };
    let mut run = Run::new(RoundRobin::new(quantum), 13);
    for name in ["sun", "moon"] {
        let after = After::enter(&mut run, name, 2);
        println!(rt; "enter {name} 2: {after}")?;
    }
    for _ in 0..4 {
        let tick = tick(&mut run, None, End::Done);
        println!(rt; "{}", TickReport { tick })?;
    }
    let summary = Summary::of(&run);
    println!(rt; "{summary}")
}
