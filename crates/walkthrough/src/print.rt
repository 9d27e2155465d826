// Actions on a run, each printed on a line with its answer and the figures after it.
use discipline::Discipline;
use run::{End, Run};
use show::{After, Answer, Summary, TickReport};
use std::io;

// A job tries to enter.
pub fn enter<D: Discipline>(
    rt: &HostRuntime,
    run: &mut Run<D>,
    name: &str,
    size: u32,
) -> io::Result<()> {
    let after = After::enter(run, name, size);
    println!(rt; "enter {name} {size}: {after}")
}

// The run is asked for an empty tick.
pub fn pass<D: Discipline>(rt: &HostRuntime, run: &mut Run<D>) -> io::Result<()> {
    let after = After::pass(run);
    println!(rt; "pass: {after}")
}

// A whole tick that ends so, in which a job with the name `late`, if one is given, tries to enter.
pub fn tick<D: Discipline>(
    rt: &HostRuntime,
    run: &mut Run<D>,
    late: Option<&str>,
    end: End,
) -> io::Result<()> {
    let tick = show::tick(run, late, end);
    println!(rt; "{}", TickReport { tick })
}

// The figures of a whole run.
pub fn summary<D: Discipline>(rt: &HostRuntime, run: &Run<D>) -> io::Result<()> {
    let summary = Summary::of(run);
    println!(rt; "{summary}")
}

// The sojourn of one job.
pub fn sojourn<D: Discipline>(
    rt: &HostRuntime,
    run: &Run<D>,
    job: u32,
    name: &str,
) -> io::Result<()> {
    match run.sojourn(job) {
        Ok(sojourn) => println!(rt; "sojourn of {name}: {sojourn}"),
        Err(cause) => println!(rt; "sojourn of {name}: {}", Answer { told: Err(cause) }),
    }
}
