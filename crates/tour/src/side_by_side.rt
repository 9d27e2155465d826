// SRPT beside first come, first served: one list of calls on two runs, printed call by call.
use contest::{Call, Hand, Pair, Round, contest};
use queues::Fcfs;
use run::Run;
use show::Summary;
use std::alloc::{AllocError, Global};
use std::io;

// One call more.
fn add<'a>(rounds: &mut Vec<Round<'a>>, call: Call<'a>) -> Result<(), AllocError> {
    rounds.push(Round::of(call))?;
    Ok(())
}

// A job arrives.
fn arrive<'a>(rounds: &mut Vec<Round<'a>>, name: &'a [u8], size: u32) -> Result<(), AllocError> {
    add(rounds, Call::Enter { name, size })
}

// So many ticks in which the leased job is worked on.
fn serve(rounds: &mut Vec<Round>, ticks: u32) -> Result<(), AllocError> {
    for _ in 0..ticks {
        add(rounds, Call::Take)?;
        add(rounds, Call::Done(Hand::Own))?;
    }
    Ok(())
}

// Three jobs arrive in ticks 0, 1 and 2 and are served to the end; then come an empty tick, a lost one, and a lease that stays out.
// On the way some calls are refused.
fn sample(heap: Global) -> Result<Vec<Round<'static>>, AllocError> {
    let mut rounds = Vec::new(heap);
    arrive(&mut rounds, b"moon", 4)?;
    add(&mut rounds, Call::Take)?;
    arrive(&mut rounds, b"late", 1)?;
    add(&mut rounds, Call::Done(Hand::Stray))?;
    add(&mut rounds, Call::Done(Hand::Own))?;
    arrive(&mut rounds, b"comet", 1)?;
    add(&mut rounds, Call::Pass)?;
    serve(&mut rounds, 1)?;
    arrive(&mut rounds, b"arc", 3)?;
    serve(&mut rounds, 6)?;
    add(&mut rounds, Call::Take)?;
    add(&mut rounds, Call::Pass)?;
    arrive(&mut rounds, b"star", 1)?;
    add(&mut rounds, Call::Take)?;
    add(&mut rounds, Call::Back(Hand::Own))?;
    add(&mut rounds, Call::Take)?;
    Ok(rounds)
}

// Whether a round ended a tick.
fn ends_tick(round: &Round) -> bool {
    match round.call {
        Call::Done(_) | Call::Back(_) | Call::Pass => round.srpt.answer.is_ok(),
        Call::Enter { .. } | Call::Take => false,
    }
}

// The rounds, each with its tick.
fn print_rounds(rt: &HostRuntime, rounds: &[Round]) -> io::Result<()> {
    let mut tick: u32 = 0;
    for round in rounds {
        let Round { call, srpt, rival } = round;
        println!(rt; "tick {tick}, {call} | srpt: {srpt} | fcfs: {rival}")?;
        if ends_tick(round) {
            tick = tick.saturating_add(1);
        }
    }
    Ok(())
}

pub fn side_by_side(rt: &HostRuntime) -> anyhow::Result<()> {
    println!(rt; "srpt beside fcfs")?;
    let mut rounds = sample(rt.alloc())?;
    let mut third = Run::new(Fcfs::new(), 12);
    let _ = third.enter(b"other", 1);
    let Ok(stray) = third.take() else {
        return Ok(());
    };
    let Pair { srpt, rival, stray } = contest(Fcfs::new(), stray, &mut rounds);
    let srpt = srpt.hand_back();
    let rival = rival.hand_back();
    let Ok(()) = third.back(stray) else {
        unreachable()
    };
    print_rounds(rt, &rounds)?;
    let (srpt, rival) = (Summary::of(&srpt), Summary::of(&rival));
    println!(rt; "srpt, its last lease handed back\n{srpt}")?;
    println!(rt; "fcfs, its last lease handed back\n{rival}")?;
    Ok(())
}
