// A contest with first come, first served: a job of 5 units in tick 0, one of 2 units in tick 2, and every tick worked.
use crate::calls::{Call, Hand, Round};
use crate::pair::Pair;
use crate::rounds::contest;
use queues::Fcfs;
use run::Run;
use std::array;
use std::test::Fail;

fn call(round: usize) -> Call<'static> {
    match round {
        0 => Call::Enter {
            name: b"a",
            size: 5,
        },
        5 => Call::Enter {
            name: b"b",
            size: 2,
        },
        1 | 3 | 6 | 8 | 10 | 12 | 14 => Call::Take,
        _ => Call::Done(Hand::Own),
    }
}

#[test]
fn shorter_job_overtakes(rt: HostRuntime) -> Result<(), Fail> {
    let mut third = Run::new(Fcfs::new(), 1);
    let _ = third.enter(b"c", 1);
    let Ok(stray) = third.take() else {
        return Err(Fail::new("no lease was given"));
    };
    let mut rounds: [Round; 16] = array::from_fn(|i| Round::of(call(i)));
    let Pair { srpt, rival, stray } = contest(Fcfs::new(), stray, &mut rounds);
    let srpt = srpt.hand_back();
    let rival = rival.hand_back();
    let Ok(()) = third.back(stray) else {
        unreachable()
    };
    assert_eq!(rt; (srpt.clock(), srpt.total()), (7, 9));
    assert_eq!(rt; (rival.clock(), rival.total()), (7, 10));
    Ok(())
}
