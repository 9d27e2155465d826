// Examples at the edge of the rules: sizes, names, and entering while a lease is out.
use crate::run::Run;
use queues::Fcfs;
use refusal::Refusal;
use std::test::Fail;

#[test]
fn sizes(rt: HostRuntime) {
    let mut run = Run::new(Fcfs::new(), 1);
    assert_eq!(rt; run.enter(b"a", 10_000), Ok(0));
    assert_eq!(rt; run.enter(b"a", 10_001), Err(Refusal::Size));
    assert_eq!(rt; run.enter(b"a", 0), Err(Refusal::Size));
}

#[test]
fn names(rt: HostRuntime) {
    let mut run = Run::new(Fcfs::new(), 1);
    assert_eq!(rt; run.enter(b"abcdefgh", 1), Ok(0));
    assert_eq!(rt; run.enter(b"abcdefghi", 1), Err(Refusal::Name));
    assert_eq!(rt; run.enter(b"Moon", 1), Err(Refusal::Name));
}

#[test]
fn entering_waits_for_the_lease(rt: HostRuntime) -> Result<(), Fail> {
    let mut run = Run::new(Fcfs::new(), 1);
    assert_eq!(rt; run.enter(b"a", 1), Ok(0));
    let Ok(lease) = run.take() else {
        return Err(Fail::new("no lease was given"));
    };
    let meanwhile = run.enter(b"b", 1);
    let Ok(()) = run.back(lease) else {
        unreachable()
    };
    assert_eq!(rt; meanwhile, Err(Refusal::LeaseOut));
    assert_eq!(rt; run.enter(b"b", 1), Ok(1));
    Ok(())
}
