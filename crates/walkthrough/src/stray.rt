// A lease that goes astray, and comes back.
use discipline::Discipline;
use refusal::Refusal;
use run::Run;

// One run's lease is handed in to another run, and where that refuses it, back to its own. Answers
// what the other run answered, or why there was no lease to hand in.
pub fn stray<D: Discipline>(own: &mut Run<D>, other: &mut Run<D>) -> Result<(), Refusal> {
    let lease = own.take()?;
    match other.done(lease) {
        Ok(()) => Ok(()),
        Err((cause, lease)) => {
            let Ok(()) = own.back(lease) else {
                unreachable()
            };
            Err(cause)
        }
    }
}
