// The lease: the right to end one tick of a run. It is handed in, once, to `done` or to `back` (or to `end`, which is one of them).
ghost use Rattle.std.specs.Prelude.{◌≡◌, ◌≤◌};

// Only a run gives one out, and only handing it in spends it.
pub struct Lease {
    pub(crate) mark: u16,
    pub(crate) tick: u32,
    pub(crate) job: u32,
}

// A lease may not be let go: a run gives one only for a tick below the last, and dropping one asks for a tick that is not.
impl Drop for Lease {
    fn drop(self)
        requires { 16777215 ≤ self.tick }
    {
        let Lease {
            mark: _,
            tick: _,
            job: _,
        } = self;
    }
}

impl Lease {
    // The mark of the run that gave it.
    pub fn mark(&self) -> u16
        ensures { result ≡ self.now.mark }
    {
        self.mark
    }

    // The tick that it ends.
    pub fn tick(&self) -> u32
        ensures { result ≡ self.now.tick }
    {
        self.tick
    }

    // The job to work on.
    pub fn job(&self) -> u32
        ensures { result ≡ self.now.job }
    {
        self.job
    }

    // Ends a lease that was handed in.
    pub(crate) fn spend(self) {
        let Lease {
            mark: _,
            tick: _,
            job: _,
        } = self;
    }
}
