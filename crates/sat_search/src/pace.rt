//! When the search begins anew, and when it lets go of clauses.

/// How the conflicts went. Glue is how many levels the literals of a learnt clause have.
#[derive(Drop)]
pub(crate) struct Pace {
    conflicts: u64,
    /// Conflicts since the last restart.
    since: u64,
    /// The mean glue of the last conflicts, and of many, in 65,536ths.
    fast: u64,
    slow: u64,
    reduce_at: u64,
}

impl Pace {
    pub(crate) fn new() -> Pace {
        Pace {
            conflicts: 0,
            since: 0,
            fast: 0,
            slow: 0,
            reduce_at: 2000,
        }
    }

    pub(crate) fn note_conflict(&mut self) {
        self.conflicts = self.conflicts.saturating_add(1);
        self.since = self.since.saturating_add(1);
    }

    pub(crate) fn note_glue(&mut self, glue: u32) {
        let glue = u64::from(glue) * 65536;
        self.fast = (self.fast - self.fast / 32).saturating_add(glue / 32);
        self.slow = (self.slow - self.slow / 4096).saturating_add(glue / 4096);
    }

    /// Whether it is time to let go of clauses.
    pub(crate) fn is_full(&self) -> bool {
        self.conflicts >= self.reduce_at
    }

    pub(crate) fn note_reduced(&mut self) {
        self.reduce_at = self
            .conflicts
            .saturating_add(2000)
            .saturating_add(self.conflicts / 8);
    }

    /// Whether the last conflicts were worse than most, so that it is time for a restart.
    pub(crate) fn is_stuck(&self) -> bool {
        self.since > 50 && self.fast / 5 > self.slow / 4
    }

    pub(crate) fn note_restart(&mut self) {
        self.since = 0;
    }
}
