ghost use Rattle.std.specs.Prelude.{◌≡◌, ◌<◌, ◌≤◌, ◌↔◌, Contains, IsErr, OnOk, OnErr};
ghost use Rattle.st_edge.specs.Faults.{Rose};
ghost use Rattle.st_edge.specs.Memory.{next};

use crate::Failed;

/// Which calls of a form over memory are to fail, and how many were made and failed so far.
#[derive(Drop)]
pub(crate) struct Schedule {
    pub(crate) failing: Vec<u64>,
    pub(crate) calls: u64,
    pub(crate) faults: u64,
}

impl Schedule {
    pub(crate) fn new(failing: Vec<u64>) -> Schedule
        ensures failing { result.failing ≡ failing }
        ensures calls { result.calls ≡ 0 }
        ensures faults { result.faults ≡ 0 }
    {
        Schedule {
            failing,
            calls: 0,
            faults: 0,
        }
    }

    /// Counts a call, and fails it where it is one of those that are to fail.
    pub(crate) fn begin(&mut self) -> Result<(), Failed>
        ensures fails { IsErr result ↔ Contains self.old.failing.items (next self.old.calls) }
        ensures calls { self.new.calls ≡ next self.old.calls }
        ensures failing { self.new.failing ≡ self.old.failing }
        ensures ok { OnOk result (self.new.faults ≡ self.old.faults) }
        ensures err { OnErr result (self.new.faults ≡ next self.old.faults) }
        ensures cause { OnErr result (Rose self.old.faults self.new.faults) }
        ensures never_falls { self.old.faults ≤ self.new.faults }
    {
        self.calls = self.calls.saturating_add(1);
        if self.failing.contains(&self.calls) {
            return Err(self.fail());
        }
        Ok(())
    }

    /// Counts a failure.
    pub(crate) fn fail(&mut self) -> Failed
        ensures faults { self.new.faults ≡ next self.old.faults }
        ensures cause { Rose self.old.faults self.new.faults }
        ensures never_falls { self.old.faults ≤ self.new.faults }
        ensures calls { self.new.calls ≡ self.old.calls }
        ensures failing { self.new.failing ≡ self.old.failing }
    {
        self.faults = self.faults.saturating_add(1);
        Failed
    }
}
