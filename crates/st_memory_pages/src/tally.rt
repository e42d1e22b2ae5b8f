//! The calls that were made, and how they ended.
ghost use Rattle.std.specs.Prelude.{◌≡◌, ◌≤◌, ◌==◌, [], None, if◌then◌else◌};
ghost use Rattle.std.specs.List.{list_any};
ghost use Rattle.st_pages.specs.Calls.{risen, met_behind};

use st_page::PageFault;

/// How many calls were made, of them of `get`, how many failed, and which faults were answered. Each count stays at its
/// greatest value.
#[derive(Drop)]
pub struct Tally {
    failing: Vec<u64>,
    calls: u64,
    faults: u64,
    gets: u64,
    met: u64,
    last: Option<PageFault>,
}

fn risen(count: u64) -> u64
    ensures { result ≡ risen count }
{
    if count == u64::MAX { count } else { count + 1 }
}

fn has(numbers: &[u64], number: u64) -> bool
    ensures { result ≡ list_any (λ n. n == number) numbers.now }
{
    numbers.contains(&number)
}

impl Tally {
    /// No call was made. The calls of these numbers, counted from 1, are to fail.
    pub fn new(failing: Vec<u64>) -> Tally
        ensures { result ≡ record { failing = failing; calls = 0; faults = 0; gets = 0; met = 0; last = None } }
    {
        Tally {
            failing,
            calls: 0,
            faults: 0,
            gets: 0,
            met: 0,
            last: None,
        }
    }

    /// How many calls of `get` were counted.
    pub fn gets(&self) -> u64
        ensures { result ≡ self.now.gets }
    {
        self.gets
    }

    /// Counts a call of `get`, besides what `fails` counts.
    pub fn count_get(&mut self)
        ensures gets { self.old.gets ≤ self.new.gets }
        ensures counted { self.new ≡ record self.old { gets = risen self.old.gets } }
    {
        self.gets = risen(self.gets);
    }

    /// Counts a call, and tells whether it is to fail.
    pub fn fails(&mut self) -> bool
        ensures fails { result ≡ list_any (λ n. n == risen self.old.calls) self.old.failing.items }
        ensures faults { self.old.faults ≤ self.new.faults }
        ensures counted { self.new ≡ record self.old { calls = risen self.old.calls; faults = (if result then risen self.old.faults else self.old.faults) } }
    {
        self.calls = risen(self.calls);
        let fails = has(&self.failing, self.calls);
        if fails {
            self.faults = risen(self.faults);
        }
        fails
    }

    /// Counts an answer that is a fault, but want of memory; where the call went well, no fault is the last one any longer.
    pub fn meet<T>(&mut self, answer: &Result<T, PageFault>)
        ensures met { record { count = self.new.met; last = self.new.last } ≡ met_behind (record { count = self.old.met; last = self.old.last }) answer.now }
        ensures rest { self.new ≡ record self.old { met = self.new.met; last = self.new.last } }
    {
        match answer {
            Ok(_) => self.last = None,
            Err(PageFault::Memory) => {}
            Err(fault) => {
                self.met = risen(self.met);
                self.last = Some(*fault);
            }
        }
    }
}
