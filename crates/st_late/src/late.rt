//! A base that reads its store whole at the first call, so that the call learns which content is its witness.
ghost use Rattle.std.specs.Prelude.{◌≡◌, true, MatchOption};
ghost use Rattle.st_plain.specs.Held.{marked};
ghost use Rattle.st_late.specs.Late.{MeetsOne, stops, refusal_of, Stops, Ends};

use st_lattice::Schema;
use st_plain::{Base, BaseFault, PageFault, Plain, Refusal};
use st_values::{Entities, EntityId, Value, Values};
use std::alloc::Global;

/// A base over lists that it holds as not read before the first call. It meets the faults of pages that it is told.
#[derive(Drop)]
pub struct Late {
    base: Plain,
    is_read: bool,
    is_changed: bool,
    trouble: Option<PageFault>,
    met: u64,
    last: Option<PageFault>,
}

impl Late {
    /// A base whose store has in it what these lists hold.
    pub fn new(base: Plain) -> Late
        ensures { result.base ≡ marked base.state }
    {
        let mut base = base;
        base.set_mark();
        Late {
            base,
            is_read: false,
            is_changed: false,
            trouble: None,
            met: 0,
            last: None,
        }
    }

    /// The schema.
    pub fn schema(&self) -> &Schema
        ensures { result.now ≡ self.now.base.state.schema }
    {
        self.base.schema()
    }

    /// The next call that may be answered so meets this fault of pages; a damaged page and want of memory are never met.
    pub fn plan(&mut self, fault: PageFault) {
        self.trouble = Some(fault);
    }

    /// How many faults of pages were met.
    pub fn met(&self) -> u64 {
        self.met
    }

    /// Whether the store was read.
    pub fn is_read(&self) -> bool {
        self.is_read
    }

    fn meet(&mut self, fault: PageFault)
        ensures base { self.new.base ≡ self.old.base }
        ensures read { self.new.is_read ≡ self.old.is_read }
        ensures changed { self.new.is_changed ≡ self.old.is_changed }
        ensures met { MeetsOne self.old.met self.new.met self.new.last fault }
    {
        self.trouble = None;
        self.met = self.met.saturating_add(1);
        self.last = Some(fault);
    }

    /// Reads the store, but where a fault of pages is met that stops the call.
    fn begin(&mut self) -> Option<PageFault>
        ensures base { self.new.base ≡ self.old.base }
        ensures changed { self.new.is_changed ≡ self.old.is_changed }
        ensures begins { MatchOption result ((self.new.is_read ≡ true) × (self.new.met ≡ self.old.met)) (λ fault. Stops self.old.is_read self.new.is_read self.old.met self.new.met self.new.last fault) }
    {
        if let Some(fault) = self.trouble {
            if stops(fault) {
                self.meet(fault);
                return Some(fault);
            }
        }
        self.is_read = true;
        None
    }

    /// What is answered by a call that may change something, where lists answer this.
    fn end<T: Drop>(&mut self, answer: Result<T, BaseFault>) -> Result<T, BaseFault>
        ensures base { self.new.base ≡ self.old.base }
        ensures read { self.new.is_read ≡ self.old.is_read }
        ensures ends { Ends self.old.met self.new.met self.new.last answer result }
    {
        let answered = answer?;
        self.is_changed = true;
        let Some(fault) = self.trouble else {
            return Ok(answered);
        };
        let Some(refusal) = refusal_of(fault) else {
            return Ok(answered);
        };
        self.meet(fault);
        Err(BaseFault::Refused(refusal))
    }
}

fn stops(fault: PageFault) -> bool
    ensures { result ≡ stops fault }
{
    matches!(
        fault,
        PageFault::Conflict { .. } | PageFault::DiskFault | PageFault::Closed
    )
}

fn refusal_of(fault: PageFault) -> Option<Refusal>
    ensures { result ≡ refusal_of fault }
{
    match fault {
        PageFault::TooManyPages { count } => Some(Refusal::TooManyPages { count }),
        PageFault::Full { in_use } => Some(Refusal::Full { in_use }),
        _ => None,
    }
}

impl Base for Late {
    ghost use Rattle.std.specs.Prelude.{◌≡◌, ◌≤◌, true};
    ghost use Rattle.st_state.specs.State.{State};
    ghost use Rattle.st_late.specs.Late.{Agrees, StandsFor, Stays, IsAsked};
    ghost use Rattle.st_late.specs.Laws.{stays_itself, stays_on, seen_stays, asked_nothing, asked_on, le_itself, le_on};

    ghost Witness = { State };

    ghost schema = { λ l. l.base.state.schema };

    ghost met = { λ l. record { count = l.met; last = l.last } };

    ghost agrees = { λ l w. Agrees l.base l.is_read w };

    ghost stands = { λ l w s. StandsFor l.base l.is_read w s };

    ghost follows = { λ old new. Stays old.base old.is_read new.base new.is_read × (old.met ≤ new.met) };

    ghost asks = { λ old new _ calls. IsAsked old.is_changed new.is_changed old.met new.met calls };

    ghost spared = { λ old new. new.base.state ≡ old.base.state };

    ghost reached = { λ l _ _ _. l.is_read ≡ true };

    ghost follows_itself = { λ l. (stays_itself _ _, le_itself _) };

    ghost follows_on = { λ _ _ _ first second. (stays_on _ _ _ _ _ _ first.0 second.0, le_on _ _ _ first.1 second.1) };

    ghost seen_stays = { λ _ _ _ stays agrees. seen_stays _ _ _ _ _ stays.0 agrees };

    ghost schema_stays = { λ _ _ stays. stays.0.schema };

    ghost stands_with_schema = { λ _ _ _ stands. stands.schema };

    ghost reached_stays = { λ _ _ _ _ _ stays read. stays.0.read read };

    ghost asks_nothing = { λ _ _. asked_nothing _ _ };

    ghost asks_on = { λ _ _ _ _ _ _ _ _ first second. asked_on _ _ _ _ _ _ _ _ first second };

    fn live(&mut self, alloc: Global, entity: EntityId) -> Result<bool, BaseFault> {
        if let Some(fault) = self.begin() {
            return Err(BaseFault::Page(fault));
        }
        Base::live(&mut self.base, alloc, entity)
    }

    fn make(&mut self, alloc: Global, ty: u16) -> Result<EntityId, BaseFault> {
        if let Some(fault) = self.begin() {
            return Err(BaseFault::Page(fault));
        }
        let answer = Base::make(&mut self.base, alloc, ty);
        self.end(answer)
    }

    fn get(&mut self, alloc: Global, entity: EntityId, attribute: u16) -> Result<Value, BaseFault> {
        if let Some(fault) = self.begin() {
            return Err(BaseFault::Page(fault));
        }
        Base::get(&mut self.base, alloc, entity, attribute)
    }

    fn set(
        &mut self,
        alloc: Global,
        entity: EntityId,
        attribute: u16,
        value: &Value,
    ) -> Result<(), BaseFault> {
        if let Some(fault) = self.begin() {
            return Err(BaseFault::Page(fault));
        }
        let answer = Base::set(&mut self.base, alloc, entity, attribute, value);
        self.end(answer)
    }

    fn members(
        &mut self,
        alloc: Global,
        entity: EntityId,
        attribute: u16,
    ) -> Result<Values, BaseFault> {
        if let Some(fault) = self.begin() {
            return Err(BaseFault::Page(fault));
        }
        Base::members(&mut self.base, alloc, entity, attribute)
    }

    fn add(
        &mut self,
        alloc: Global,
        entity: EntityId,
        attribute: u16,
        value: &Value,
    ) -> Result<bool, BaseFault> {
        if let Some(fault) = self.begin() {
            return Err(BaseFault::Page(fault));
        }
        let answer = Base::add(&mut self.base, alloc, entity, attribute, value);
        self.end(answer)
    }

    fn take(
        &mut self,
        alloc: Global,
        entity: EntityId,
        attribute: u16,
        value: &Value,
    ) -> Result<bool, BaseFault> {
        if let Some(fault) = self.begin() {
            return Err(BaseFault::Page(fault));
        }
        let answer = Base::take(&mut self.base, alloc, entity, attribute, value);
        self.end(answer)
    }

    fn turned(
        &mut self,
        alloc: Global,
        attribute: u16,
        value: &Value,
    ) -> Result<Entities, BaseFault> {
        if let Some(fault) = self.begin() {
            return Err(BaseFault::Page(fault));
        }
        Base::turned(&mut self.base, alloc, attribute, value)
    }

    fn delete(&mut self, alloc: Global, entity: EntityId) -> Result<(), BaseFault> {
        if let Some(fault) = self.begin() {
            return Err(BaseFault::Page(fault));
        }
        let answer = Base::delete(&mut self.base, alloc, entity);
        self.end(answer)
    }

    fn list(&mut self, alloc: Global, ty: u16) -> Result<Entities, BaseFault> {
        if let Some(fault) = self.begin() {
            return Err(BaseFault::Page(fault));
        }
        Base::list(&mut self.base, alloc, ty)
    }
}
