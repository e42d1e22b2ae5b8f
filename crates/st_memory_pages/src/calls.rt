//! How pages in memory meet the contract of pages.
ghost use Rattle.std.specs.Prelude.{◌≡◌, ℕ, ◌<◌, ◌≤◌, false, Some, None, IsSome, IsTrue, Err, IfSome, IfOk, IfErr, OnOk, OnErr};
ghost use Rattle.st_page.specs.declared.fault.PageFault.TheVariants.{DiskFault, Memory};
ghost use Rattle.st_pages.specs.Attempt.{known, over, saw, wrote, drew};
ghost use Rattle.st_pages.specs.Calls.{MayBeDrawn, TakesOne, TakesAtMostOne, HasAsked, IsGetCause, IsPutCause, IsDrawCause, no_page, only, met_behind, risen};
ghost use Rattle.st_memory_pages.specs.Attempted.{is_left};
ghost use Rattle.st_memory_pages.specs.Memory.{memory_of, fails_next, CountsCall};
ghost use Rattle.st_memory_pages.specs.Tried.{Follows, tried_memory, will_fail, CountsOne};

use crate::MemoryPages;
use crate::memory_pages::Tried;
use st_image::Page;
use st_page::PageFault;
use st_pages::Pages;
use std::alloc::Global;

// The calls, but that their answers aren't counted yet.
impl Tried {
    fn get(&mut self, page: u32, frame: &mut Page) -> Result<(), PageFault>
        requires { page < 65536 }
        ensures ok { OnOk result ((tried_memory self.new).attempt ≡ saw page frame.new (tried_memory self.old).attempt) }
        ensures image { OnOk result (frame.new ≡ over (tried_memory self.old).attempt (tried_memory self.old).array page) }
        ensures known { OnOk result (IfSome (known (tried_memory self.old).attempt page) (λ image. frame.new ≡ image)) }
        ensures err { OnErr result ((tried_memory self.new).attempt ≡ (tried_memory self.old).attempt) }
        ensures cause { IfErr result (IsGetCause page (tried_memory self.old).counts (tried_memory self.new).counts ⊥) }
        ensures gets { (tried_memory self.new).counts.gets ≡ risen (tried_memory self.old).counts.gets }
        ensures met { (tried_memory self.new).met ≡ (tried_memory self.old).met }
        ensures room { (tried_memory self.new).room ≡ (tried_memory self.old).room }
        ensures follows { Follows (tried_memory self.old) (tried_memory self.new) }
        ensures fails { IsTrue (will_fail self.old) → result ≡ Err DiskFault }
        ensures failing { result ≡ Err DiskFault → IsTrue (will_fail self.old) }
        ensures counted { CountsOne self.old self.new }
        ensures no_other { IfErr result (λ fault. fault ≡ DiskFault) }
        ensures asked { HasAsked (tried_memory self.old).attempt (tried_memory self.new).attempt (only page) no_page 0 }
    {
        self.tally.count_get();
        if self.tally.fails() {
            return Err(PageFault::DiskFault);
        }
        self.held.get(page, frame);
        Ok(())
    }

    fn put(&mut self, alloc: Global, page: u32, image: &Page) -> Result<(), PageFault>
        requires { IsSome ((tried_memory self.old).attempt.seen page) }
        ensures ok { OnOk result ((tried_memory self.new).attempt ≡ wrote page image.now (tried_memory self.old).attempt) }
        ensures err { OnErr result ((tried_memory self.new).attempt ≡ (tried_memory self.old).attempt) }
        ensures cause { IfErr result (IsPutCause page image.now (tried_memory self.old).attempt (tried_memory self.old).counts (tried_memory self.new).counts ⊥) }
        ensures gets { (tried_memory self.new).counts.gets ≡ (tried_memory self.old).counts.gets }
        ensures met { (tried_memory self.new).met ≡ (tried_memory self.old).met }
        ensures room { OnOk result (TakesAtMostOne (tried_memory self.old).attempt page (Some (tried_memory self.old).room) (Some (tried_memory self.new).room)) }
        ensures room_err { OnErr result ((tried_memory self.new).room ≡ (tried_memory self.old).room) }
        ensures follows { Follows (tried_memory self.old) (tried_memory self.new) }
        ensures fails { IsTrue (will_fail self.old) → result ≡ Err DiskFault }
        ensures failing { result ≡ Err DiskFault → IsTrue (will_fail self.old) }
        ensures counted { CountsOne self.old self.new }
        ensures memory { result ≡ Err Memory → (tried_memory self.old).attempt.written page ≡ None }
        ensures asked { HasAsked (tried_memory self.old).attempt (tried_memory self.new).attempt no_page (only page) 0 }
    {
        if self.tally.fails() {
            return Err(PageFault::DiskFault);
        }
        self.held.put(alloc, page, image)
    }

    fn fresh(&mut self) -> Result<u32, PageFault>
        ensures drawn { IfOk result (MayBeDrawn (tried_memory self.old).attempt) }
        ensures first { IfOk result (λ page. (p : ℕ) → p < page → is_left (tried_memory self.old).array (tried_memory self.old).attempt p ≡ false) }
        ensures ok { IfOk result (λ page. (tried_memory self.new).attempt ≡ drew page (tried_memory self.old).attempt) }
        ensures err { OnErr result ((tried_memory self.new).attempt ≡ (tried_memory self.old).attempt) }
        ensures cause { IfErr result (IsDrawCause (Some (tried_memory self.old).room) (tried_memory self.old).counts (tried_memory self.new).counts ⊥) }
        ensures gets { (tried_memory self.new).counts.gets ≡ (tried_memory self.old).counts.gets }
        ensures met { (tried_memory self.new).met ≡ (tried_memory self.old).met }
        ensures room { OnOk result (TakesOne (Some (tried_memory self.old).room) (Some (tried_memory self.new).room)) }
        ensures room_err { OnErr result ((tried_memory self.new).room ≡ (tried_memory self.old).room) }
        ensures follows { Follows (tried_memory self.old) (tried_memory self.new) }
        ensures fails { IsTrue (will_fail self.old) → result ≡ Err DiskFault }
        ensures failing { result ≡ Err DiskFault → IsTrue (will_fail self.old) }
        ensures counted { CountsOne self.old self.new }
        ensures memory { result ≡ Err Memory → ⊥ }
        ensures asked { HasAsked (tried_memory self.old).attempt (tried_memory self.new).attempt no_page no_page 1 }
    {
        if self.tally.fails() {
            return Err(PageFault::DiskFault);
        }
        self.held.fresh()
    }
}

impl Pages for MemoryPages {
    ghost use Rattle.std.specs.Prelude.{Some};
    ghost use Rattle.st_pages.specs.Calls.{HasAsked};
    ghost use Rattle.st_memory_pages.specs.Memory.{memory_of};
    ghost use Rattle.st_memory_pages.specs.Tried.{Follows};
    ghost use Rattle.st_memory_pages.specs.Laws as laws;

    ghost attempt = { λ m. (memory_of m).attempt };

    ghost counts = { λ m. (memory_of m).counts };

    ghost met = { λ m. (memory_of m).met };

    ghost room = { λ m. Some (memory_of m).room };

    ghost is_closed = { λ _. ⊥ };

    ghost follows = { λ old new. Follows (memory_of old) (memory_of new) };

    ghost asked = { λ old new got put most. HasAsked (memory_of old).attempt (memory_of new).attempt got put most };

    ghost is_sound = { λ m. laws.is-sound m };

    ghost follows_itself = { λ m. laws.follows-itself (memory_of m) };

    ghost follows_on = { λ a b c first second. laws.follows-on (memory_of a) (memory_of b) (memory_of c) first second };

    ghost seen_stays = { λ a b stays. stays.grows.seen };

    ghost written_stays = { λ a b stays. stays.grows.written };

    ghost drawn_stays = { λ a b stays. stays.grows.drawn };

    ghost drawn_unwritten = { λ a b stays. stays.grows.fresh };

    ghost never_fall = { λ a b stays. stays.counts };

    ghost met_never_falls = { λ a b stays. stays.met };

    ghost is_stopped = { λ m. laws.is-stopped m };

    ghost room_stays = { λ a b stays. laws.room-stays (memory_of a) (memory_of b) stays };

    ghost is_all_room = { λ m. laws.is-all-room m };

    ghost closed_stays = { λ a b stays closed. closed };

    ghost asked_nothing = { λ a got put. laws.asked-nothing (memory_of a).attempt got put };

    ghost asked_more = { λ a b got put got_too put_too most more got_more put_more few asked. laws.asked-more (memory_of a).attempt (memory_of b).attempt got put got_too put_too most more got_more put_more few asked };

    ghost asked_on = { λ a b c got put most more first second one two. laws.asked-on (memory_of a).attempt (memory_of b).attempt (memory_of c).attempt got put most more second.grows one two };

    ghost asked_tells = { λ a b got put most stays asked. asked };

    fn get(&mut self, _alloc: Global, page: u32, frame: &mut Page) -> Result<(), PageFault>
        requires { page < 65536 }
        ensures ok { OnOk result ((memory_of self.new).attempt ≡ saw page frame.new (memory_of self.old).attempt) }
        ensures image { OnOk result (frame.new ≡ over (memory_of self.old).attempt (memory_of self.old).array page) }
        ensures known { OnOk result (IfSome (known (memory_of self.old).attempt page) (λ image. frame.new ≡ image)) }
        ensures err { OnErr result ((memory_of self.new).attempt ≡ (memory_of self.old).attempt) }
        ensures cause { IfErr result (IsGetCause page (memory_of self.old).counts (memory_of self.new).counts ⊥) }
        ensures gets { (memory_of self.new).counts.gets ≡ risen (memory_of self.old).counts.gets }
        ensures met { (memory_of self.new).met ≡ met_behind (memory_of self.old).met result }
        ensures room { (memory_of self.new).room ≡ (memory_of self.old).room }
        ensures follows { Follows (memory_of self.old) (memory_of self.new) }
        ensures fails { IsTrue (fails_next self.old) → result ≡ Err DiskFault }
        ensures failing { result ≡ Err DiskFault → IsTrue (fails_next self.old) }
        ensures counted { CountsCall self.old self.new }
        ensures no_other { IfErr result (λ fault. fault ≡ DiskFault) }
        ensures asked { HasAsked (memory_of self.old).attempt (memory_of self.new).attempt (only page) no_page 0 }
    {
        let answer = self.tried.get(page, frame);
        self.tried.tally.meet(&answer);
        answer
    }

    fn put(&mut self, alloc: Global, page: u32, image: &Page) -> Result<(), PageFault>
        requires { IsSome ((memory_of self.old).attempt.seen page) }
        ensures ok { OnOk result ((memory_of self.new).attempt ≡ wrote page image.now (memory_of self.old).attempt) }
        ensures err { OnErr result ((memory_of self.new).attempt ≡ (memory_of self.old).attempt) }
        ensures cause { IfErr result (IsPutCause page image.now (memory_of self.old).attempt (memory_of self.old).counts (memory_of self.new).counts ⊥) }
        ensures gets { (memory_of self.new).counts.gets ≡ (memory_of self.old).counts.gets }
        ensures met { (memory_of self.new).met ≡ met_behind (memory_of self.old).met result }
        ensures room { OnOk result (TakesAtMostOne (memory_of self.old).attempt page (Some (memory_of self.old).room) (Some (memory_of self.new).room)) }
        ensures room_err { OnErr result ((memory_of self.new).room ≡ (memory_of self.old).room) }
        ensures follows { Follows (memory_of self.old) (memory_of self.new) }
        ensures fails { IsTrue (fails_next self.old) → result ≡ Err DiskFault }
        ensures failing { result ≡ Err DiskFault → IsTrue (fails_next self.old) }
        ensures counted { CountsCall self.old self.new }
        ensures memory { result ≡ Err Memory → (memory_of self.old).attempt.written page ≡ None }
        ensures asked { HasAsked (memory_of self.old).attempt (memory_of self.new).attempt no_page (only page) 0 }
    {
        let answer = self.tried.put(alloc, page, image);
        self.tried.tally.meet(&answer);
        answer
    }

    fn fresh(&mut self, _alloc: Global) -> Result<u32, PageFault>
        ensures drawn { IfOk result (MayBeDrawn (memory_of self.old).attempt) }
        ensures first { IfOk result (λ page. (p : ℕ) → p < page → is_left (memory_of self.old).array (memory_of self.old).attempt p ≡ false) }
        ensures ok { IfOk result (λ page. (memory_of self.new).attempt ≡ drew page (memory_of self.old).attempt) }
        ensures err { OnErr result ((memory_of self.new).attempt ≡ (memory_of self.old).attempt) }
        ensures cause { IfErr result (IsDrawCause (Some (memory_of self.old).room) (memory_of self.old).counts (memory_of self.new).counts ⊥) }
        ensures gets { (memory_of self.new).counts.gets ≡ (memory_of self.old).counts.gets }
        ensures met { (memory_of self.new).met ≡ met_behind (memory_of self.old).met result }
        ensures room { OnOk result (TakesOne (Some (memory_of self.old).room) (Some (memory_of self.new).room)) }
        ensures room_err { OnErr result ((memory_of self.new).room ≡ (memory_of self.old).room) }
        ensures follows { Follows (memory_of self.old) (memory_of self.new) }
        ensures fails { IsTrue (fails_next self.old) → result ≡ Err DiskFault }
        ensures failing { result ≡ Err DiskFault → IsTrue (fails_next self.old) }
        ensures counted { CountsCall self.old self.new }
        ensures memory { result ≡ Err Memory → ⊥ }
        ensures asked { HasAsked (memory_of self.old).attempt (memory_of self.new).attempt no_page no_page 1 }
    {
        let answer = self.tried.fresh();
        self.tried.tally.meet(&answer);
        answer
    }
}
