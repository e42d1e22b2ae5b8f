ghost use Rattle.std.specs.Prelude.{◌≡◌, ◌⊎◌, ℕ, ◌+◌, ◌<◌, ◌≤◌, Bool, List, Option, Some, None, IsSome, IfSome, IsTrue, OnOk, IfOk, IfErr, OnErr};
ghost use Rattle.st_pages.specs.Attempt.{Attempt, IsSound, known, saw, wrote, drew};
ghost use Rattle.st_pages.specs.Calls.{Met, Counts, Room, IsAllRoom, NeverFall, HasAsked, MayBeDrawn, TakesOne, TakesAtMostOne, IsNoMore, IsGetCause, IsPutCause, IsDrawCause, IsWithin, IsStopped, met_behind, risen, no_page, only};

use st_image::Page;
use st_page::PageFault;
use std::alloc::Global;

/// The pages of a database, as one attempt at a transaction sees and changes them. Pages have the numbers 0 to 65,535.
///
/// What an attempt knows is what it saw first of each page, what it wrote last, and which pages it drew; what stands in the
/// other pages is not known. No call changes what was seen. A call that fails, by want of memory too, changes nothing of what
/// is known; behind a fault that is no want of memory the attempt can only be given up.
pub trait Pages {
    // What the attempt knows.
    ghost attempt: { Self → Attempt };

    // Calls of `get`, conflicts, and faults of what lies below.
    ghost counts: { Self → Counts };

    // The answers that were faults, and the last of them, as long as no call has gone well behind it.
    ghost met: { Self → Met };

    // How many pages are in use and can still be drawn, where that is told.
    ghost room: { Self → Option Room };

    // An earlier fault has closed what lies below.
    ghost is_closed: { Self → Type 0 };

    // What each call keeps of what lies below, such as what is committed, what others hold and what a crash may leave, and
    // what it means that one more fault was met.
    ghost follows: { Self → Self → Type 0 };

    // Between two values only pages of the first set were asked for, only those of the second were put, and at most so many
    // were to be drawn, also by calls that failed.
    ghost asked: { Self → Self → (ℕ → Bool) → (ℕ → Bool) → ℕ → Type 0 };

    /// Copies the image of a page into a frame: what was put last, else what was seen first, else what stands there.
    ///
    /// # Errors
    /// `Conflict`, `DiskFault`, `Closed` or `Memory`; what the frame holds then is left open.
    fn get(&mut self, alloc: Global, page: u32, frame: &mut Page) -> Result<(), PageFault>
        requires { page < 65536 }
        ensures ok { OnOk result (attempt self.new ≡ saw page frame.new (attempt self.old)) }
        ensures known { OnOk result (IfSome (known (attempt self.old) page) (λ image. frame.new ≡ image)) }
        ensures err { OnErr result (attempt self.new ≡ attempt self.old) }
        ensures cause { IfErr result (IsGetCause page (counts self.old) (counts self.new) (is_closed self.old)) }
        ensures gets { (counts self.new).gets ≡ risen (counts self.old).gets }
        ensures met { met self.new ≡ met_behind (met self.old) result }
        ensures room { room self.new ≡ room self.old }
        ensures follows { follows self.old self.new }
        ensures asked { asked self.old self.new (only page) no_page 0 };

    /// Puts an image of a page that this attempt got or drew. Where there are locks, the page is held exclusively behind the
    /// call, also where its bytes are the same.
    ///
    /// # Errors
    /// `TooManyPages` where 4,001 pages would differ from what was seen of them; `Conflict`, `DiskFault`, `Closed` or `Memory`.
    fn put(&mut self, alloc: Global, page: u32, image: &Page) -> Result<(), PageFault>
        requires { IsSome ((attempt self.old).seen page) }
        ensures ok { OnOk result (attempt self.new ≡ wrote page image.now (attempt self.old)) }
        ensures err { OnErr result (attempt self.new ≡ attempt self.old) }
        ensures cause { IfErr result (IsPutCause page image.now (attempt self.old) (counts self.old) (counts self.new) (is_closed self.old)) }
        ensures gets { (counts self.new).gets ≡ (counts self.old).gets }
        ensures met { met self.new ≡ met_behind (met self.old) result }
        ensures room { OnOk result (TakesAtMostOne (attempt self.old) page (room self.old) (room self.new)) }
        ensures room_err { OnErr result (room self.new ≡ room self.old) }
        ensures follows { follows self.old self.new }
        ensures asked { asked self.old self.new no_page (only page) 0 };

    /// Draws a free page, which nobody else draws, and whose image is blank.
    ///
    /// # Errors
    /// `Full` where no page is free; `DiskFault`, `Closed` or `Memory`.
    fn fresh(&mut self, alloc: Global) -> Result<u32, PageFault>
        ensures drawn { IfOk result (λ page. MayBeDrawn (attempt self.old) page) }
        ensures ok { IfOk result (λ page. attempt self.new ≡ drew page (attempt self.old)) }
        ensures err { OnErr result (attempt self.new ≡ attempt self.old) }
        ensures cause { IfErr result (IsDrawCause (room self.old) (counts self.old) (counts self.new) (is_closed self.old)) }
        ensures gets { (counts self.new).gets ≡ (counts self.old).gets }
        ensures met { met self.new ≡ met_behind (met self.old) result }
        ensures room { OnOk result (TakesOne (room self.old) (room self.new)) }
        ensures room_err { OnErr result (room self.new ≡ room self.old) }
        ensures follows { follows self.old self.new }
        ensures asked { asked self.old self.new no_page no_page 1 };

    ghost is_sound: { (a : Self) → IsSound (attempt a) };

    ghost follows_itself: { (a : Self) → follows a a };

    ghost follows_on: { (a b c : Self) → follows a b → follows b c → follows a c };

    // What was seen stays seen, what was written is written, if differently, and what was drawn stays drawn.
    ghost seen_stays: { (a b : Self) → follows a b → (page : ℕ) (image : List ℕ) → (attempt a).seen page ≡ Some image → (attempt b).seen page ≡ Some image };

    ghost written_stays: { (a b : Self) → follows a b → (page : ℕ) → IsSome ((attempt a).written page) → IsSome ((attempt b).written page) };

    ghost drawn_stays: { (a b : Self) → follows a b → (page : ℕ) → IsTrue ((attempt a).drawn page) → IsTrue ((attempt b).drawn page) };

    // What was drawn between two values wasn't written at the first one.
    ghost drawn_unwritten: { (a b : Self) → follows a b → (page : ℕ) → IsTrue ((attempt b).drawn page) → IsTrue ((attempt a).drawn page) ⊎ ((attempt a).written page ≡ None) };

    ghost never_fall: { (a b : Self) → follows a b → NeverFall (counts a) (counts b) };

    ghost met_never_falls: { (a b : Self) → follows a b → (met a).count ≤ (met b).count };

    // The fault that was met last tells how full the pages are, as long as no call has gone well behind it.
    ghost is_stopped: { (a : Self) → IfSome (met a).last (IsStopped (attempt a) (room a)) };

    ghost room_stays: { (a b : Self) → follows a b → IsNoMore (room a) (room b) };

    ghost is_all_room: { (a : Self) → IsAllRoom (attempt a) (room a) };

    ghost closed_stays: { (a b : Self) → follows a b → is_closed a → is_closed b };

    ghost asked_nothing: { (a : Self) (got put : ℕ → Bool) → asked a a got put 0 };

    ghost asked_more: { (a b : Self) (got put got_too put_too : ℕ → Bool) (most more : ℕ) → IsWithin got got_too → IsWithin put put_too → most ≤ more → asked a b got put most → asked a b got_too put_too more };

    ghost asked_on: { (a b c : Self) (got put : ℕ → Bool) (most more : ℕ) → follows a b → follows b c → asked a b got put most → asked b c got put more → asked a c got put (most + more) };

    ghost asked_tells: { (a b : Self) (got put : ℕ → Bool) (most : ℕ) → follows a b → asked a b got put most → HasAsked (attempt a) (attempt b) got put most };
}
