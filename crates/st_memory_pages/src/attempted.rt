//! An array of images, and what one attempt knows of it.
ghost use Rattle.std.specs.Prelude.{◌≡◌, ◌+◌, ◌-◌, ◌<◌, ◌≤◌, if◌then◌else◌};
ghost use Rattle.st_memory_pages.specs.Slots.{one};
ghost use Rattle.st_memory_pages.specs.Sound.{IsSound};

use crate::images::{copy_known, differs_at, is_changed};
use crate::slot::Slot;
use crate::table::{blanks, draw, first_free, put, see, slot_at, unused_table};
use st_image::Page;
use st_page::PageFault;
use std::alloc::{AllocError, Global};

/// An array of images, and what is kept of each of its pages: how many were changed, how many are left to be drawn, how many
/// aren't blank in the array, and a cursor below which none can be drawn.
#[derive(Drop)]
pub struct Attempted {
    images: Vec<Page>,
    table: Vec<Slot>,
    changed: u32,
    left: u32,
    in_use: u32,
    cursor: usize,
    ghost sound: { IsSound images.items table.items changed left in_use cursor },
}

/// How many pages there are.
const PAGES: usize = 65536;

/// How many pages may be changed at most.
const MOST_CHANGED: u32 = 4000;

/// A count of pages where one was counted, and one is now.
fn recounted(count: u32, was: bool, is: bool) -> u32
    requires was { one was ≤ count }
    requires few { count ≤ 65536 }
    ensures { result + one was ≡ count + one is }
{
    match (was, is) {
        (true, false) => count - 1,
        (false, true) => count + 1,
        _ => count,
    }
}

impl Attempted {
    ghost use Rattle.std.specs.Prelude.{◌≡◌, ℕ, ◌+◌, ◌<◌, vec_len, ◌≤◌, false, Some, IsSome, IfSome, IfOk, IfErr, OnOk, OnErr};
    ghost use Rattle.st_pages.specs.Attempt.{fresh_attempt, known, over, saw, wrote, drew};
    ghost use Rattle.st_pages.specs.Calls.{MayBeDrawn, TakesOne, TakesAtMostOne};
    ghost use Rattle.st_memory_pages.specs.Slots.{array_of};
    ghost use Rattle.st_memory_pages.specs.Attempted.{array, attempt, room, first_room, is_left, IsPutFault, IsDrawFault};

    /// The array of some images, and blank pages behind them. Nothing is known yet.
    pub fn new(alloc: Global, images: Vec<Page>) -> Result<Attempted, AllocError>
        requires { vec_len images ≤ 65536 }
        ensures array { IfOk result (λ held. array held ≡ array_of images.items) }
        ensures attempt { IfOk result (λ held. attempt held ≡ fresh_attempt) }
        ensures room { IfOk result (λ held. room held ≡ first_room (array_of images.items)) }
    {
        let table = unused_table(alloc, &images, PAGES)?;
        let left = blanks(&images, PAGES);
        let in_use = PAGES - left;
        Ok(Attempted {
            images,
            table,
            changed: 0,
            left: left as u32,
            in_use: in_use as u32,
            cursor: 0,
        })
    }

    /// Copies what is known of a page into a frame, and sees it.
    pub fn get(&mut self, page: u32, frame: &mut Page)
        requires { page < 65536 }
        ensures frame { frame.new ≡ over (attempt self.old) (array self.old) page }
        ensures saw { attempt self.new ≡ saw page frame.new (attempt self.old) }
        ensures known { IfSome (known (attempt self.old) page) (λ image. frame.new ≡ image) }
        ensures array { array self.new ≡ array self.old }
        ensures room { room self.new ≡ room self.old }
    {
        let page = page as usize;
        copy_known(&self.images, page, slot_at(&self.table, page), frame);
        see(&mut self.table, page);
    }

    /// Puts an image of a page that was seen.
    pub fn put(&mut self, alloc: Global, page: u32, image: &Page) -> Result<(), PageFault>
        requires { IsSome ((attempt self.old).seen page) }
        ensures ok { OnOk result (attempt self.new ≡ wrote page image.now (attempt self.old)) }
        ensures err { OnErr result (attempt self.new ≡ attempt self.old) }
        ensures cause { IfErr result (IsPutFault page image.now (attempt self.old)) }
        ensures array { array self.new ≡ array self.old }
        ensures room { OnOk result (TakesAtMostOne (attempt self.old) page (Some (room self.old)) (Some (room self.new))) }
        ensures room_err { OnErr result (room self.new ≡ room self.old) }
    {
        let page = page as usize;
        let slot = slot_at(&self.table, page);
        let was_changed = is_changed(&self.images, page, slot);
        let was_free = slot.is_free();
        let will_differ = differs_at(&self.images, page, image);
        let changed = recounted(self.changed, was_changed, will_differ);
        if changed > MOST_CHANGED {
            return Err(PageFault::TooManyPages { count: changed });
        }
        let Ok(()) = put(alloc, &mut self.table, page, image) else {
            return Err(PageFault::Memory);
        };
        self.changed = changed;
        self.left = recounted(self.left, was_free, false);
        Ok(())
    }

    /// Draws the first page that is left.
    pub fn fresh(&mut self) -> Result<u32, PageFault>
        ensures drawn { IfOk result (MayBeDrawn (attempt self.old)) }
        ensures first { IfOk result (λ page. (p : ℕ) → p < page → is_left (array self.old) (attempt self.old) p ≡ false) }
        ensures ok { IfOk result (λ page. attempt self.new ≡ drew page (attempt self.old)) }
        ensures err { OnErr result (attempt self.new ≡ attempt self.old) }
        ensures cause { IfErr result (IsDrawFault (room self.old)) }
        ensures array { array self.new ≡ array self.old }
        ensures room { OnOk result (TakesOne (Some (room self.old)) (Some (room self.new))) }
        ensures room_err { OnErr result (room self.new ≡ room self.old) }
    {
        let Some(page) = first_free(&self.table, self.cursor) else {
            self.cursor = self.table.len();
            return Err(PageFault::Full {
                in_use: self.in_use,
            });
        };
        draw(&mut self.table, page);
        self.left -= 1;
        self.cursor = page + 1;
        Ok(page as u32)
    }
}
