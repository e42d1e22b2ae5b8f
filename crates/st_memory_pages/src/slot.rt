//! What is kept of a page.
ghost use Rattle.std.specs.Prelude.{◌≡◌, true, Some, None, IfOk, OnOk, OnErr};
ghost use Rattle.std.specs.Option.{option_copied};
ghost use Rattle.st_memory_pages.specs.Slots.{Kept, unused, is_free};

use st_image::Page;
use std::alloc::{AllocError, Global};
use std::marker::Model;

/// What is kept of a page: whether it was seen, whether it was drawn, whether it is blank in the array, and what was put last.
#[derive(Drop)]
pub struct Slot {
    seen: bool,
    drawn: bool,
    is_blank: bool,
    put: Option<Box<Page>>,
}

impl Model for Slot {
    ghost use Rattle.std.specs.Option.{option_map};
    ghost use Rattle.st_memory_pages.specs.Slots.{Kept};

    ghost Value = { Kept };

    ghost view = { λ s. record { seen = s.seen; drawn = s.drawn; is_blank = s.is_blank; put = option_map (λ b. b.value) s.put } };
}

impl Slot {
    /// A page before any call.
    pub fn new(is_blank: bool) -> Slot
        ensures { result ≡ unused is_blank }
    {
        Slot {
            seen: false,
            drawn: false,
            is_blank,
            put: None,
        }
    }

    /// What was put last.
    pub fn image(&self) -> Option<&Page>
        ensures { option_copied result ≡ self.now.put }
    {
        match &self.put {
            Some(image) => Some(&**image),
            None => None,
        }
    }

    /// Whether it can still be drawn.
    pub fn is_free(&self) -> bool
        ensures { result ≡ is_free self.now }
    {
        self.is_blank && !self.drawn && self.put.is_none()
    }

    /// Sees it.
    pub fn see(&mut self)
        ensures { self.new ≡ record self.old { seen = true } }
    {
        self.seen = true;
    }

    /// Draws it.
    pub fn draw(&mut self)
        ensures { self.new ≡ record self.old { seen = true; drawn = true } }
    {
        self.seen = true;
        self.drawn = true;
    }

    /// Puts an image of it. Where one was put before, it takes no memory.
    pub fn put(&mut self, alloc: Global, image: &Page) -> Result<(), AllocError>
        ensures ok { OnOk result (self.new ≡ record self.old { put = Some image.now }) }
        ensures err { OnErr result (self.new ≡ self.old) }
        ensures memory { OnErr result (self.old.put ≡ None) }
    {
        match &mut self.put {
            Some(last) => last.copy_from(image),
            None => self.put = Some(copy_of(alloc, image)?),
        }
        Ok(())
    }
}

fn copy_of(alloc: Global, image: &Page) -> Result<Box<Page>, AllocError>
    ensures { IfOk result (λ copy. copy.value ≡ image.now) }
{
    let mut copy = Box::new(alloc, Page::blank())?;
    copy.copy_from(image);
    Ok(copy)
}
