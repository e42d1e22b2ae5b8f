ghost use Rattle.std.specs.Prelude.{◌≡◌, ◌<◌, ◌≤◌, ◌==◌, ℕ, [], length, find, insert, slice_get, slice_set, Some, None, IsSome, IsOk, IfOk, IfErr, OnOk, OnErr};
ghost use Rattle.std.specs.Option.{option_copied};
ghost use Rattle.st_pages.specs.Images.{entry, image_of, with_image, AscendByPage};
ghost use Rattle.st_pages.specs.Searched.{IsBelowUpTo, IsFoundAt, IsGapAt};

use st_image::Page;
use std::alloc::{AllocError, Global};
use std::marker::Model;

/// An image of a page, in a box, so that it stays where it is when others come in front of it.
#[derive(Drop)]
struct Slot {
    page: u32,
    image: Box<Page>,
}

impl Model for Slot {
    ghost use Rattle.st_pages.specs.Images.{Entry};

    ghost Value = { Entry };

    ghost view = { λ slot. record { page = slot.page; image = slot.image.value } };
}

impl Slot {
    /// A copy of an image.
    fn new(alloc: Global, page: u32, image: &Page) -> Result<Slot, AllocError>
        ensures { IfOk result (λ slot. slot ≡ entry page image.now) }
    {
        let mut copied = Box::new(alloc, Page::blank())?;
        copied.copy_from(image);
        Ok(Slot {
            page,
            image: copied,
        })
    }

    fn page(&self) -> u32
        ensures { result ≡ self.now.page }
    {
        self.page
    }

    fn image(&self) -> &Page
        ensures { result.now ≡ self.now.image }
    {
        &self.image
    }

    /// Takes over another image. It takes no memory.
    fn replace(&mut self, image: &Page)
        ensures { self.new ≡ entry self.old.page image.now }
    {
        self.image.copy_from(image);
    }

    fn copy(&self, alloc: Global) -> Result<Slot, AllocError>
        ensures { IfOk result (λ slot. slot ≡ self.now) }
    {
        Slot::new(alloc, self.page(), self.image())
    }
}

/// The place of the first page that isn't below a page.
fn place_of(slots: &[Slot], page: u32) -> usize
    requires { AscendByPage slots.now }
    ensures within { result ≤ length slots.now }
    ensures front { IsBelowUpTo (λ e. e.page) page slots.now result }
{
    slots.partition_point(|slot| slot.page() < page)
}

/// Where a page is, or where it goes.
fn search(slots: &[Slot], page: u32) -> Result<usize, usize>
    requires { AscendByPage slots.now }
    ensures there { IfOk result (λ place. IsFoundAt (λ e. e.page) page slots.now place) }
    ensures absent { IfErr result (λ place. IsGapAt (λ e. e.page) page slots.now place) }
{
    let place = place_of(slots, page);
    if place == slots.len() {
        return Err(place);
    }
    if slots[place].page() == page {
        Ok(place)
    } else {
        Err(place)
    }
}

/// Replaces the image of a page. It takes no memory.
fn replace_at(slots: &mut Vec<Slot>, place: usize, page: u32, image: &Page)
    requires in_order { AscendByPage slots.old.items }
    requires there { IsFoundAt (λ e. e.page) page slots.old.items place }
    ensures items { slots.new.items ≡ with_image page image.now slots.old.items }
    ensures in_order { AscendByPage slots.new.items }
{
    slots[place].replace(image);
}

/// Puts in an image of a page that had none.
fn insert_at(
    slots: &mut Vec<Slot>,
    alloc: Global,
    place: usize,
    page: u32,
    image: &Page,
) -> Result<(), AllocError>
    requires in_order { AscendByPage slots.old.items }
    requires absent { IsGapAt (λ e. e.page) page slots.old.items place }
    ensures ok { OnOk result (slots.new.items ≡ with_image page image.now slots.old.items) }
    ensures err { OnErr result (slots.new.items ≡ slots.old.items) }
    ensures in_order { AscendByPage slots.new.items }
{
    let slot = Slot::new(alloc, page, image)?;
    slots.insert(place, slot)?;
    Ok(())
}

fn copies_of(alloc: Global, slots: &[Slot]) -> Result<Vec<Slot>, AllocError>
    ensures { IfOk result (λ copied. copied.items ≡ slots.now) }
{
    let mut copied = Vec::new(alloc);
    for slot in slots {
        copied.push(slot.copy(alloc)?)?;
    }
    Ok(copied)
}

/// Pages with an image each, in the order of their numbers.
#[derive(Drop)]
pub struct Images {
    slots: Vec<Slot>,
}

impl Model for Images {
    ghost use Rattle.std.specs.Prelude.{List};
    ghost use Rattle.st_pages.specs.Images.{Entry, AscendByPage};

    ghost Value = { List Entry };

    ghost view = { λ images. images.slots.items };

    ghost invariant = { λ images. AscendByPage images.slots.items };
}

impl Images {
    /// No images. It takes no memory yet.
    pub fn new(alloc: Global) -> Images
        ensures { result ≡ [] }
    {
        Images {
            slots: Vec::new(alloc),
        }
    }

    /// How many pages have an image.
    pub fn len(&self) -> usize
        ensures len { result ≡ length self.now }
        ensures in_order { AscendByPage self.now }
    {
        self.slots.len()
    }

    /// Whether no page has an image.
    pub fn is_empty(&self) -> bool
        ensures { result ≡ (length self.now == 0) }
    {
        self.slots.is_empty()
    }

    /// The page at a place, and its image.
    pub fn at(&self, index: usize) -> (u32, &Page)
        requires { index < length self.now }
        ensures { slice_get self.now index ≡ Some (entry result.0 result.1.now) }
    {
        let slot = &self.slots[index];
        (slot.page(), slot.image())
    }

    /// The image of a page, if there is one.
    pub fn get(&self, page: u32) -> Option<&Page>
        ensures image { option_copied result ≡ image_of page self.now }
        ensures in_order { AscendByPage self.now }
    {
        match search(&self.slots, page) {
            Ok(place) => Some(self.slots[place].image()),
            Err(_) => None,
        }
    }

    /// Puts a copy of an image of a page, in place of the one that is there. Where there is one, this takes no memory.
    ///
    /// # Errors
    /// `AllocError` where there is no memory for one image more; nothing is changed then.
    pub fn put(&mut self, alloc: Global, page: u32, image: &Page) -> Result<(), AllocError>
        ensures ok { OnOk result (self.new ≡ with_image page image.now self.old) }
        ensures err { OnErr result (self.new ≡ self.old) }
        ensures replaces { IsSome (image_of page self.old) → IsOk result }
        ensures in_order { AscendByPage self.new }
    {
        match search(&self.slots, page) {
            Ok(place) => {
                replace_at(&mut self.slots, place, page, image);
                Ok(())
            }
            Err(place) => insert_at(&mut self.slots, alloc, place, page, image),
        }
    }

    /// A copy, or `AllocError` where there is no memory for it.
    pub fn copy(&self, alloc: Global) -> Result<Images, AllocError>
        ensures { IfOk result (λ copied. copied ≡ self.now) }
    {
        let slots = copies_of(alloc, &self.slots)?;
        Ok(Images { slots })
    }
}
