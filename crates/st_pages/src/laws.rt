//! Laws of the definitions: functions that do nothing, and whose contracts state them.
ghost use Rattle.std.specs.Prelude.{◌≡◌, ◌≢◌, ◌+◌, ◌==◌, ℕ, Bool, List, Result, length, nat_lt, slice_get, Some, IsTrue, IfSome, is_some, if◌then◌else◌};
ghost use Rattle.std.specs.List.{list_all};
ghost use Rattle.st_page.specs.declared.fault.PageFault.{PageFault};
ghost use Rattle.st_pages.specs.Attempt.{Array, Attempt, Agrees, known, saw, wrote, drew, over, how_many};
ghost use Rattle.st_pages.specs.Calls.{Met, HandsOn, met_behind};
ghost use Rattle.st_pages.specs.Images.{Entry, entry, image_of, with_image, AscendByPage};

/// Entries with an image of a page: it is the page's image, and all others are as they were. The order stays, and so does
/// what all entries pass; there is one entry more where the page had no image.
///
/// In entries that are in order, each page has the image of its entry; as many pages have an image as there are entries;
/// and two lists in which each page has the same image are one list.
pub fn laws_of_images()
    ensures image { (page : ℕ) (image : List ℕ) (entries : List Entry) →
        image_of page (with_image page image entries) ≡ Some image }
    ensures others { (page : ℕ) (image : List ℕ) (entries : List Entry) (other : ℕ) → other ≢ page →
        image_of other (with_image page image entries) ≡ image_of other entries }
    ensures images { (page : ℕ) (image : List ℕ) (entries : List Entry) (other : ℕ) →
        image_of other (with_image page image entries) ≡ (if other == page then Some image else image_of other entries) }
    ensures in_order { (page : ℕ) (image : List ℕ) (entries : List Entry) → AscendByPage entries →
        AscendByPage (with_image page image entries) }
    ensures all_pass { (page : ℕ) (image : List ℕ) (entries : List Entry) (test : Entry → Bool) →
        IsTrue (test (entry page image)) → IsTrue (list_all test entries) →
        IsTrue (list_all test (with_image page image entries)) }
    ensures length { (page : ℕ) (image : List ℕ) (entries : List Entry) → AscendByPage entries →
        length (with_image page image entries) ≡ length entries + (if is_some (image_of page entries) then 0 else 1) }
    ensures entry { (entries : List Entry) (place : ℕ) (e : Entry) → AscendByPage entries →
        slice_get entries place ≡ Some e → image_of e.page entries ≡ Some e.image }
    ensures listed { (entries : List Entry) (page : ℕ) (image : List ℕ) → image_of page entries ≡ Some image →
        (place : ℕ) × (slice_get entries place ≡ Some (entry page image)) }
    ensures count { (entries : List Entry) (n : ℕ) → AscendByPage entries → IsTrue (list_all (λ e. nat_lt e.page n) entries) →
        how_many (λ page. is_some (image_of page entries)) n ≡ length entries }
    ensures same { (some others : List Entry) → AscendByPage some → AscendByPage others →
        ((page : ℕ) → image_of page some ≡ image_of page others) → some ≡ others }
{}

/// What is got of a page is what each array that agrees with what was seen has there, under what was written. What agrees
/// behind a call agrees in front of it. What was put stands there, and all other pages are as they were. An answer of one
/// call hands on what was met.
pub fn laws_of_attempts()
    ensures got { (a : Attempt) (page : ℕ) (image : List ℕ) (pages : Array) → IfSome (known a page) (λ other. image ≡ other) →
        Agrees (saw page image a) pages → over a pages page ≡ image }
    ensures seen_before { (a : Attempt) (page : ℕ) (image : List ℕ) (pages : Array) → Agrees (saw page image a) pages → Agrees a pages }
    ensures drawn_before { (a : Attempt) (page : ℕ) (pages : Array) → Agrees (drew page a) pages → Agrees a pages }
    ensures put { (a : Attempt) (page : ℕ) (image : List ℕ) (pages : Array) (other : ℕ) →
        over (wrote page image a) pages other ≡ (if other == page then image else over a pages other) }
    ensures hands_on { (old new : Met) (answer : Result Unit PageFault) → new ≡ met_behind old answer → HandsOn old new answer }
{}
