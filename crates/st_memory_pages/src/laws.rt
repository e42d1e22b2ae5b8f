//! Laws of pages in memory: a function that does nothing, and whose contract states them.
ghost use Rattle.std.specs.Prelude.{◌≡◌};
ghost use Rattle.st_pages.specs.Attempt.{Agrees, how_many, page_count};
ghost use Rattle.st_memory_pages.specs.declared.memory_pages.MemoryPages.{MemoryPages};
ghost use Rattle.st_memory_pages.specs.Attempted.{first_room, is_left};
ghost use Rattle.st_memory_pages.specs.Memory.{memory_of};

use crate::MemoryPages;
use st_pages::Pages;

/// The array has what was seen of it, and stays. The pages of the array that aren't blank are in use, and those are left that
/// are blank in the array and were neither drawn nor put.
pub fn laws_of_memory_pages()
    ensures agrees { (pages : MemoryPages) → Agrees (memory_of pages).attempt (memory_of pages).array }
    ensures array { (old new : MemoryPages) → ⟦<MemoryPages as Pages>⟧.follows old new → (memory_of new).array ≡ (memory_of old).array }
    ensures in_use { (pages : MemoryPages) → (memory_of pages).room.in_use ≡ (first_room (memory_of pages).array).in_use }
    ensures left { (pages : MemoryPages) → (memory_of pages).room.left
        ≡ how_many (is_left (memory_of pages).array (memory_of pages).attempt) page_count }
{}
