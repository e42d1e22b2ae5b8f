//! Takes items out of a list in one pass.
ghost use Rattle.std.specs.Prelude.{◌≡◌, ◌+◌, ◌≤◌, length, not, filter, vec_len, vec_capacity};
ghost use Rattle.st_undo.specs.Undone.{undone, longest};

use crate::change::{Change, log};
use crate::sieve::Sieve;

/// Takes out each item that the sieve takes, and logs it. There has to be room for these changes.
///
/// A taken item leaves a hole, and a kept one changes places with the first hole. So the items are,
/// at each step, those that were kept, the holes, and those still to be looked at. What is logged
/// speaks of the list without the holes.
pub fn sift_out<T: Drop, S: Sieve<T>>(items: &mut Vec<T>, changes: &mut Vec<Change<T>>, sieve: &S)
    requires { vec_len changes.old + length (filter (S.takes sieve.now) items.old.items) ≤ vec_capacity changes.old }
    ensures items { items.new.items ≡ filter (λ item. not (S.takes sieve.now item)) items.old.items }
    ensures mark { undone changes.new.items items.new.items ≡ undone changes.old.items items.old.items }
    ensures longest { longest changes.new.items items.new.items ≤ longest changes.old.items items.old.items }
    ensures items_capacity { vec_capacity items.new ≡ vec_capacity items.old }
    ensures len { vec_len changes.new ≡ vec_len changes.old + length (filter (S.takes sieve.now) items.old.items) }
    ensures capacity { vec_capacity changes.old ≤ vec_capacity changes.new }
{
    let mut kept = 0;
    for place in 0..items.len() {
        if sieve.takes(&items[place]) {
            let item = std::mem::replace(&mut items[place], sieve.hole());
            log(changes, Change::Took(kept, item));
        } else {
            items.swap(kept, place);
            kept += 1;
        }
    }
    items.truncate(kept);
}

/// How many items the sieve takes.
pub fn count_of<T, S: Sieve<T>>(items: &[T], sieve: &S) -> usize
    ensures { result ≡ length (filter (S.takes sieve.now) items.now) }
{
    let mut count = 0;
    for item in items {
        if sieve.takes(item) {
            count += 1;
        }
    }
    count
}
