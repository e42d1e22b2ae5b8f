ghost use Rattle.std.specs.Prelude.{◌≡◌, ◌≤◌, take, drop};
ghost use Rattle.st_image.specs.Fields.{count_of, rows_of};
ghost use Rattle.st_page_rows.specs.PageRows.{Laid, SameHead, IsSibling};

use st_image::Page;

/// Takes the rows from an index on out of a page, and gives a page with them, which is like it in front but for the last
/// serial.
pub fn split_off(page: &mut Page, width: usize, index: usize) -> Page
    requires laid { Laid width page.old }
    requires within { index ≤ count_of page.old }
    ensures laid { Laid width page.new }
    ensures head { SameHead page.old page.new }
    ensures rows { rows_of width page.new ≡ take index (rows_of width page.old) }
    ensures other_laid { Laid width result }
    ensures other_head { IsSibling page.old result }
    ensures other_rows { rows_of width result ≡ drop index (rows_of width page.old) }
{
    let count = page.count();
    let at = 16 + index * width;
    let size = (count as usize - index) * width;
    let mut other = Page::blank();
    other.set_kind(page.kind());
    other.set_store(page.store());
    other.set_next(page.next());
    other.set_count(count - index as u16);
    other.write(16, &page.bytes()[at..at + size]);
    page.clear(at, size);
    page.set_count(index as u16);
    other
}
