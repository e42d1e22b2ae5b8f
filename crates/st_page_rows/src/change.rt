ghost use Rattle.std.specs.Prelude.{◌≡◌, ◌+◌, ◌*◌, ◌<◌, ◌≤◌, ◌∷◌, ◌++◌, length, take, drop, slice_get, Some};
ghost use Rattle.st_image.specs.Fields.{count_of, rows_of};
ghost use Rattle.st_page_rows.specs.PageRows.{Laid, SameHead};

use st_image::Page;

/// Puts in a row at an index; those from there on move up by one.
pub fn insert_row(page: &mut Page, width: usize, index: usize, row: &[u8])
    requires laid { Laid width page.old }
    requires within { index ≤ count_of page.old }
    requires wide { length row.now ≡ width }
    requires room { (count_of page.old + 1) * width ≤ 4080 }
    ensures laid { Laid width page.new }
    ensures head { SameHead page.old page.new }
    ensures rows { rows_of width page.new ≡ take index (rows_of width page.old) ++ row.now ∷ drop index (rows_of width page.old) }
{
    let count = page.count();
    let at = 16 + index * width;
    page.shift(at, at + width, (count as usize - index) * width);
    page.write(at, row);
    page.set_count(count + 1);
}

/// Replaces the row at an index.
pub fn replace_row(page: &mut Page, width: usize, index: usize, row: &[u8])
    requires laid { Laid width page.old }
    requires within { index < count_of page.old }
    requires wide { length row.now ≡ width }
    ensures laid { Laid width page.new }
    ensures head { SameHead page.old page.new }
    ensures rows { rows_of width page.new ≡ take index (rows_of width page.old) ++ row.now ∷ drop (index + 1) (rows_of width page.old) }
    ensures same { slice_get (rows_of width page.old) index ≡ Some row.now → page.new ≡ page.old }
{
    page.write(16 + index * width, row);
}

/// Takes out the row at an index; those behind it move down by one.
pub fn remove_row(page: &mut Page, width: usize, index: usize)
    requires laid { Laid width page.old }
    requires within { index < count_of page.old }
    ensures laid { Laid width page.new }
    ensures head { SameHead page.old page.new }
    ensures rows { rows_of width page.new ≡ take index (rows_of width page.old) ++ drop (index + 1) (rows_of width page.old) }
{
    let count = page.count();
    let at = 16 + index * width;
    let behind = (count as usize - index - 1) * width;
    page.shift(at + width, at, behind);
    page.clear(at + behind, width);
    page.set_count(count - 1);
}
