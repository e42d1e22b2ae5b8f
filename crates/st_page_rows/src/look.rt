ghost use Rattle.std.specs.Prelude.{◌≡◌, ◌<◌, ◌≤◌, ◌↔◌, not, length, take, drop, slice_get, Some, IsTrue, IfOk, IfErr};
ghost use Rattle.std.specs.List.{list_all};
ghost use Rattle.st_values.specs.Arranged.{ascends};
ghost use Rattle.st_image.specs.Fields.{count_of, rows_of};
ghost use Rattle.st_image.specs.Grammar.{row_before};
ghost use Rattle.st_page_rows.specs.PageRows.{Laid, IsThere, IsAbsent};

use st_image::Page;

/// The row at an index of a page of rows of a width, in bytes.
pub fn row_at(page: &Page, width: usize, index: usize) -> &[u8]
    requires laid { Laid width page.now }
    requires within { index < count_of page.now }
    ensures row { slice_get (rows_of width page.now) index ≡ Some result.now }
    ensures wide { length result.now ≡ width }
{
    let at = 16 + index * width;
    &page.bytes()[at..at + width]
}

/// Whether a row is below a key.
fn is_below(row: &[u8], key: &[u8]) -> bool
    requires { length key.now ≤ length row.now }
    ensures { result ≡ row_before (length key.now) row.now key.now }
{
    &row[..key.len()] < key
}

/// Whether a row has a key.
fn has_key(row: &[u8], key: &[u8]) -> bool
    requires { length key.now ≤ length row.now }
    ensures { IsTrue result ↔ (take (length key.now) row.now ≡ key.now) }
{
    &row[..key.len()] == key
}

/// The index of the first row of a page that isn't below a key, by halves; it is behind all rows where all are below it.
fn place_of(page: &Page, width: usize, key: &[u8]) -> usize
    requires laid { Laid width page.now }
    requires within { length key.now ≤ width }
    requires ascend { IsTrue (ascends (row_before (length key.now)) (rows_of width page.now)) }
    ensures within { result ≤ count_of page.now }
    ensures below { IsTrue (list_all (λ row. row_before (length key.now) row key.now) (take result (rows_of width page.now))) }
    ensures behind { IsTrue (list_all (λ row. not (row_before (length key.now) row key.now)) (drop result (rows_of width page.now))) }
{
    let mut low = 0;
    let mut high = page.count() as usize;
    while low < high {
        let middle = low + (high - low) / 2;
        let row = row_at(page, width, middle);
        if is_below(row, key) {
            low = middle + 1;
        } else {
            high = middle;
        }
    }
    low
}

/// Where the row with a key stands among those of a page, or else where it would stand, by halves. The first `key.len()`
/// bytes of a row are its key.
pub fn search(page: &Page, width: usize, key: &[u8]) -> Result<usize, usize>
    requires laid { Laid width page.now }
    requires some { 1 ≤ length key.now }
    requires within { length key.now ≤ width }
    requires ascend { IsTrue (ascends (row_before (length key.now)) (rows_of width page.now)) }
    ensures there { IfOk result (λ index. IsThere (length key.now) key.now (rows_of width page.now) index) }
    ensures absent { IfErr result (λ index. IsAbsent (length key.now) key.now (rows_of width page.now) index) }
{
    let place = place_of(page, width, key);
    if place == page.count() as usize {
        return Err(place);
    }
    let row = row_at(page, width, place);
    if has_key(row, key) {
        Ok(place)
    } else {
        Err(place)
    }
}
