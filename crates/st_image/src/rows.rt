ghost use Rattle.std.specs.Prelude.{◌≡◌, ◌+◌, ◌-◌, ◌*◌, ◌^◌, ◌<◌, ◌≤◌, length, take, IsTrue, if◌then◌else◌};
ghost use Rattle.st_image.specs.Bytes.{number};
ghost use Rattle.st_image.specs.Parts.{Finds, Row, Rows};

use crate::raise::raise;
use crate::range::{first_outside, first_set, outside_32};

/// The first place at which a row leaves those whose keys are from `low` to `high` and, of a child, which end with the
/// number of a page.
fn row_fault(row: &[u8], child: bool, low: &[u8], high: &[u8]) -> Option<usize>
    requires low { length low.now ≤ length row.now }
    requires high { length high.now ≡ length low.now }
    requires order { number low.now ≤ number high.now }
    requires child { IsTrue child → length row.now ≡ length low.now + 4 }
    ensures { Finds (Row child (length low.now) (length row.now) (number low.now) (number high.now)) row.now result }
{
    let key = low.len();
    if let Some(place) = first_outside(low, high, &row[..key]) {
        return Some(place);
    }
    if child {
        if let Some(place) = outside_32(0, 65535, &row[key..]) {
            return Some(key + place);
        }
    }
    None
}

/// The same with the bounds of a row's key, which is `low` if it is the first child's.
fn next_row_fault(row: &[u8], child: bool, first: bool, low: &[u8], high: &[u8]) -> Option<usize>
    requires low { length low.now ≤ length row.now }
    requires high { length high.now ≡ length low.now }
    requires order { number low.now ≤ number high.now }
    requires child { IsTrue child → length row.now ≡ length low.now + 4 }
    ensures { Finds (Row child (length low.now) (length row.now) (number low.now) (if first then number low.now else number high.now)) row.now result }
{
    if first {
        row_fault(row, child, low, low)
    } else {
        row_fault(row, child, low, high)
    }
}

/// Makes the bounds those of the key behind a row's: `low` is one above the row's key, and `high` one above itself.
fn go_on(row: &[u8], low: &mut [u8], high: &mut [u8])
    requires { length low.old ≤ length row.now }
    ensures low { number (take (length low.old) row.now) + 1 < 256 ^ length low.old → number low.new ≡ number (take (length low.old) row.now) + 1 }
    ensures high { number high.old + 1 < 256 ^ length high.old → number high.new ≡ number high.old + 1 }
{
    let key = low.len();
    low.copy_from_slice(&row[..key]);
    raise(low);
    raise(high);
}

/// Makes bytes spell the number that is as much below the first one that they can't spell.
fn set_below(bytes: &mut [u8], by: usize)
    requires some { 1 ≤ length bytes.old }
    requires least { 1 ≤ by }
    requires most { by ≤ 65535 }
    requires within { by ≤ 256 ^ length bytes.old }
    ensures { number bytes.new + by ≡ 256 ^ length bytes.old }
{
    if bytes.len() == 1 {
        bytes[0] = (256 - by) as u8;
        return;
    }
    let at = bytes.len() - 2;
    bytes[..at].fill(255);
    bytes[at..].copy_from_slice(&((65536 - by) as u16).to_be_bytes());
}

/// The first place at which bytes leave rows with ascending keys and zeros behind them. The bounds are as wide as a key,
/// and the lower one is zero.
fn rows_between(
    body: &[u8],
    width: usize,
    child: bool,
    first: bool,
    count: usize,
    low: &mut [u8],
    high: &mut [u8],
) -> Option<usize>
    requires some { 1 ≤ length low.old }
    requires high { length high.old ≡ length low.old }
    requires zero { number low.old ≡ 0 }
    requires within { length low.old ≤ width }
    requires width { width ≤ 4096 }
    requires child { IsTrue child → width ≡ length low.old + 4 }
    requires most { count ≤ 65535 }
    requires keys { count ≤ 256 ^ length low.old }
    requires room { count * width ≤ length body.now }
    ensures { Finds (Rows child (length low.old) width (length body.now - count * width) first count 0) body.now result }
{
    if count > 0 {
        set_below(high, count);
    }
    let mut is_first = first;
    for i in 0..count {
        let at = i * width;
        let row = &body[at..at + width];
        if let Some(place) = next_row_fault(row, child, is_first, low, high) {
            return Some(at + place);
        }
        is_first = false;
        go_on(row, low, high);
    }
    let end = count * width;
    match first_set(&body[end..]) {
        Some(place) => Some(end + place),
        None => None,
    }
}

/// The first place at which bytes leave so many rows, with ascending keys, and zeros behind them. A row of a child ends
/// with the number of a page, and the first child's key is zero.
pub fn rows_fault(
    body: &[u8],
    key: usize,
    width: usize,
    child: bool,
    first: bool,
    count: usize,
) -> Option<usize>
    requires some { 1 ≤ key }
    requires key { key ≤ 256 }
    requires within { key ≤ width }
    requires width { width ≤ 4096 }
    requires child { IsTrue child → width ≡ key + 4 }
    requires most { count ≤ 65535 }
    requires keys { count ≤ 256 ^ key }
    requires room { count * width ≤ length body.now }
    ensures { Finds (Rows child key width (length body.now - count * width) first count 0) body.now result }
{
    let mut low = [0; 256];
    let mut high = [0; 256];
    rows_between(
        body,
        width,
        child,
        first,
        count,
        &mut low[..key],
        &mut high[..key],
    )
}
