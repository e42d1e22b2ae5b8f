ghost use Rattle.std.specs.Prelude.{◌≡◌, ◌≤◌, length};
ghost use Rattle.st_image.specs.Bytes.{number};
ghost use Rattle.st_image.specs.Parts.{Field, Finds};

/// The first place at which bytes leave the numbers from `low` to `high`, which have as many bytes: no number from one
/// to the other begins with the bytes up to there. `None` if theirs is one of these numbers.
pub fn first_outside(low: &[u8], high: &[u8], bytes: &[u8]) -> Option<usize>
    requires low { length low.now ≡ length bytes.now }
    requires high { length high.now ≡ length bytes.now }
    requires order { number low.now ≤ number high.now }
    ensures { Finds (Field (length bytes.now) (number low.now) (number high.now)) bytes.now result }
{
    let mut on_low = true;
    let mut on_high = true;
    for i in 0..bytes.len() {
        let byte = bytes[i];
        if on_low {
            if byte < low[i] {
                return Some(i);
            }
            on_low = byte == low[i];
        }
        if on_high {
            if high[i] < byte {
                return Some(i);
            }
            on_high = byte == high[i];
        }
        if !on_low && !on_high {
            return None;
        }
    }
    None
}

/// The same of two bytes.
pub fn outside_16(low: u16, high: u16, bytes: &[u8]) -> Option<usize>
    requires size { length bytes.now ≡ 2 }
    requires order { low ≤ high }
    ensures { Finds (Field 2 low high) bytes.now result }
{
    first_outside(&low.to_be_bytes(), &high.to_be_bytes(), bytes)
}

/// The same of four bytes.
pub fn outside_32(low: u32, high: u32, bytes: &[u8]) -> Option<usize>
    requires size { length bytes.now ≡ 4 }
    requires order { low ≤ high }
    ensures { Finds (Field 4 low high) bytes.now result }
{
    first_outside(&low.to_be_bytes(), &high.to_be_bytes(), bytes)
}

/// The first place of a byte that isn't zero.
pub fn first_set(bytes: &[u8]) -> Option<usize>
    ensures { Finds (Field (length bytes.now) 0 0) bytes.now result }
{
    for i in 0..bytes.len() {
        if bytes[i] != 0 {
            return Some(i);
        }
    }
    None
}
