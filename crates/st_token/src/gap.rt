//! The blanks and comments between tokens.
ghost use Rattle.std.specs.Prelude.{◌≡◌, ◌<◌, ◌≤◌, ◌||◌, ◌==◌, false, length, drop, slice_index};
ghost use Rattle.st_token.specs.Bytes.{is_blank};
ghost use Rattle.st_token.specs.Scan.{after_gap};

use crate::bytes::is_blank;

/// The place behind the blanks and comments that stand at `at`.
pub(crate) fn skip_gap(bytes: &[u8], at: usize) -> usize
    requires { at ≤ length bytes.now }
    ensures from { at ≤ result }
    ensures within { result ≤ length bytes.now }
    ensures rest { drop result bytes.now ≡ after_gap false (drop at bytes.now) }
    ensures stops { result < length bytes.now → (is_blank (slice_index bytes.now result) || slice_index bytes.now result == 59) ≡ false }
{
    let mut in_comment = false;
    for i in at..bytes.len() {
        let byte = bytes[i];
        if in_comment {
            in_comment = byte != b'\n';
        } else if byte == b';' {
            in_comment = true;
        } else if !is_blank(byte) {
            return i;
        }
    }
    bytes.len()
}
