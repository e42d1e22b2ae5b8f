ghost use Rattle.std.specs.Prelude.{◌≡◌, length, take, min};

/// Copies as many bytes as fit from the start of `from` to the start of `into`, and answers how
/// many.
pub(crate) fn copy_front(from: &[u8], into: &mut [u8]) -> usize
    ensures count { result ≡ min (length into.old) (length from.now) }
    ensures copied { take result into.new ≡ take result from.now }
{
    let count = from.len().min(into.len());
    into[..count].copy_from_slice(&from[..count]);
    count
}
