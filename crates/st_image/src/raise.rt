ghost use Rattle.std.specs.Prelude.{◌≡◌, ◌+◌, ◌<◌, ◌^◌, length};
ghost use Rattle.st_image.specs.Bytes.{number};

/// Raises the number that bytes spell by one, unless there is none above it in so many bytes.
pub fn raise(bytes: &mut [u8])
    ensures { number bytes.old + 1 < 256 ^ length bytes.old → number bytes.new ≡ number bytes.old + 1 }
{
    let mut i = bytes.len();
    while i > 0 {
        i -= 1;
        if bytes[i] < 255 {
            bytes[i] += 1;
            return;
        }
        bytes[i] = 0;
    }
}
