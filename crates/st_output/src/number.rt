ghost use Rattle.std.specs.Prelude.{◌≡◌, ◌++◌, OnOk};
ghost use Rattle.std.specs.Fmt.{decimal};

use itoa::Buffer;
use st_text::Letters;
use std::alloc::AllocError;

/// Adds a number in decimal digits.
pub(crate) fn push_number(into: &mut Letters, number: u128) -> Result<(), AllocError>
    ensures { OnOk result (into.new ≡ into.old ++ decimal number) }
{
    let mut buffer = Buffer::new();
    into.push_str(buffer.format(number))
}

/// Adds a number behind a sign.
pub(crate) fn push_signed(into: &mut Letters, sign: &str, number: u128) -> Result<(), AllocError>
    ensures { OnOk result (into.new ≡ into.old ++ sign.now ++ decimal number) }
{
    into.push_str(sign)?;
    push_number(into, number)
}
