// Numbers in decimal, as every printed text has them.
ghost use Rattle.std.specs.Prelude.{◌≡◌, ◌++◌, decimal, OnOk, OnErr};

use crate::NoMemory;
use itoa::Buffer;

/// Puts the number in decimal after what the buffer holds. After an error the buffer is as it was.
pub fn push_number(text: &mut Vec<u8>, number: u64) -> Result<(), NoMemory>
    ensures text { OnOk result (text.new.items ≡ text.old.items ++ decimal number) }
    ensures unchanged { OnErr result (text.new.items ≡ text.old.items) }
{
    let mut digits = Buffer::new();
    Ok(text.extend_from_slice(digits.format(number).as_bytes())?)
}
