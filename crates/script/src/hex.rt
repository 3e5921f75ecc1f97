// Bytes, written in hexadecimal.
ghost use Rattle.script.specs.Hex.{hex_digit};
ghost use Rattle.script.specs.Operands.{hex_operand};
ghost use Rattle.script.specs.Reading.{Reads};
ghost use Rattle.std.specs.Prelude.{◌≡◌, Ok, Err};

use crate::mistake::{Mistake, Unread};
use crate::words::{Words, is_blank};
use std::alloc::{AllocError, Global};

// The value of a hexadecimal digit.
fn digit(byte: u8) -> Option<u32>
    ensures { result ≡ hex_digit byte }
{
    char::from(byte).to_digit(16)
}

// The bytes that words write together, two digits for each.
pub(crate) fn hex_bytes(heap: Global, words: Words) -> Result<Vec<u8>, Unread>
    ensures { Reads result (λ bytes. hex_operand words.entry ≡ Ok bytes.items) (λ mistake. hex_operand words.entry ≡ Err mistake) }
{
    let mut bytes = Vec::new(heap);
    let mut high = None;
    let line = words.line();
    for byte in line {
        if is_blank(*byte) {
            continue;
        }
        let digit = digit(*byte).ok_or(Mistake::NotHexadecimal)?;
        match high.take() {
            None => high = Some(digit),
            Some(first) => bytes
                .push((first * 16 + digit) as u8)
                .map_err(AllocError::from)?,
        }
    }
    if high.is_some() {
        return Err(Unread::Wrong(Mistake::NotHexadecimal));
    }
    Ok(bytes)
}
