// Numbers and bytes, written in decimal digits.
ghost use Rattle.script.specs.Numbers.{byte_of, number_of};
ghost use Rattle.std.specs.Prelude.{◌≡◌};

// The number that `word` writes, or `None` where it writes none below 2^64.
pub(crate) fn number(word: &[u8]) -> Option<usize>
    ensures { result ≡ number_of word.now }
{
    if word.is_empty() {
        return None;
    }
    let mut value: usize = 0;
    for byte in word {
        let digit = char::from(*byte).to_digit(10)?;
        value = value.checked_mul(10)?.checked_add(digit as usize)?;
    }
    Some(value)
}

// The byte that `word` writes, or `None` where it writes no number below 256.
pub(crate) fn byte(word: &[u8]) -> Option<u8>
    ensures { result ≡ byte_of word.now }
{
    u8::try_from(number(word)?).ok()
}
