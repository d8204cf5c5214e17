//! Numbers of 64 bits, spelled in decimal.
ghost use Rattle.std.specs.Prelude.{◌≡◌};
ghost use Rattle.text.specs.Decimal.{number_of, pushed, NumberReadsBack};

/// The number with one digit more; `None` where the byte is no digit or the number has no 64 bits for it.
fn push_digit(value: u64, byte: u8) -> Option<u64>
    ensures { result ≡ pushed value byte }
{
    if !byte.is_ascii_digit() {
        return None;
    }
    value.checked_mul(10)?.checked_add(u64::from(byte - b'0'))
}

/// The number that the word spells: one digit or more, with zeros in front or not, below 2^64.
pub fn number(word: &[u8]) -> Option<u64>
    ensures { result ≡ number_of word.now }
{
    if word.is_empty() {
        return None;
    }
    let mut value = 0;
    for &byte in word {
        value = push_digit(value, byte)?;
    }
    Some(value)
}

/// States that what is printed of a number is read as that number.
pub fn number_reads_back()
    ensures { NumberReadsBack }
{}
