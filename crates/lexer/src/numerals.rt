ghost use Rattle.std.specs.Prelude.{◌≡◌, ◌≤◌};
ghost use Rattle.lexer.specs.Numerals.{number_in as number_in_base, number_typed};

/// The number that the digits of a base write, if it fits 64 bits.
fn number_in(base: u32, digits: &[u8]) -> Option<u64>
    requires lowest { 2 ≤ base }
    requires highest { base ≤ 36 }
    ensures value { result ≡ number_in_base base digits.now }
{
    if digits.is_empty() {
        return None;
    }
    let mut value: u64 = 0;
    for byte in digits {
        let digit = char::from(*byte).to_digit(base)?;
        value = value
            .checked_mul(u64::from(base))?
            .checked_add(u64::from(digit))?;
    }
    Some(value)
}

/// The number that a word types, in decimal digits, or in hexadecimal ones after `0x`, if it fits
/// 64 bits.
pub fn typed_number(word: &[u8]) -> Option<u64>
    ensures value { result ≡ number_typed word.now }
{
    match word.strip_prefix(b"0x") {
        Some(digits) => number_in(16, digits),
        None => number_in(10, word),
    }
}
