//! Numbers written in decimal digits.
ghost use Rattle.std.specs.Prelude.{◌≡◌, ◌<◌, ◌^◌, ◌↔◌, ℕ, Some, decimal};
ghost use Rattle.std.specs.List.{list_all};
ghost use Rattle.std.specs.Char.{is_ascii_digit};
ghost use Rattle.addr_text.specs.Number.{is_numeral, number_of};

/// The number below `2^32` that a text writes in decimal digits, with no sign and no leading zero.
/// `None` for any other text.
pub fn read_number(text: &[u8]) -> Option<u32>
    ensures exact { result ≡ number_of text.now }
    ensures decimal { (n : ℕ) → n < 2 ^ 32 → ((result ≡ Some n) ↔ (text.now ≡ decimal n)) }
{
    numeral_value(text)
}

/// The value of a numeral. The standard reader takes a sign and leading zeros too, so they are
/// refused before it.
fn numeral_value(text: &[u8]) -> Option<u32>
    ensures { result ≡ number_of text.now }
{
    if !is_numeral(text) {
        return None;
    }
    match str::from_utf8(text) {
        Ok(digits) => digits.parse().ok(),
        Err(_) => None,
    }
}

/// Whether the text is a `0` alone, or digits that begin with another.
fn is_numeral(text: &[u8]) -> bool
    ensures { result ≡ is_numeral text.now }
{
    match text {
        [] => false,
        [b'0', rest @ ..] => rest.is_empty(),
        _ => are_digits(text),
    }
}

fn are_digits(text: &[u8]) -> bool
    ensures { result ≡ list_all is_ascii_digit text.now }
{
    text.iter().all(|byte| byte.is_ascii_digit())
}
