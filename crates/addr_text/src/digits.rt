//! Texts put into room of a fixed size, from its end towards its beginning.
ghost use Rattle.std.specs.Prelude.{◌≡◌, ◌≤◌, ◌<◌, ◌+◌, ◌++◌, ◌∷◌, drop, decimal};
ghost use Rattle.std.specs.Net.Text.{dotted_text};

/// Puts a number's decimal digits before the place `end`, and says where they begin: at most ten
/// places before it.
pub(crate) fn put_number(number: u32, end: usize, text: &mut [u8; 64]) -> usize
    requires most { 10 ≤ end }
    requires within { end ≤ 64 }
    ensures room { end ≤ result + 10 }
    ensures before { result < end }
    ensures digits { drop result text.new ≡ decimal number ++ drop end text.old }
{
    let mut start = end;
    let mut rest = number;
    'digits: while rest >= 10 {
        start -= 1;
        text[start] = b'0' + (rest % 10) as u8;
        rest /= 10;
    }
    start -= 1;
    text[start] = b'0' + rest as u8;
    start
}

/// Puts a byte before the place `end`, and says where it stands.
pub(crate) fn put_byte(byte: u8, end: usize, text: &mut [u8; 64]) -> usize
    requires some { 1 ≤ end }
    requires within { end ≤ 64 }
    ensures before { result + 1 ≡ end }
    ensures byte { drop result text.new ≡ byte ∷ drop end text.old }
{
    let start = end - 1;
    text[start] = byte;
    start
}

/// Puts four octets with dots between them before the place `end`, and says where they begin.
pub(crate) fn put_dotted(a: u8, b: u8, c: u8, d: u8, end: usize, text: &mut [u8; 64]) -> usize
    requires most { 43 ≤ end }
    requires within { end ≤ 64 }
    ensures before { result < end }
    ensures text { drop result text.new ≡ dotted_text a b c d ++ drop end text.old }
{
    let start = put_number(u32::from(d), end, text);
    let start = put_dot_behind(c, start, text);
    let start = put_dot_behind(b, start, text);
    put_dot_behind(a, start, text)
}

/// Puts an octet and a dot behind it before the place `end`, and says where the octet begins.
fn put_dot_behind(octet: u8, end: usize, text: &mut [u8; 64]) -> usize
    requires most { 11 ≤ end }
    requires within { end ≤ 64 }
    ensures room { end ≤ result + 11 }
    ensures before { result < end }
    ensures text { drop result text.new ≡ decimal octet ++ (46 ∷ drop end text.old) }
{
    let start = put_byte(b'.', end, text);
    put_number(u32::from(octet), start, text)
}
