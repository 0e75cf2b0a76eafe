ghost use Rattle.std.specs.Prelude.{◌≡◌, ◌<◌, IfSome};
ghost use Rattle.digits.specs.Hex.{digit_value, pair_value};

use crate::letters::Letters;

// The byte that two digits stand for; None where one is wrong.
pub fn byte_of(letters: Letters, high: u8, low: u8) -> Option<u8>
    ensures { result ≡ pair_value (digit_value letters high) (digit_value letters low) }
{
    Some(digit(letters, high)? * 16 + digit(letters, low)?)
}

// The value of a digit.
fn digit(letters: Letters, byte: u8) -> Option<u8>
    ensures value { result ≡ digit_value letters byte }
    ensures bound { IfSome result (λ d. d < 16) }
{
    match byte {
        b'0'..=b'9' => Some(byte - b'0'),
        b'a'..=b'f' => Some(byte - b'a' + 10),
        b'A'..=b'F' if letters == Letters::Either => Some(byte - b'A' + 10),
        _ => None,
    }
}
