//! Numbers from decimal digits.

ghost use Rattle.std.specs.Prelude.{◌≡◌, ◌<◌, ◌^◌, IfSome};
ghost use Rattle.gd_text_part.specs.Numbers as spec;

/// The most digits that a number may have (own).
const MAX_DIGITS: usize = 18;

/// The number that at most `MAX_DIGITS` decimal digits spell, leading zeros allowed, or `None`.
pub fn number_of(bytes: &[u8]) -> Option<u64>
    ensures number { result ≡ spec.number_of bytes.now }
    ensures small { IfSome result (λ n. n < 10 ^ MAX_DIGITS) }
{
    if bytes.is_empty() || bytes.len() > MAX_DIGITS {
        return None;
    }
    let mut number = 0;
    'digits: for b in bytes {
        if !b.is_ascii_digit() {
            return None;
        }
        number = 10 * number + u64::from(*b - b'0');
    }
    Some(number)
}

/// The number that at most `MAX_DIGITS` decimal digits spell, behind a `-` or not, or `None`.
pub fn signed_of(bytes: &[u8]) -> Option<i64>
    ensures { result ≡ spec.signed_of bytes.now }
{
    match bytes {
        [] => None,
        [b'-', rest @ ..] => match number_of(rest) {
            Some(number) => Some(-(number as i64)),
            None => None,
        },
        _ => match number_of(bytes) {
            Some(number) => Some(number as i64),
            None => None,
        },
    }
}
