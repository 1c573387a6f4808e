//! Numbers in decimal digits.
ghost use Rattle.std.specs.Prelude.{◌≡◌, ◌^◌, ◌<◌, ◌≤◌, ◌↔◌, ◌+◌, ◌-◌, option_and_then};
ghost use Rattle.yt_base.specs.Digits.{digits_of_text, signed_of_text};
ghost use Rattle.yt_base.specs.Inside.NextDigit.{then_byte};

/// What a text says as a number without a sign. Leading zeros are digits like others.
#[derive(Clone, Copy, Debug, PartialEq, Eq)]
pub enum Decimal {
    /// No number: no bytes, or one among them that is none of `0` to `9`.
    Other,
    /// Digits whose value passes 2^64 - 1.
    Over,
    /// Digits, and what they are worth.
    Value(u64),
}

/// The value of a text of digits, however many they are.
pub fn digits(text: &[u8]) -> Decimal
    ensures { result ≡ digits_of_text text.now }
{
    if text.is_empty() {
        return Decimal::Other;
    }
    let mut value = Some(0u64);
    for b in text {
        if !b.is_ascii_digit() {
            return Decimal::Other;
        }
        value = then_digit(value, *b);
    }
    match value {
        Some(v) => Decimal::Value(v),
        None => Decimal::Over,
    }
}

/// The value with one more digit, where it fits.
fn then_digit(value: Option<u64>, b: u8) -> Option<u64>
    requires { 48 ≤ b }
    ensures { result ≡ option_and_then (then_byte b) value }
{
    value?.checked_mul(10)?.checked_add(u64::from(b - b'0'))
}

/// The value of an optional `-` and digits. `None` comes exactly where the text is something else, or its value is out of
/// the range of `i64`.
pub fn signed(text: &[u8]) -> Option<i64>
    ensures { result ≡ signed_of_text text.now }
{
    match text {
        [b'-', rest @ ..] => match digits(rest) {
            Decimal::Value(n) if n <= 1 << 63 => Some(0i64.wrapping_sub_unsigned(n)),
            _ => None,
        },
        _ => match digits(text) {
            Decimal::Value(n) => i64::try_from(n).ok(),
            _ => None,
        },
    }
}
