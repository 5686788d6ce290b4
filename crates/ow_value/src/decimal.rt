// Numbers of 64 bits that are written as decimal digits, with no sign.
ghost use Rattle.std.specs.Prelude.{◌≡◌};
ghost use Rattle.ow_value.specs.Decimal.{decimal_of, digit_after, digits_of, number_after};

/// The number of a text of at least one digit. Leading zeros are allowed.
pub fn digits_of(text: &[u8]) -> Option<u64>
    ensures { result ≡ digits_of text.now }
{
    if text.is_empty() {
        return None;
    }
    number_after(text)
}

/// As `digits_of`, without leading zeros: only the text `0` may start with 0.
pub fn decimal_of(text: &[u8]) -> Option<u64>
    ensures { result ≡ decimal_of text.now }
{
    match text {
        [] => None,
        [b'0', _, ..] => None,
        _ => number_after(text),
    }
}

fn number_after(text: &[u8]) -> Option<u64>
    ensures { result ≡ number_after 0 text.now }
{
    let mut n = 0u64;
    let mut rest = text;
    while let [c, after @ ..] = rest {
        n = digit_after(n, *c)?;
        rest = after;
    }
    Some(n)
}

// The number with one more digit.
fn digit_after(n: u64, c: u8) -> Option<u64>
    ensures { result ≡ digit_after n c }
{
    if !c.is_ascii_digit() {
        return None;
    }
    let digit = u64::from(c - b'0');
    n.checked_mul(10)?.checked_add(digit)
}
