// Decimal numbers.
ghost use Rattle.std.specs.Prelude.{◌≡◌, cond};
ghost use Rattle.decimals.specs.Numbers.{between, with_digit, read_number, read_signed, positive_of, negative_of};

// Whether a byte lies within two others.
pub fn within(b: u8, low: u8, high: u8) -> bool
    ensures { result ≡ between b low high }
{
    (low..=high).contains(&b)
}

// A number with a digit more, if the byte is one and the number stays below 2^64.
pub fn with_digit(value: u64, b: u8) -> Option<u64>
    ensures { result ≡ with_digit value b }
{
    if !b.is_ascii_digit() {
        return None;
    }
    value.checked_mul(10)?.checked_add(u64::from(b - b'0'))
}

// A text of digits alone.
pub fn read_number(text: &[u8]) -> Option<u64>
    ensures { result ≡ read_number text.now }
{
    if text.is_empty() {
        return None;
    }
    let mut value = 0;
    for b in text {
        value = with_digit(value, *b)?;
    }
    Some(value)
}

// A size below 2^63 with its sign.
pub fn with_sign(negative: bool, size: u64) -> Option<i64>
    ensures { result ≡ cond negative (negative_of (Some size)) (positive_of (Some size)) }
{
    let Ok(whole) = i64::try_from(size) else {
        return None;
    };
    if negative {
        return Some(-whole);
    }
    Some(whole)
}

// A number below 2^63, with a minus before it or without.
pub fn read_signed(text: &[u8]) -> Option<i64>
    ensures { result ≡ read_signed text.now }
{
    match text.strip_prefix(b"-") {
        Some(digits) => with_sign(true, read_number(digits)?),
        None => with_sign(false, read_number(text)?),
    }
}
