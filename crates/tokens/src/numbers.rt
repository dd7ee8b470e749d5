// Numbers in decimal, binary and hexadecimal digits.
ghost use Rattle.std.specs.Prelude.{◌≡◌, ◌≤◌, ◌^◌};
ghost use Rattle.texts.specs.Decimal.{digit as digit_of, all_in, valued, scanned, decimal as decimal_of, digits_in};

use texts::NumberError;

// What a byte stands for as a digit, 99 where it is none.
#[tactic(auto, unfolding(texts::specs::Decimal::digit))]
fn digit(b: u8) -> u64
    ensures { result ≡ digit_of b }
{
    match b {
        b'0'..=b'9' => u64::from(b - b'0'),
        b'A'..=b'F' => u64::from(b - b'A') + 10,
        b'a'..=b'f' => u64::from(b - b'a') + 10,
        _ => 99,
    }
}

// Every byte of a token is a digit of the base.
fn all_in(t: &[u8], base: u64) -> bool
    ensures { result ≡ all_in base t.now }
{
    t.iter().all(|b| digit(*b) < base)
}

// The value of a token's digits.
fn value(t: &[u8], base: u64) -> Result<u64, NumberError>
    requires { (2 ≤ base) × (base ≤ 16) }
    ensures { result ≡ valued base t.now }
{
    let mut v: u64 = 0;
    for b in t {
        let d = digit(*b);
        let most = (18446744073709551615 - d) / base;
        if most < v {
            return Err(NumberError::TooLarge);
        }
        v = v * base + d;
    }
    Ok(v)
}

// The number that the digits of a token have.
fn scan(t: &[u8], base: u64) -> Result<u64, NumberError>
    requires { (2 ≤ base) × (base ≤ 16) }
    ensures { result ≡ scanned base t.now }
{
    if all_in(t, base) {
        value(t, base)
    } else {
        Err(NumberError::Malformed)
    }
}

// The same in base ten, in one pass: as long as the value is below 1844674407370955161, a tenth of 2^64, one more digit fits.
fn tens(t: &[u8]) -> Result<u64, NumberError>
    ensures { result ≡ scanned 10 t.now }
{
    let mut v: u64 = 0;
    for b in t {
        let d = digit(*b);
        if 10 <= d {
            return Err(NumberError::Malformed);
        }
        if 1844674407370955161 <= v {
            return scan(t, 10);
        }
        v = v * 10 + d;
    }
    Ok(v)
}

// A decimal number without leading zeros.
pub fn decimal(t: &[u8]) -> Result<u64, NumberError>
    ensures { result ≡ decimal_of t.now }
{
    if t.is_empty() {
        return Err(NumberError::Malformed);
    }
    if 1 < t.len() && t[0] == b'0' {
        return Err(NumberError::Malformed); // a leading zero
    }
    tens(t)
}

// Digits of a base other than ten, at most `most` of them.
pub fn digits_in(t: &[u8], base: u64, most: usize) -> Result<u64, NumberError>
    requires { (2 ≤ base) × ((base ≤ 16) × (base ^ most ≤ 2 ^ 64)) }
    ensures { result ≡ digits_in base most t.now }
{
    if t.is_empty() || !all_in(t, base) {
        return Err(NumberError::Malformed);
    }
    if most < t.len() {
        return Err(NumberError::TooLarge);
    }
    value(t, base)
}
