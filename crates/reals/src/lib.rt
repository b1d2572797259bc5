// Reals as exact decimals: their form, their sign, their order.
// Each reader says what a field is, for any bytes, as the definitions of specs/ have it; no number is rounded, and none is a float.
#![tactic(auto)]

ghost use Rattle.std.specs.Prelude.{◌≡◌, ◌<◌, ◌≤◌, ◌*◌, ◌^◌, length};
ghost use Rattle.numerals.specs.Inner.{Below};
ghost use Rattle.reals.specs.Forms.{leading_digits, fraction_length, mantissa_length, is_e, short_number, raised_by, signed_exponent, exponent_of, real_form, is_nought, is_zero, sign_of, real_sign, signed_real, read_real};
ghost use Rattle.reals.specs.Exact.{digits_of, decimal_places, exact_of, size_le, in_bound, limit_of, signed_limit, read_limit, max_below};
ghost use Rattle.reals.specs.Inner.{Sound};

use numerals::FieldError;

// The side of zero on which a real is.
#[derive(Clone, Copy)]
pub enum Sign {
    Below,
    Zero,
    Above,
}

// The number digits * 10 ^ scale / 10 ^ 1100, with a minus in front where minus is true.
#[derive(Clone, Copy)]
pub struct Exact {
    pub minus: bool,
    pub digits: u64,
    pub scale: u64,
}

// How many digits lead.
fn leading_digits(s: &[u8]) -> usize
    ensures { result ≡ leading_digits s.now }
{
    s.iter()
        .position(|b| !numerals::is_digit(*b))
        .unwrap_or(s.len())
}

// How many characters a point and digits take.
#[tactic(auto, unfolding(crate::specs::Forms::fraction_length))]
fn fraction_length(s: &[u8]) -> usize
    ensures { result ≡ fraction_length s.now }
{
    if s.len() == 0 {
        return 0;
    }
    if s[0] != b'.' {
        return 0;
    }
    let after = leading_digits(&s[1..]);
    if 0 < after {
        return after + 1;
    }
    0
}

// How many characters a mantissa takes.
#[tactic(auto, unfolding(crate::specs::Forms::mantissa_length))]
fn mantissa_length(s: &[u8]) -> usize
    ensures { result ≡ mantissa_length s.now }
{
    let n = leading_digits(s);
    if n == 0 {
        return 0;
    }
    n + fraction_length(&s[n..])
}

// e or E.
#[tactic(auto, unfolding(crate::specs::Forms::is_e))]
fn is_e(b: u8) -> bool
    ensures { result ≡ is_e b }
{
    matches!(b, b'e' | b'E')
}

// 1 to 3 digits.
#[tactic(auto, unfolding(crate::specs::Forms::short_number))]
fn short_number(s: &[u8]) -> Option<u64>
    ensures { result ≡ short_number s.now }
{
    if !numerals::length_in(s, 1, 3) {
        return None;
    }
    numerals::number_of(s)
}

// An exponent of that size, 1100 up.
#[tactic(auto, unfolding(crate::specs::Forms::raised_by))]
fn raised_by(size: Option<u64>, minus: bool) -> Option<u64>
    requires { Below (10 ^ 3) size }
    ensures { result ≡ raised_by minus size }
{
    let v = size?;
    if minus {
        Some(1100 - v)
    } else {
        Some(1100 + v)
    }
}

// An optional sign and 1 to 3 digits.
#[tactic(auto, unfolding(crate::specs::Forms::signed_exponent))]
fn signed_exponent(s: &[u8]) -> Option<u64>
    ensures { result ≡ signed_exponent s.now }
{
    let n = numerals::sign_length(s);
    let size = short_number(&s[n..]);
    raised_by(size, numerals::has_minus(s))
}

// An exponent, which may be absent.
#[tactic(auto, unfolding(crate::specs::Forms::exponent_of))]
fn exponent_of(s: &[u8]) -> Option<u64>
    ensures { result ≡ exponent_of s.now }
{
    if s.len() == 0 {
        return Some(1100);
    }
    if !is_e(s[0]) {
        return None;
    }
    signed_exponent(&s[1..])
}

// The form of a real after its spaces and sign: its exponent.
#[tactic(auto, unfolding(crate::specs::Forms::real_form))]
fn real_form(s: &[u8]) -> Option<u64>
    ensures { result ≡ real_form s.now }
{
    let m = mantissa_length(s);
    if m == 0 {
        return None;
    }
    exponent_of(&s[m..])
}

// 0 or the point.
#[tactic(auto, unfolding(crate::specs::Forms::is_nought))]
fn is_nought(b: u8) -> bool
    ensures { result ≡ is_nought b }
{
    matches!(b, b'0' | b'.')
}

// Whether a mantissa is zero.
fn is_zero(m: &[u8]) -> bool
    ensures { result ≡ is_zero m.now }
{
    m.iter().all(|b| is_nought(*b))
}

// Zero, below zero or above zero.
#[tactic(auto, unfolding(crate::specs::Forms::sign_of))]
fn sign_of(zero: bool, minus: bool) -> Sign
    ensures { result ≡ sign_of zero minus }
{
    if zero {
        return Sign::Zero;
    }
    if minus {
        return Sign::Below;
    }
    Sign::Above
}

// A real after its spaces and sign.
#[tactic(auto, unfolding(crate::specs::Forms::real_sign))]
fn real_sign(minus: bool, s: &[u8]) -> Option<Sign>
    ensures { result ≡ real_sign minus s.now }
{
    let _ = real_form(s)?;
    let m = mantissa_length(s);
    Some(sign_of(is_zero(&s[..m]), minus))
}

// A real after its spaces.
#[tactic(auto, unfolding(crate::specs::Forms::signed_real))]
fn signed_real(s: &[u8]) -> Option<Sign>
    ensures { result ≡ signed_real s.now }
{
    let n = numerals::sign_length(s);
    real_sign(numerals::has_minus(s), &s[n..])
}

// A real in a field of `least` to `most` characters.
#[tactic(auto, unfolding(crate::specs::Forms::read_real))]
pub fn read_real(field: &[u8], least: usize, most: usize) -> Option<Sign>
    ensures { result ≡ read_real least most field.now }
{
    if !numerals::length_in(field, least, most) {
        return None;
    }
    let n = numerals::leading_spaces(field);
    signed_real(&field[n..])
}

// v with k zeros after it.
fn to_places(v: u64, k: u64) -> u64
    requires { v * 10 ^ k < 10 ^ 13 }
    ensures { result ≡ v * 10 ^ k }
{
    let mut w = v;
    for _ in 0..k {
        w *= 10;
    }
    w
}

// Whether m * 10 ^ x ≤ n * 10 ^ y: by the place of the first digit, and then by the digits, 13 of each.
fn size_le(m: u64, x: u64, n: u64, y: u64) -> bool
    requires m_bound { (m < 10 ^ 13) × (x ≤ 2100) }
    requires n_bound { (n < 10 ^ 13) × (y ≤ 2100) }
    ensures { result ≡ size_le m x n y }
{
    if m == 0 {
        return true;
    }
    if n == 0 {
        return false;
    }
    let i = numerals::decimal_length(m) as u64;
    let j = numerals::decimal_length(n) as u64;
    let p = i + x;
    let q = j + y;
    if p != q {
        return p < q;
    }
    to_places(m, 13 - i) <= to_places(n, 13 - j)
}

// The digits of a mantissa as a whole number.
fn digits_of(m: &[u8]) -> u64
    requires { length m.now ≤ 13 }
    ensures { result ≡ digits_of 0 m.now }
{
    let mut v = 0;
    for b in m {
        if numerals::is_digit(*b) {
            v = 10 * v + numerals::wide(*b - b'0');
        }
    }
    v
}

// How many digits stand after the point.
#[tactic(auto, unfolding(crate::specs::Exact::decimal_places))]
fn decimal_places(s: &[u8]) -> usize
    ensures { result ≡ decimal_places s.now }
{
    let n = leading_digits(s);
    let f = fraction_length(&s[n..]);
    if f == 0 {
        return 0;
    }
    f - 1
}

// The number of a real whose exponent is told.
#[tactic(auto, unfolding(crate::specs::Exact::exact_of))]
fn exact_of(minus: bool, e: u64, s: &[u8]) -> Exact
    requires { (length s.now ≤ 13) × (13 ≤ e) }
    ensures { result ≡ exact_of minus e s.now }
{
    let m = mantissa_length(s);
    let p = decimal_places(s) as u64;
    Exact {
        minus,
        digits: digits_of(&s[..m]),
        scale: e - p,
    }
}

// A limit, where it is within the bound 3.4028235E38.
#[tactic(auto, unfolding(crate::specs::Exact::in_bound, crate::specs::Exact::within_bound))]
fn in_bound(x: Exact) -> Result<Exact, FieldError>
    requires { Sound x }
    ensures { result ≡ in_bound x }
{
    if size_le(x.digits, x.scale, 34028235, 1131) {
        Ok(x)
    } else {
        Err(FieldError::Range)
    }
}

// A limit after its spaces and sign.
#[tactic(auto, unfolding(crate::specs::Exact::limit_of))]
fn limit_of(minus: bool, s: &[u8]) -> Result<Exact, FieldError>
    requires { length s.now ≤ 13 }
    ensures { result ≡ limit_of minus s.now }
{
    let e = real_form(s).ok_or(FieldError::Form)?;
    in_bound(exact_of(minus, e, s))
}

// A limit after its spaces.
#[tactic(auto, unfolding(crate::specs::Exact::signed_limit))]
fn signed_limit(s: &[u8]) -> Result<Exact, FieldError>
    requires { length s.now ≤ 13 }
    ensures { result ≡ signed_limit s.now }
{
    let n = numerals::sign_length(s);
    limit_of(numerals::has_minus(s), &s[n..])
}

// Min or max of a channel.
#[tactic(auto, unfolding(crate::specs::Exact::read_limit))]
pub fn read_limit(field: &[u8]) -> Result<Exact, FieldError>
    ensures { result ≡ read_limit field.now }
{
    if !numerals::length_in(field, 1, 13) {
        return Err(FieldError::Form);
    }
    let n = numerals::leading_spaces(field);
    signed_limit(&field[n..])
}

// Whether max is below min, as exact decimals.
pub fn max_below(max: Exact, min: Exact) -> bool
    requires sound { Sound max }
    requires sound_2 { Sound min }
    ensures { result ≡ max_below max min }
{
    if max.minus {
        if min.minus {
            return !size_le(max.digits, max.scale, min.digits, min.scale);
        }
        return 0 < max.digits + min.digits;
    }
    if min.minus {
        return false;
    }
    !size_le(min.digits, min.scale, max.digits, max.scale)
}
