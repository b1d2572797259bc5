// Time codes: a field's signed minutes, or a small x.
// Each reader answers for any bytes what the definition of its name says.
#![tactic(auto)]

ghost use Rattle.std.specs.Prelude.{◌≡◌, ◌≤◌};
ghost use Rattle.codes.specs.Codes.{signed_minutes, minutes_of, hours_and_minutes, hours_of, small_x, code_of, code_in, read_code, read_local_code};

use numerals::FieldError;

// A time code in signed minutes, or a small x.
#[derive(Clone, Copy)]
pub enum Code {
    Minutes(i64),
    X,
}

// Hours and minutes as minutes, the sign over both.
#[tactic(auto, unfolding(crate::specs::Codes::signed_minutes))]
fn signed_minutes(minus: bool, hours: u32, minutes: u32) -> i64
    requires { (hours ≤ 14) × (minutes ≤ 59) }
    ensures { result ≡ signed_minutes minus hours minutes }
{
    let h = hours as u64;
    let m = minutes as u64;
    if minus {
        words::minus(60 * h + m)
    } else {
        words::plus(60 * h + m)
    }
}

// Hours to 14 and minutes to 59.
#[tactic(auto, unfolding(crate::specs::Codes::minutes_of))]
fn minutes_of(minus: bool, hours: u32, minutes: u32) -> Result<Code, FieldError>
    ensures { result ≡ minutes_of minus hours minutes }
{
    if !patterns::between(0, 14, hours) {
        return Err(FieldError::Range);
    }
    if !patterns::between(0, 59, minutes) {
        return Err(FieldError::Range);
    }
    Ok(Code::Minutes(signed_minutes(minus, hours, minutes)))
}

// Hours, an h and minutes.
#[tactic(auto, unfolding(crate::specs::Codes::hours_and_minutes))]
fn hours_and_minutes(minus: bool, s: &[u8]) -> Result<Code, FieldError>
    ensures { result ≡ hours_and_minutes minus s.now }
{
    if patterns::fits_pattern(b"dhdd", s) {
        return minutes_of(
            minus,
            patterns::digits_at(s, 0, 1),
            patterns::digits_at(s, 2, 4),
        );
    }
    if patterns::fits_pattern(b"ddhdd", s) {
        return minutes_of(
            minus,
            patterns::digits_at(s, 0, 2),
            patterns::digits_at(s, 3, 5),
        );
    }
    Err(FieldError::Form)
}

// What stands after the sign: hours alone, or with minutes.
#[tactic(auto, unfolding(crate::specs::Codes::hours_of))]
fn hours_of(minus: bool, s: &[u8]) -> Result<Code, FieldError>
    ensures { result ≡ hours_of minus s.now }
{
    if patterns::fits_pattern(b"d", s) {
        return minutes_of(minus, patterns::digits_at(s, 0, 1), 0);
    }
    if patterns::fits_pattern(b"dd", s) {
        return minutes_of(minus, patterns::digits_at(s, 0, 2), 0);
    }
    hours_and_minutes(minus, s)
}

// A small x, where it is allowed.
#[tactic(auto, unfolding(crate::specs::Codes::small_x))]
fn small_x(local: bool, s: &[u8]) -> bool
    ensures { result ≡ small_x local s.now }
{
    local && patterns::fits_pattern(b"x", s)
}

// What stands after the leading spaces.
#[tactic(auto, unfolding(crate::specs::Codes::code_of))]
fn code_of(local: bool, s: &[u8]) -> Result<Code, FieldError>
    ensures { result ≡ code_of local s.now }
{
    if small_x(local, s) {
        return Ok(Code::X);
    }
    let n = numerals::sign_length(s);
    hours_of(numerals::has_minus(s), &s[n..])
}

#[tactic(auto, unfolding(crate::specs::Codes::code_in))]
fn code_in(local: bool, field: &[u8]) -> Result<Code, FieldError>
    ensures { result ≡ code_in local field.now }
{
    if !numerals::length_in(field, 1, 6) {
        return Err(FieldError::Form);
    }
    let n = numerals::leading_spaces(field);
    code_of(local, &field[n..])
}

// The time code.
#[tactic(auto, unfolding(crate::specs::Codes::read_code))]
pub fn read_code(field: &[u8]) -> Result<Code, FieldError>
    ensures { result ≡ read_code field.now }
{
    code_in(false, field)
}

// The local code, which may be a small x.
#[tactic(auto, unfolding(crate::specs::Codes::read_local_code))]
pub fn read_local_code(field: &[u8]) -> Result<Code, FieldError>
    ensures { result ≡ read_local_code field.now }
{
    code_in(true, field)
}
