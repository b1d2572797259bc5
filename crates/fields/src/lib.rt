// What a field says where it may be one of a few things: counts in a range, counts with a letter, a year, one character, the word of a kind.
// Each reader tells three answers apart, for any bytes: the value, a wrong form (5), and a right form that is not allowed (6).
#![tactic(auto)]

ghost use Rattle.std.specs.Prelude.{◌≡◌, ◌≤◌, ◌-◌};
ghost use Rattle.fields.specs.Fields.{in_range, read_count_in, read_lettered, read_year, is_among, read_one_of, digit_value, read_digit_of};
ghost use Rattle.fields.specs.Fields.{read_state, read_side, read_quality, read_leap, small, same_word, read_kind};

use model::Kind;
use numerals::FieldError;

// A count that must be low to high.
#[tactic(auto, unfolding(crate::specs::Fields::in_range))]
fn in_range(count: Option<u64>, low: u64, high: u64) -> Result<u64, FieldError>
    ensures { result ≡ in_range low high count }
{
    let v = count.ok_or(FieldError::Form)?;
    if low <= v && v <= high {
        Ok(v)
    } else {
        Err(FieldError::Range)
    }
}

// A count of 1 to `most` characters, low to high.
#[tactic(auto, unfolding(crate::specs::Fields::read_count_in))]
pub fn read_count_in(field: &[u8], most: usize, low: u64, high: u64) -> Result<u64, FieldError>
    requires { most ≤ 19 }
    ensures { result ≡ read_count_in most low high field.now }
{
    let count = numerals::read_count(field, 1, most);
    in_range(count, low, high)
}

// A count of 1 to 6 characters and then a letter, 0 to high.
#[tactic(auto, unfolding(crate::specs::Fields::read_lettered))]
pub fn read_lettered(field: &[u8], letter: u8, high: u64) -> Result<u64, FieldError>
    ensures { result ≡ read_lettered letter high field.now }
{
    if !numerals::length_in(field, 2, 7) {
        return Err(FieldError::Form);
    }
    let n = field.len() - 1;
    if field[n] != letter {
        return Err(FieldError::Form);
    }
    read_count_in(&field[..n], 6, 0, high)
}

// A year: four digits.
#[tactic(auto, unfolding(crate::specs::Fields::read_year))]
pub fn read_year(field: &[u8]) -> Option<u64>
    ensures { result ≡ read_year field.now }
{
    if !numerals::length_in(field, 4, 4) {
        return None;
    }
    numerals::number_of(field)
}

// Whether b is one of the characters allowed.
fn is_among(b: u8, allowed: &[u8]) -> bool
    ensures { result ≡ is_among b allowed.now }
{
    allowed.contains(&b)
}

// One character, and one of those allowed.
#[tactic(auto, unfolding(crate::specs::Fields::read_one_of))]
pub fn read_one_of(field: &[u8], allowed: &[u8]) -> Result<u64, FieldError>
    ensures { result ≡ read_one_of allowed.now field.now }
{
    if field.len() != 1 {
        return Err(FieldError::Form);
    }
    let b = field[0];
    if is_among(b, allowed) {
        return Ok(b as u64);
    }
    Err(FieldError::Range)
}

// b less k, and 0 where k is larger.
fn less(b: u64, k: u64) -> u64
    ensures { result ≡ b - k }
{
    b.saturating_sub(k)
}

// What a digit is worth, a hexadecimal one in either case.
#[tactic(auto, unfolding(crate::specs::Fields::digit_value))]
fn digit_value(b: u64) -> u64
    ensures { result ≡ digit_value b }
{
    if b < 58 {
        return less(b, 48);
    }
    if b < 71 {
        return less(b, 55);
    }
    less(b, 87)
}

// One digit, and one of those allowed.
#[tactic(auto, unfolding(crate::specs::Fields::read_digit_of))]
fn read_digit_of(field: &[u8], allowed: &[u8]) -> Result<u64, FieldError>
    ensures { result ≡ read_digit_of allowed.now field.now }
{
    let b = read_one_of(field, allowed)?;
    Ok(digit_value(b))
}

// The normal state of a status channel.
#[tactic(auto, unfolding(crate::specs::Fields::read_state))]
pub fn read_state(field: &[u8]) -> Result<u64, FieldError>
    ensures { result ≡ read_state field.now }
{
    read_digit_of(field, b"01")
}

// Whether primary or secondary values are meant.
#[tactic(auto, unfolding(crate::specs::Fields::read_side))]
pub fn read_side(field: &[u8]) -> Result<u64, FieldError>
    ensures { result ≡ read_side field.now }
{
    read_one_of(field, b"pPsS")
}

// The time quality.
#[tactic(auto, unfolding(crate::specs::Fields::read_quality))]
pub fn read_quality(field: &[u8]) -> Result<u64, FieldError>
    ensures { result ≡ read_quality field.now }
{
    read_digit_of(field, b"0123456789ABFabf")
}

// The leap second code.
#[tactic(auto, unfolding(crate::specs::Fields::read_leap))]
pub fn read_leap(field: &[u8]) -> Result<u64, FieldError>
    ensures { result ≡ read_leap field.now }
{
    read_digit_of(field, b"0123")
}

// A capital letter as a small one.
#[tactic(auto, unfolding(crate::specs::Fields::small))]
fn small(b: u8) -> u8
    ensures { result ≡ small b }
{
    b.to_ascii_lowercase()
}

// Whether the field is the word, which is in small letters, in any case.
fn same_word(word: &[u8], field: &[u8]) -> bool
    ensures { result ≡ same_word word.now field.now }
{
    word.len() == field.len() && word.iter().zip(field).all(|(w, b)| small(*b) == *w)
}

// The kind of data file, by its word.
#[tactic(auto, unfolding(crate::specs::Fields::read_kind))]
pub fn read_kind(field: &[u8]) -> Result<Kind, FieldError>
    ensures { result ≡ read_kind field.now }
{
    if !numerals::length_in(field, 5, 8) {
        return Err(FieldError::Form);
    }
    if same_word(b"ascii", field) {
        return Ok(Kind::Ascii);
    }
    if same_word(b"binary", field) {
        return Ok(Kind::Binary);
    }
    if same_word(b"binary32", field) {
        return Ok(Kind::Binary32);
    }
    Err(FieldError::Range)
}
