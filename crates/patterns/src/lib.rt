// Fields whose characters have their places: patterns, the digits at a place, and a number between two others.
// Each function gives what the definition of its name says, for any bytes.
#![tactic(auto)]

ghost use Rattle.std.specs.Prelude.{◌≡◌, ◌+◌, ◌≤◌, length};
ghost use Rattle.patterns.specs.Patterns.{fits_character, fits_pattern, digits_at, between};

// Whether a character fits one of a pattern: d stands for a digit, any other for itself.
#[tactic(auto, unfolding(crate::specs::Patterns::fits_character))]
fn fits_character(p: u8, b: u8) -> bool
    ensures { result ≡ fits_character p b }
{
    if p == b'd' {
        numerals::is_digit(b)
    } else {
        b == p
    }
}

// Whether the characters fit the pattern: as many, and each at its place.
pub fn fits_pattern(pattern: &[u8], s: &[u8]) -> bool
    ensures { result ≡ fits_pattern pattern.now s.now }
{
    pattern.len() == s.len() && pattern.iter().zip(s).all(|(p, b)| fits_character(*p, *b))
}

// The value of the digits from a place on and before another.
pub fn digits_at(s: &[u8], from: usize, to: usize) -> u32
    requires { (from ≤ to) × (to ≤ length s.now) × (to ≤ from + 9) }
    ensures { result ≡ digits_at from to s.now }
{
    let count = numerals::number_of(&s[from..to]);
    match count {
        Some(v) => v as u32,
        None => 0,
    }
}

// Whether the number is least to most.
#[tactic(auto, unfolding(crate::specs::Patterns::between))]
pub fn between(least: u32, most: u32, n: u32) -> bool
    ensures { result ≡ between least most n }
{
    (least..=most).contains(&n)
}
