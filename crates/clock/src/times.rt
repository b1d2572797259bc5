// Times of day, and their seconds counted.
ghost use Rattle.std.specs.Prelude.{◌≡◌, true, ◌≤◌, length};
ghost use Rattle.clock.specs.Times.{valid_time, time_form, fraction_of, time_of, read_time, is_zero_time, second_of_day};

use crate::Time;
use numerals::FieldError;

// Whether this is a time of day.
#[tactic(auto, unfolding(crate::specs::Times::valid_time))]
pub fn valid_time(time: Time) -> bool
    ensures { result ≡ valid_time time }
{
    time.hour < 24 && time.minute < 60 && time.second < 60 && time.nanosecond < 1_000_000_000
}

#[tactic(auto, unfolding(crate::specs::Times::time_form))]
fn time_form(s: &[u8]) -> bool
    ensures { result ≡ time_form s.now }
{
    if !numerals::length_in(s, 15, 18) {
        return false;
    }
    let n = s.len();
    let pattern = *b"dd:dd:dd.ddddddddd";
    patterns::fits_pattern(&pattern[..n], s)
}

// The digits of the fraction as nanoseconds.
fn fraction_of(s: &[u8]) -> u32
    requires { (15 ≤ length s.now) × (length s.now ≤ 18) }
    ensures { result ≡ fraction_of s.now }
{
    let n = patterns::digits_at(s, 9, s.len());
    n * 10_u32.pow((18 - s.len()) as u32)
}

#[tactic(auto, unfolding(crate::specs::Times::time_of))]
fn time_of(s: &[u8]) -> Time
    requires { (15 ≤ length s.now) × (length s.now ≤ 18) }
    ensures { result ≡ time_of s.now }
{
    Time {
        hour: patterns::digits_at(s, 0, 2),
        minute: patterns::digits_at(s, 3, 5),
        second: patterns::digits_at(s, 6, 8),
        nanosecond: fraction_of(s),
    }
}

// A field that has the form hh:mm:ss. and 6 to 9 digits.
#[tactic(auto, unfolding(crate::specs::Times::read_time))]
pub fn read_time(field: &[u8]) -> Result<Time, FieldError>
    ensures { result ≡ read_time field.now }
{
    if !time_form(field) {
        return Err(FieldError::Form);
    }
    let time = time_of(field);
    if valid_time(time) {
        Ok(time)
    } else {
        Err(FieldError::Range)
    }
}

// Whether this is a time of zeros.
#[tactic(auto, unfolding(crate::specs::Times::is_zero_time))]
pub fn is_zero_time(time: Time) -> bool
    ensures { result ≡ is_zero_time time }
{
    time.hour == 0 && time.minute == 0 && time.second == 0 && time.nanosecond == 0
}

// The whole seconds of the day that are gone.
#[tactic(auto, unfolding(crate::specs::Times::second_of_day))]
pub fn second_of_day(time: Time) -> u32
    requires { valid_time time ≡ true }
    ensures { result ≡ second_of_day time }
{
    3600 * time.hour + 60 * time.minute + time.second
}
