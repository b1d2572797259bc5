// Dates of the calendar, and their days counted.
ghost use Rattle.std.specs.Prelude.{◌≡◌, true, ◌≤◌, length};
ghost use Rattle.clock.specs.Dates.{leap_year, short_month, month_days, valid_date, date_of, is_zero_date, read_date, days_of_years, days_of_months, day_number};

use crate::Date;
use numerals::FieldError;

#[tactic(auto, unfolding(crate::specs::Dates::leap_year))]
fn leap_year(year: u32) -> bool
    ensures { result ≡ leap_year year }
{
    year % 400 == 0 || (year % 100 != 0 && year % 4 == 0)
}

#[tactic(auto, unfolding(crate::specs::Dates::short_month))]
fn short_month(month: u32) -> bool
    ensures { result ≡ short_month month }
{
    matches!(month, 4 | 6 | 9 | 11)
}

#[tactic(auto, unfolding(crate::specs::Dates::month_days))]
fn month_days(year: u32, month: u32) -> u32
    ensures { result ≡ month_days year month }
{
    if month == 2 {
        return if leap_year(year) { 29 } else { 28 };
    }
    if short_month(month) { 30 } else { 31 }
}

// Whether this is a day of the calendar in the years 1900 to 9999.
#[tactic(auto, unfolding(crate::specs::Dates::valid_date))]
pub fn valid_date(date: Date) -> bool
    ensures { result ≡ valid_date date }
{
    patterns::between(1900, 9999, date.year)
        && patterns::between(1, 12, date.month)
        && patterns::between(1, month_days(date.year, date.month), date.day)
}

#[tactic(auto, unfolding(crate::specs::Dates::date_of))]
fn date_of(s: &[u8]) -> Date
    requires { length s.now ≡ 10 }
    ensures { result ≡ date_of s.now }
{
    Date {
        day: patterns::digits_at(s, 0, 2),
        month: patterns::digits_at(s, 3, 5),
        year: patterns::digits_at(s, 6, 10),
    }
}

// Whether this is the date of zeros.
#[tactic(auto, unfolding(crate::specs::Dates::is_zero_date))]
fn is_zero_date(date: Date) -> bool
    ensures { result ≡ is_zero_date date }
{
    date.day == 0 && date.month == 0 && date.year == 0
}

// A field as a date: no date where it is 00/00/0000.
#[tactic(auto, unfolding(crate::specs::Dates::read_date))]
pub fn read_date(field: &[u8]) -> Result<Option<Date>, FieldError>
    ensures { result ≡ read_date field.now }
{
    if !patterns::fits_pattern(b"dd/dd/dddd", field) {
        return Err(FieldError::Form);
    }
    let date = date_of(field);
    if is_zero_date(date) {
        return Ok(None);
    }
    if valid_date(date) {
        Ok(Some(date))
    } else {
        Err(FieldError::Range)
    }
}

// The days of the first `years` years.
#[tactic(auto, unfolding(crate::specs::Dates::days_of_years))]
fn days_of_years(years: u32) -> u32
    requires { years ≤ 9999 }
    ensures { result ≡ days_of_years years }
{
    365 * years + years / 4 - years / 100 + years / 400
}

// The days of the first `months` months of a year.
fn days_of_months(year: u32, months: u32) -> u32
    requires { months ≤ 12 }
    ensures { result ≡ days_of_months year months }
{
    let mut days = 0;
    for m in 1..=months {
        days += month_days(year, m);
    }
    days
}

// The number of the day.
#[tactic(auto, unfolding(crate::specs::Dates::day_number))]
pub fn day_number(date: Date) -> i64
    requires { valid_date date ≡ true }
    ensures { result ≡ day_number date }
{
    let years = days_of_years(date.year - 1);
    let months = days_of_months(date.year, date.month - 1);
    words::plus((years + months + date.day) as u64)
}
