// The lines of a configuration that speak of no channel, each by itself: how many fields it has, and what each field must say.
// Each reader answers for any bytes: the line's values, or the number and field of its first refusal.
#![tactic(auto)]

ghost use Rattle.std.specs.Prelude.{◌≡◌, Ok, Some};
ghost use Rattle.ground.specs.Said.{answer_of};
ghost use Rattle.fields.specs.Fields.{read_year};
ghost use Rattle.clock.specs.Times.{read_time};
ghost use Rattle.config_lines.specs.Lines.{year_at, none_said, stamp_said, code_at, local_at};
ghost use Rattle.config_lines.specs.Lines.{station_line, frequency_line, rates_line, rate_line, date_line, kind_line, multiplier_line, codes_line, quality_line};

use clock::{Date, Moment};
use codes::Code;
use line_fields::{
    Fault, above_fault, at, fine_at, frequency_fault, has_fields, rate_fault, text_fault, value_at,
};
use model::{Edition, Kind, Reason};
use numerals::FieldError;

// The edition of the year in field 3.
fn with_year(field: &[u8]) -> Result<Edition, Fault>
    ensures { result ≡ answer_of (year_at 3 (read_year field.now)) }
{
    let year = fields::read_year(field).ok_or(at(Reason::Form, 3))?;
    Edition::of(year).ok_or(at(Reason::Year, 3))
}

// Station, device, year.
#[tactic(auto, unfolding(crate::specs::Lines::station_line))]
pub fn station_line(line: &[u8]) -> Result<Edition, Fault>
    ensures { result ≡ answer_of (station_line line.now) }
{
    has_fields(line, 3)?;
    fine_at(1, text_fault(text::field_at(line, 1), 0, 64))?;
    fine_at(2, text_fault(text::field_at(line, 2), 0, 64))?;
    with_year(text::field_at(line, 3))
}

// The line frequency.
#[tactic(auto, unfolding(crate::specs::Lines::frequency_line))]
pub fn frequency_line(line: &[u8]) -> Result<(), Fault>
    ensures { result ≡ answer_of (frequency_line line.now) }
{
    has_fields(line, 1)?;
    fine_at(1, frequency_fault(text::field_at(line, 1)))
}

// The number of rates.
#[tactic(auto, unfolding(crate::specs::Lines::rates_line))]
pub fn rates_line(line: &[u8]) -> Result<u64, Fault>
    ensures { result ≡ answer_of (rates_line line.now) }
{
    has_fields(line, 1)?;
    value_at(1, fields::read_count_in(text::field_at(line, 1), 3, 0, 8))
}

// A rate and its last row.
#[tactic(auto, unfolding(crate::specs::Lines::rate_line))]
pub fn rate_line(line: &[u8], none: bool, before: u64) -> Result<u64, Fault>
    ensures { result ≡ answer_of (rate_line none before line.now) }
{
    has_fields(line, 2)?;
    fine_at(1, rate_fault(text::field_at(line, 1), none))?;
    let last = value_at(
        2,
        fields::read_count_in(text::field_at(line, 2), 10, 1, 1000000),
    )?;
    if last <= before {
        return Err(at(Reason::Disagrees, 2));
    }
    Ok(last)
}

// A date and the time in a field.
fn with_time(date: Date, field: &[u8]) -> Result<Option<Moment>, Fault>
    ensures { result ≡ answer_of (stamp_said (Ok (Some date)) (read_time field.now)) }
{
    let time = value_at(2, clock::read_time(field))?;
    Ok(Some(Moment {
        date: date,
        time: time,
    }))
}

// A date of zeros and the time in a field, which must be zeros too: all is told at the date.
fn none_said(field: &[u8]) -> Result<Option<Moment>, Fault>
    ensures { result ≡ answer_of (none_said (read_time field.now)) }
{
    let Ok(time) = clock::read_time(field) else {
        return Err(at(Reason::NotAllowed, 1));
    };
    if !clock::is_zero_time(time) {
        return Err(at(Reason::NotAllowed, 1));
    }
    Ok(None)
}

// A date and a time, or no date.
#[tactic(auto, unfolding(crate::specs::Lines::date_line))]
pub fn date_line(line: &[u8]) -> Result<Option<Moment>, Fault>
    ensures { result ≡ answer_of (date_line line.now) }
{
    has_fields(line, 2)?;
    match value_at(1, clock::read_date(text::field_at(line, 1)))? {
        Some(date) => with_time(date, text::field_at(line, 2)),
        None => none_said(text::field_at(line, 2)),
    }
}

// The kind's word.
#[tactic(auto, unfolding(crate::specs::Lines::kind_line))]
pub fn kind_line(line: &[u8], edition: Edition) -> Result<Kind, Fault>
    ensures { result ≡ answer_of (kind_line edition line.now) }
{
    has_fields(line, 1)?;
    let kind = value_at(1, fields::read_kind(text::field_at(line, 1)))?;
    if !edition.has(kind) {
        return Err(at(Reason::NotAllowed, 1));
    }
    Ok(kind)
}

// The time multiplier.
#[tactic(auto, unfolding(crate::specs::Lines::multiplier_line))]
pub fn multiplier_line(line: &[u8]) -> Result<(), Fault>
    ensures { result ≡ answer_of (multiplier_line line.now) }
{
    has_fields(line, 1)?;
    fine_at(1, above_fault(text::field_at(line, 1)))
}

// The minutes of the time code in field 1.
fn code_at(read: Result<Code, FieldError>) -> Result<i64, Fault>
    ensures { result ≡ answer_of (code_at 1 read) }
{
    match value_at(1, read)? {
        Code::Minutes(minutes) => Ok(minutes),
        Code::X => Err(at(Reason::Form, 1)),
    }
}

// Whether the local code in field 2 is x, and its minutes.
fn local_at(read: Result<Code, FieldError>) -> Result<(bool, i64), Fault>
    ensures { result ≡ answer_of (local_at 2 read) }
{
    match value_at(2, read)? {
        Code::Minutes(minutes) => Ok((false, minutes)),
        Code::X => Ok((true, 0)),
    }
}

// The time code, whether the local code is x, and the local code.
#[tactic(auto, unfolding(crate::specs::Lines::codes_line))]
pub fn codes_line(line: &[u8]) -> Result<(i64, bool, i64), Fault>
    ensures { result ≡ answer_of (codes_line line.now) }
{
    has_fields(line, 2)?;
    let code = code_at(codes::read_code(text::field_at(line, 1)))?;
    let (x, local) = local_at(codes::read_local_code(text::field_at(line, 2)))?;
    Ok((code, x, local))
}

// Time quality and leap second code.
#[tactic(auto, unfolding(crate::specs::Lines::quality_line))]
pub fn quality_line(line: &[u8]) -> Result<(u64, u64), Fault>
    ensures { result ≡ answer_of (quality_line line.now) }
{
    has_fields(line, 2)?;
    let quality = value_at(1, fields::read_quality(text::field_at(line, 1)))?;
    let leap = value_at(2, fields::read_leap(text::field_at(line, 2)))?;
    Ok((quality, leap))
}
