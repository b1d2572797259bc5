// Rows of text: whether the line of a row is fine, and the row that it says.
// Each function gives, on any bytes, exactly what the definition of its name says; a line is walked a fixed number of times, whatever its number of fields.
#![tactic(auto)]

ghost use Rattle.std.specs.Prelude.{◌≡◌, true, false, List, [], ℕ, ◌+◌, ◌≤◌, ◌<◌, pos, length};
ghost use Rattle.ground.specs.Said.{answer_of};
ghost use Rattle.ground.specs.Tables.{tab, padded};
ghost use Rattle.text.specs.Fields.{field_at};
ghost use Rattle.numerals.specs.Wholes.{read_whole};
ghost use Rattle.model.specs.Layouts.{Sized};
ghost use Rattle.ascii_row.specs.Fields.{read_timestamp, read_sample, is_status, is_count, is_whole, time_in, sample_in, status_in};
ghost use Rattle.ascii_row.specs.Rows.{field_fine, check_fields, check_number, check_line, field_sample, field_status, row_of};

use model::{Layout, Reason, Refusal, Row};

// The highest timestamp, as counts are.
pub const LATEST: u64 = Row::LATEST as u64;

// The place of a missing sample, as whole numbers are.
const MISSING: i64 = Row::MISSING as i64;

// A timestamp.
#[tactic(auto, unfolding(crate::specs::Fields::read_timestamp))]
fn read_timestamp(field: &[u8]) -> Option<u64>
    ensures { result ≡ read_timestamp field.now }
{
    let v = numerals::read_count(field, 1, 13)?;
    if LATEST < v {
        return None;
    }
    Some(v)
}

// What an empty field says: a missing sample, but in no marked text.
#[tactic(auto, unfolding(crate::specs::Fields::read_sample, crate::specs::Fields::is_missing_field, numerals::specs::Wholes::read_whole, numerals::specs::Counts::length_in))]
fn empty_sample(layout: Layout) -> Option<i64>
    ensures { result ≡ read_sample layout [] }
{
    if layout.is_marked() {
        return None;
    }
    Some(MISSING)
}

// What a field says, by its number: a sample of the layout; or a missing one, where it is the mark of a marked text.
fn sample_said(layout: Layout, z: i64) -> Option<i64>
    ensures { (f : List ℕ) → read_whole f ≡ Some z → result ≡ read_sample layout f }
{
    if layout.holds(z) {
        return Some(z);
    }
    if !layout.is_marked() {
        return None;
    }
    if model::is_mark(z) {
        return Some(MISSING);
    }
    None
}

// A sample, whose number is read once; a missing one is an empty field, or in a marked text the mark.
fn read_sample(layout: Layout, field: &[u8]) -> Option<i64>
    ensures { result ≡ read_sample layout field.now }
{
    if field.len() == 0 {
        return empty_sample(layout);
    }
    let z = numerals::read_whole(field)?;
    sample_said(layout, z)
}

// Whether a field is a timestamp.
fn is_time(field: &[u8]) -> bool
    ensures { result ≡ is_count (read_timestamp field.now) }
{
    read_timestamp(field).is_some()
}

// Whether a field is a sample.
fn is_sample(layout: Layout, field: &[u8]) -> bool
    ensures { result ≡ is_whole (read_sample layout field.now) }
{
    read_sample(layout, field).is_some()
}

// Whether a field is a status.
#[tactic(auto, unfolding(crate::specs::Fields::is_status))]
fn is_status(field: &[u8]) -> bool
    ensures { result ≡ is_status field.now }
{
    matches!(field, [b'0' | b'1'])
}

// The timestamp of a field.
#[tactic(auto, unfolding(crate::specs::Fields::time_in))]
fn time_in(field: &[u8]) -> u32
    ensures { result ≡ time_in field.now }
{
    match read_timestamp(field) {
        Some(v) => v as u32,
        None => 0,
    }
}

// The sample of a field.
#[tactic(auto, unfolding(crate::specs::Fields::sample_in))]
fn sample_in(layout: Layout, field: &[u8]) -> i32
    ensures { result ≡ sample_in layout field.now }
{
    match read_sample(layout, field) {
        Some(z) => words::narrowed(z),
        None => 0,
    }
}

// The status of a field.
#[tactic(auto, unfolding(crate::specs::Fields::status_in))]
fn status_in(field: &[u8]) -> bool
    ensures { result ≡ status_in field.now }
{
    if field.len() == 0 {
        return false;
    }
    field[0] == 49
}

// Whether field k, from the second on, of a row is what stands there.
#[tactic(auto, unfolding(crate::specs::Rows::field_fine))]
fn field_fine(layout: Layout, k: usize, field: &[u8]) -> bool
    requires { Sized layout }
    ensures { result ≡ field_fine layout k field.now }
{
    let a = layout.analogs as usize;
    if k == 2 {
        return is_time(field);
    }
    if k <= 2 + a {
        return is_sample(layout, field);
    }
    is_status(field)
}

// The count fields of row n from the second on, with which `fields` begins: each is found where the one before it ends.
fn check_fields(layout: Layout, n: u32, fields: &[u8], count: usize) -> Result<(), Refusal>
    requires { (Sized layout) × (count ≤ 353) }
    ensures { result ≡ answer_of (check_fields layout n fields.now 2 count) }
{
    let mut t = fields;
    for k in 2..2 + count {
        let m = text::field_length(t);
        if !field_fine(layout, k, &t[..m]) {
            return Err(model::refused(Reason::BadText, n, k as u32));
        }
        let taken = text::with_comma(t, m);
        t = &t[taken..];
    }
    Ok(())
}

// The number of row n's line is n.
#[tactic(auto, unfolding(crate::specs::Rows::check_number))]
fn check_number(n: u32, line: &[u8]) -> Result<(), Refusal>
    ensures { result ≡ answer_of (check_number n line.now) }
{
    let v = numerals::read_count(text::field_at(line, 1), 1, 10).ok_or(model::refused(
        Reason::BadText,
        n,
        1,
    ))?;
    if v != n as u64 {
        return Err(model::refused(Reason::RowNumber, n, 1));
    }
    Ok(())
}

// Whether the line of row n is fine, or the first refusal.
#[tactic(auto, unfolding(crate::specs::Rows::check_line))]
pub fn check_line(layout: Layout, n: u32, line: &[u8]) -> Result<(), Refusal>
    requires { Sized layout }
    ensures { result ≡ answer_of (check_line layout n line.now) }
{
    let a = layout.analogs as usize;
    let d = layout.statuses as usize;
    if text::field_count(line) != 2 + a + d {
        return Err(model::refused(Reason::BadText, n, 0));
    }
    check_number(n, line)?;
    check_fields(layout, n, text::after_fields(line, 1), 1 + a + d)
}

// The samples of the fields fill the slice.
fn read_samples(layout: Layout, fields: &[u8], d: &mut [i32])
    ensures { d.new ≡ tab (field_sample layout fields.now) (length d.old) }
{
    let mut t = fields;
    for sample in d.iter_mut() {
        let m = text::field_length(t);
        *sample = sample_in(layout, &t[..m]);
        let taken = text::with_comma(t, m);
        t = &t[taken..];
    }
}

// The statuses of the fields fill the slice.
fn read_statuses(fields: &[u8], d: &mut [bool])
    ensures { d.new ≡ tab (field_status fields.now) (length d.old) }
{
    let mut t = fields;
    for status in d.iter_mut() {
        let m = text::field_length(t);
        *status = status_in(&t[..m]);
        let taken = text::with_comma(t, m);
        t = &t[taken..];
    }
}

// The d statuses of the fields, and zeros.
fn statuses_of(fields: &[u8], d: usize) -> [bool; 256]
    requires { d ≤ 256 }
    ensures { result ≡ padded (field_status fields.now) d 256 false }
{
    let mut out = [false; 256];
    read_statuses(fields, &mut out[..d]);
    out
}

// The timestamp of a line.
pub fn line_time(line: &[u8]) -> u32
    ensures { result ≡ time_in (field_at 2 line.now) }
{
    time_in(text::field_at(line, 2))
}

// The samples of a line, and zeros.
#[tactic(auto, unfolding(crate::specs::Rows::row_of))]
pub fn line_samples(layout: Layout, line: &[u8]) -> [i32; 96]
    requires { Sized layout }
    ensures { result ≡ (row_of layout line.now).samples }
{
    let a = layout.analogs as usize;
    let fields = text::after_fields(line, 2);
    let mut out = [0i32; 96];
    read_samples(layout, fields, &mut out[..a]);
    out
}

// The row that a line says.
#[tactic(auto, unfolding(crate::specs::Rows::row_of))]
pub fn row_of(layout: Layout, line: &[u8]) -> Row
    requires { Sized layout }
    ensures { result ≡ row_of layout line.now }
{
    let a = layout.analogs as usize;
    let d = layout.statuses as usize;
    let time = line_time(line);
    let samples = line_samples(layout, line);
    let statuses = statuses_of(text::after_fields(line, 2 + a), d);
    Row {
        time: time,
        samples: samples,
        statuses: statuses,
    }
}
