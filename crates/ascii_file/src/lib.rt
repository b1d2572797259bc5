// Files of text: the check row by row and of what follows the last, and the row at a place.
// Each function gives, on any bytes, exactly what the definition of its name says; no more than one row is held at a time.
#![tactic(auto)]

ghost use Rattle.std.specs.Prelude.{◌≡◌};
ghost use Rattle.ground.specs.Said.{answer_of};
ghost use Rattle.model.specs.Layouts.{Sized};
ghost use Rattle.ascii_file.specs.Files.{scan_row, take_row, is_ending, check_end, check_text, line_taken, first_line, after_rows, text_row};

use model::{Layout, Reason, Refusal, Row};
use text::LineError;

// The most bytes of a row before its line end.
const LONGEST: usize = 1880;

// Row n, with which `rest` begins, in the order of the rules: its line, then the fields of its line.
#[tactic(auto, unfolding(crate::specs::Files::take_row))]
fn check_in_order(layout: Layout, n: u32, rest: &[u8]) -> Result<usize, Refusal>
    requires { Sized layout }
    ensures { result ≡ answer_of (take_row layout n rest.now) }
{
    match text::scan_line(rest, LONGEST) {
        Ok(line) => {
            ascii_row::check_line(layout, n, &rest[..line.len])?;
            Ok(line.taken)
        }
        Err(LineError::Ends) => Err(model::refused(Reason::FileLength, n, 0)),
        Err(LineError::Bad) => Err(model::refused(Reason::BadText, n, 0)),
    }
}

// Row n, with which `rest` begins: read through in one walk, and only where that does not say yes, in the order of the rules.
pub fn take_row(layout: Layout, n: u32, rest: &[u8]) -> Result<usize, Refusal>
    requires { Sized layout }
    ensures { result ≡ answer_of (take_row layout n rest.now) }
{
    match ascii_walk::row_end(layout, n, rest) {
        Some(taken) => Ok(taken),
        None => check_in_order(layout, n, rest),
    }
}

// Whether this may follow the last row.
#[tactic(auto, unfolding(crate::specs::Files::is_ending))]
fn is_ending(s: &[u8]) -> bool
    ensures { result ≡ is_ending s.now }
{
    matches!(s, [] | [26] | [26, b'\r', b'\n'])
}

// What follows the last row, where row n would stand.
pub fn check_end(n: u32, rest: &[u8]) -> Result<(), Refusal>
    ensures { result ≡ answer_of (check_end n rest.now) }
{
    if !is_ending(rest) {
        return Err(model::refused(Reason::FileLength, n, 0));
    }
    Ok(())
}

// The file: row by row, then its end.
pub fn check_text(layout: Layout, data: &[u8]) -> Result<(), Refusal>
    requires { Sized layout }
    ensures { result ≡ answer_of (check_text layout «data».now) }
{
    let rows = layout.rows;
    let mut t = data;
    for i in 0..rows {
        let taken = take_row(layout, i + 1, t)?;
        t = &t[taken..];
    }
    check_end(rows + 1, t)
}

// How many bytes the line that `rest` begins with takes, none where there is no line.
pub fn line_taken(rest: &[u8]) -> usize
    ensures { result ≡ line_taken (scan_row rest.now) }
{
    match text::scan_line(rest, LONGEST) {
        Ok(line) => line.taken,
        Err(_) => 0,
    }
}

// The line that `rest` begins with.
#[tactic(auto, unfolding(crate::specs::Files::first_line))]
pub fn first_line<'a>(rest: &'a [u8]) -> &'a [u8]
    ensures { result.now ≡ first_line rest.now }
{
    match text::scan_line(rest, LONGEST) {
        Ok(line) => &rest[..line.len],
        Err(_) => &rest[..0],
    }
}

// What follows the first i rows.
fn after_rows<'a>(data: &'a [u8], i: u32) -> &'a [u8]
    ensures { result.now ≡ after_rows i «data».now }
{
    let mut t = data;
    for _ in 0..i {
        let m = line_taken(t);
        t = &t[m..];
    }
    t
}

// Row i of a text, counted from 0.
#[tactic(auto, unfolding(crate::specs::Files::text_row))]
pub fn row_at(layout: Layout, data: &[u8], i: u32) -> Row
    requires { Sized layout }
    ensures { result ≡ text_row layout i «data».now }
{
    ascii_row::row_of(layout, first_line(after_rows(data, i)))
}
