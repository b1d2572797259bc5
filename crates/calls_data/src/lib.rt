// The exported calls on a data file: zl_check, zl_row and zl_write_row.
// Each answers every combination of its arguments, and gives exactly what the definition of its name says; a refusal changes no lent place or byte.
#![tactic(auto)]

ghost use Rattle.std.specs.Prelude.{◌≡◌, length};
ghost use Rattle.ground.specs.Said.{over};
ghost use Rattle.model.specs.Layouts.{Sized};
ghost use Rattle.row_places.specs.Rows.{places_of, row_places};
ghost use Rattle.answers.specs.Answers.{told, told_written, told_shown, placed};
ghost use Rattle.calls_data.specs.Calls.{check_call, row_call, write_call};
ghost use Rattle.calls_data.specs.Inner.{row_in, write_in};

use answers::zl_answer;
use model::{Layout, Reason, Row};

// Whether a data file is accepted, or the first refusal.
#[tactic(auto, unfolding(crate::specs::Calls::check_call))]
pub fn check(a: u32, d: u32, rows: u32, kind: u32, edition: u32, data: &[u8]) -> zl_answer
    ensures { result ≡ told (check_call a d rows kind edition «data».now) }
{
    let Some(layout) = answers::layout_of(a, d, rows, kind, edition) else {
        return answers::no(model::refused(Reason::Sizes, 0, 0));
    };
    answers::plainly(data::check(layout, data))
}

// The places of a row, where there is room.
fn show_places(layout: Layout, row: Row, shown: &mut [i64]) -> zl_answer
    requires { Sized layout }
    ensures value { result ≡ told_shown (placed (places_of layout) (row_places layout row) (length shown.old)) }
    ensures shown_after { shown.new ≡ over (placed (places_of layout) (row_places layout row) (length shown.old)) shown.old }
{
    let count = row_places::places_of(layout);
    if shown.len() < count {
        return answers::no(model::refused(Reason::NoRoom, 0, 0));
    }
    row_places::put_row(layout, row, &mut shown[..count]);
    answers::yes(0)
}

// The places of row n in a layout.
fn row_in(layout: Layout, data: &[u8], n: u32, shown: &mut [i64]) -> zl_answer
    ensures value { result ≡ told_shown (row_in layout «data».now n (length shown.old)) }
    ensures shown_after { shown.new ≡ over (row_in layout «data».now n (length shown.old)) shown.old }
{
    match data::show_row(layout, data, n) {
        Ok(row) => show_places(layout, row, shown),
        Err(refusal) => answers::no(refusal),
    }
}

// Time, samples and statuses of row n, as 1 + A + D places, or the first refusal; no room last of all.
#[tactic(auto, unfolding(crate::specs::Calls::row_call, crate::specs::Inner::row_in))]
pub fn row(
    a: u32,
    d: u32,
    rows: u32,
    kind: u32,
    edition: u32,
    data: &[u8],
    n: u32,
    shown: &mut [i64],
) -> zl_answer
    ensures value { result ≡ told_shown (row_call a d rows kind edition «data».now n (length shown.old)) }
    ensures shown_after { shown.new ≡ over (row_call a d rows kind edition «data».now n (length shown.old)) shown.old }
{
    let Some(layout) = answers::layout_of(a, d, rows, kind, edition) else {
        return answers::no(model::refused(Reason::Sizes, 0, 0));
    };
    row_in(layout, data, n, shown)
}

// Row n of the places in a layout, written at the front of `out`, or nothing is.
fn write_in(layout: Layout, n: u32, zs: &[i64], out: &mut [u8]) -> zl_answer
    ensures value { result ≡ told_written (write_in layout n zs.now (length out.old)) }
    ensures out_after { out.new ≡ over (write_in layout n zs.now (length out.old)) out.old }
{
    if !layout.is_sized() {
        return answers::no(model::refused(Reason::Sizes, 0, 0));
    }
    let count = row_places::places_of(layout);
    if zs.len() < count {
        return answers::no(model::refused(Reason::Sizes, 0, 0));
    }
    if !data::has_row(layout, n) {
        return answers::no(model::refused(Reason::NoSuchRow, 0, 0));
    }
    let bad = row_places::first_unfit(layout, zs);
    if bad != count {
        return answers::no(model::refused(Reason::DoesNotFit, n, 2 + bad as u32));
    }
    answers::counted(data::write_row(layout, n, row_places::row_of_places(layout, zs), out))
}

// The places of row n, written at the front of `out` as bytes of the kind, or nothing is.
#[tactic(auto, unfolding(crate::specs::Calls::write_call, crate::specs::Inner::write_in))]
pub fn write_row(
    a: u32,
    d: u32,
    rows: u32,
    kind: u32,
    edition: u32,
    n: u32,
    row: &[i64],
    out: &mut [u8],
) -> zl_answer
    ensures value { result ≡ told_written (write_call a d rows kind edition n row.now (length out.old)) }
    ensures out_after { out.new ≡ over (write_call a d rows kind edition n row.now (length out.old)) out.old }
{
    let Some(layout) = answers::layout_of(a, d, rows, kind, edition) else {
        return answers::no(model::refused(Reason::Sizes, 0, 0));
    };
    write_in(layout, n, row, out)
}
