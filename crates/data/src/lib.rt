// Data files of every kind: check, show a row, write a row.
// Each call gives, on any input, exactly what the definition of its name says, and a refusal changes no byte; the laws of proofs/ say that a file of written rows is accepted and shows them.
#![tactic(auto)]

ghost use Rattle.std.specs.Prelude.{◌≡◌, ◌<◌, length};
ghost use Rattle.ground.specs.Said.{over};
ghost use Rattle.model.specs.Layouts.{Sized};
ghost use Rattle.model.specs.Refusals.{written_of};
ghost use Rattle.binary_file.specs.Files.{check_binary, binary_row};
ghost use Rattle.ascii_file.specs.Files.{check_text, text_row};
ghost use Rattle.data.specs.Files.{has_row, check_file, show_row, write_said};
ghost use Rattle.data.specs.Inner.{shown};

use model::{Kind, Layout, Reason, Refusal, Row};

// Whether there is a row n.
#[tactic(auto, unfolding(crate::specs::Files::has_row))]
pub fn has_row(layout: Layout, n: u32) -> bool
    ensures { result ≡ has_row layout n }
{
    (1..=layout.rows).contains(&n)
}

// Whether a data file is accepted, or the first refusal.
#[tactic(auto, unfolding(crate::specs::Files::check_file, crate::specs::Files::file_fine))]
pub fn check(layout: Layout, data: &[u8]) -> Result<(), Refusal>
    ensures { result ≡ check_file layout «data».now }
{
    if !layout.is_sized() {
        return Err(model::refused(Reason::Sizes, 0, 0));
    }
    let kind = layout.kind;
    match kind {
        Kind::Ascii => ascii_file::check_text(layout, data),
        Kind::Binary | Kind::Binary32 => binary_file::check_binary(layout, data),
    }
}

// Row i of a file of text, counted from 0.
fn show_text(layout: Layout, data: &[u8], i: u32) -> Result<Row, Refusal>
    requires { (Sized layout) × (i < layout.rows) }
    ensures { result ≡ shown (check_text layout «data».now) (text_row layout i «data».now) }
{
    ascii_file::check_text(layout, data)?;
    Ok(ascii_file::row_at(layout, data, i))
}

// Row i of a file of the binary kinds, counted from 0.
fn show_binary(layout: Layout, data: &[u8], i: u32) -> Result<Row, Refusal>
    requires { (Sized layout) × (i < layout.rows) }
    ensures { result ≡ shown (check_binary layout «data».now) (binary_row layout i «data».now) }
{
    binary_file::check_binary(layout, data)?;
    Ok(binary_file::row_at(layout, data, i))
}

// Row n of a data file, or the first refusal.
#[tactic(auto, unfolding(crate::specs::Files::show_row, crate::specs::Files::file_fine, crate::specs::Files::row_at))]
pub fn show_row(layout: Layout, data: &[u8], n: u32) -> Result<Row, Refusal>
    ensures { result ≡ show_row layout «data».now n }
{
    if !layout.is_sized() {
        return Err(model::refused(Reason::Sizes, 0, 0));
    }
    if !has_row(layout, n) {
        return Err(model::refused(Reason::NoSuchRow, 0, 0));
    }
    let kind = layout.kind;
    match kind {
        Kind::Ascii => show_text(layout, data, n - 1),
        Kind::Binary | Kind::Binary32 => show_binary(layout, data, n - 1),
    }
}

// How many bytes row n takes, or why it is not written where there is room for so many.
#[tactic(auto, unfolding(crate::specs::Files::write_said, crate::specs::Files::misfit_of))]
fn may_write(layout: Layout, n: u32, row: Row, room: usize) -> Result<usize, Refusal>
    ensures { result ≡ written_of (write_said layout n row room) }
{
    if !layout.is_sized() {
        return Err(model::refused(Reason::Sizes, 0, 0));
    }
    if !has_row(layout, n) {
        return Err(model::refused(Reason::NoSuchRow, 0, 0));
    }
    let a = layout.analogs as usize;
    let samples = row.samples;
    let bad = model::first_misfit(layout, samples);
    let field = 3 + bad as u32;
    let size = row_bytes::row_length(layout, n, row);
    if bad != a {
        return Err(model::refused(Reason::DoesNotFit, n, field));
    }
    if room < size {
        return Err(model::refused(Reason::NoRoom, 0, 0));
    }
    Ok(size)
}

// Row n is written at the front of `out`, or nothing is.
#[tactic(auto, unfolding(crate::specs::Files::misfit_of))]
pub fn write_row(layout: Layout, n: u32, row: Row, out: &mut [u8]) -> Result<usize, Refusal>
    ensures value { result ≡ written_of (write_said layout n row (length out.old)) }
    ensures out_after { out.new ≡ over (write_said layout n row (length out.old)) out.old }
{
    let room = out.len();
    let size = may_write(layout, n, row, room)?;
    row_bytes::put_row(layout, n, row, &mut out[..size]);
    Ok(size)
}
