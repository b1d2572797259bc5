// A walk over a data file of any kind, row by row: what stands at a row, and how many bytes it takes.
// Each function gives exactly what the definition of its name says; the laws of proofs/ say that the walk's verdict is the file's, and its rows the file's rows.
#![tactic(auto)]

ghost use Rattle.std.specs.Prelude.{◌≡◌, ◌≤◌, length};
ghost use Rattle.ground.specs.Said.{answer_of};
ghost use Rattle.model.specs.Layouts.{Sized};
ghost use Rattle.binary_row.specs.Rows.{row_size};
ghost use Rattle.rows.specs.Inner.{taken_here, binary_here, row_here, HasRow, fine_here, check_here, start_fine, end_fine};

use model::{Kind, Layout, Refusal, Row};

// How many bytes the row takes with which `rest` begins.
#[tactic(auto, unfolding(crate::specs::Inner::taken_here))]
pub fn taken_here(layout: Layout, rest: &[u8]) -> usize
    requires { Sized layout }
    ensures { result ≡ taken_here layout rest.now }
{
    let kind = layout.kind;
    match kind {
        Kind::Ascii => ascii_file::line_taken(rest),
        Kind::Binary | Kind::Binary32 => binary_row::row_size(layout),
    }
}

// The row of a binary kind with which `rest` begins.
fn binary_row_here(layout: Layout, rest: &[u8]) -> Row
    requires { (Sized layout) × (row_size layout ≤ length rest.now) }
    ensures { result ≡ binary_here layout rest.now }
{
    let size = binary_row::row_size(layout);
    binary_row::row_of(layout, &rest[..size])
}

// The row with which `rest` begins.
#[tactic(auto, unfolding(crate::specs::Inner::row_here))]
pub fn row_here(layout: Layout, rest: &[u8]) -> Row
    requires { (Sized layout) × (HasRow layout rest.now) }
    ensures { result ≡ row_here layout rest.now }
{
    let kind = layout.kind;
    match kind {
        Kind::Ascii => ascii_row::row_of(layout, ascii_file::first_line(rest)),
        Kind::Binary | Kind::Binary32 => binary_row_here(layout, rest),
    }
}

// The timestamp of the row of a binary kind with which `rest` begins.
fn binary_time_here(layout: Layout, rest: &[u8]) -> u32
    requires { (Sized layout) × (row_size layout ≤ length rest.now) }
    ensures { result ≡ (binary_here layout rest.now).time }
{
    let size = binary_row::row_size(layout);
    binary_row::row_time(&rest[..size])
}

// Its samples, and zeros.
fn binary_samples_here(layout: Layout, rest: &[u8]) -> [i32; 96]
    requires { (Sized layout) × (row_size layout ≤ length rest.now) }
    ensures { result ≡ (binary_here layout rest.now).samples }
{
    let size = binary_row::row_size(layout);
    binary_row::row_samples(layout, &rest[..size])
}

// The timestamp of the row with which `rest` begins.
#[tactic(auto, unfolding(crate::specs::Inner::row_here, ascii_row::specs::Rows::row_of))]
pub fn time_here(layout: Layout, rest: &[u8]) -> u32
    requires { (Sized layout) × (HasRow layout rest.now) }
    ensures { result ≡ (row_here layout rest.now).time }
{
    let kind = layout.kind;
    match kind {
        Kind::Ascii => ascii_row::line_time(ascii_file::first_line(rest)),
        Kind::Binary | Kind::Binary32 => binary_time_here(layout, rest),
    }
}

// The samples of the row with which `rest` begins, and zeros.
#[tactic(auto, unfolding(crate::specs::Inner::row_here, ascii_row::specs::Rows::row_of))]
pub fn samples_here(layout: Layout, rest: &[u8]) -> [i32; 96]
    requires { (Sized layout) × (HasRow layout rest.now) }
    ensures { result ≡ (row_here layout rest.now).samples }
{
    let kind = layout.kind;
    match kind {
        Kind::Ascii => ascii_row::line_samples(layout, ascii_file::first_line(rest)),
        Kind::Binary | Kind::Binary32 => binary_samples_here(layout, rest),
    }
}

// Row n of a binary kind, with which `rest` begins: its number, then its padding.
fn check_binary_here(layout: Layout, n: u32, rest: &[u8]) -> Result<usize, Refusal>
    requires { (Sized layout) × (row_size layout ≤ length rest.now) }
    ensures { result ≡ answer_of (fine_here layout n rest.now) }
{
    let size = binary_row::row_size(layout);
    binary_row::check_row(layout, n, &rest[..size])?;
    Ok(size)
}

// Row n, with which `rest` begins: how many bytes it takes, or why it is refused.
#[tactic(auto, unfolding(crate::specs::Inner::check_here))]
pub fn check_here(layout: Layout, n: u32, rest: &[u8]) -> Result<usize, Refusal>
    requires { (Sized layout) × (HasRow layout rest.now) }
    ensures { result ≡ answer_of (check_here layout n rest.now) }
{
    let kind = layout.kind;
    match kind {
        Kind::Ascii => ascii_file::take_row(layout, n, rest),
        Kind::Binary | Kind::Binary32 => check_binary_here(layout, n, rest),
    }
}

// Whether a file has the length that its kind asks for.
#[tactic(auto, unfolding(crate::specs::Inner::start_fine))]
pub fn start_fine(layout: Layout, data: &[u8]) -> Result<(), Refusal>
    requires { Sized layout }
    ensures { result ≡ answer_of (start_fine layout «data».now) }
{
    let kind = layout.kind;
    match kind {
        Kind::Ascii => Ok(()),
        Kind::Binary | Kind::Binary32 => binary_file::check_length(layout, data),
    }
}

// Whether this may follow the last row, where row n would stand.
#[tactic(auto, unfolding(crate::specs::Inner::end_fine))]
pub fn end_fine(layout: Layout, n: u32, rest: &[u8]) -> Result<(), Refusal>
    ensures { result ≡ answer_of (end_fine layout n rest.now) }
{
    let kind = layout.kind;
    match kind {
        Kind::Ascii => ascii_file::check_end(n, rest),
        Kind::Binary | Kind::Binary32 => Ok(()),
    }
}
