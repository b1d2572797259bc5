// The bytes of a row of any kind: how many, and written.
// Each function gives exactly what the definition of its name says; law `length-bytes` says that the length is that of the bytes.
#![tactic(auto)]

ghost use Rattle.std.specs.Prelude.{◌≡◌, ◌≤◌, length};
ghost use Rattle.model.specs.Layouts.{Sized};
ghost use Rattle.model.specs.Rows.{misfit};
ghost use Rattle.row_bytes.specs.Rows.{bytes_of};
ghost use Rattle.row_bytes.specs.Inner.{length_of, length_by};

use model::{Kind, Layout, Row};

// How many bytes row n takes.
#[tactic(auto, unfolding(crate::specs::Inner::length_of))]
pub fn row_length(layout: Layout, n: u32, row: Row) -> usize
    requires { Sized layout }
    ensures { result ≡ length_of layout n row }
{
    let kind = layout.kind;
    match kind {
        Kind::Ascii => ascii_plain::text_length(layout, n, row),
        Kind::Binary | Kind::Binary32 => binary_row::row_size(layout),
    }
}

// How many bytes row n takes with this timestamp and these samples.
pub fn length_by(layout: Layout, n: u32, time: u32, samples: &[i32]) -> usize
    requires { (Sized layout) × (96 ≤ length samples.now) }
    ensures { (result ≡ length_by layout n time samples.now) × (result ≤ 2048) }
{
    let kind = layout.kind;
    match kind {
        Kind::Ascii => ascii_plain::length_by(layout, n, time, samples),
        Kind::Binary | Kind::Binary32 => binary_row::row_size(layout),
    }
}

// The bytes of row n fill the slice.
#[tactic(auto, unfolding(crate::specs::Inner::length_of, crate::specs::Rows::bytes_of))]
pub fn put_row(layout: Layout, n: u32, row: Row, d: &mut [u8])
    requires { (Sized layout) × (length d.old ≡ length_of layout n row) × (misfit layout row.samples ≡ layout.analogs) }
    ensures { d.new ≡ bytes_of layout n row }
{
    let kind = layout.kind;
    match kind {
        Kind::Ascii => {
            ascii_plain::put_text(layout, n, row, d);
        }
        Kind::Binary | Kind::Binary32 => {
            binary_bytes::put_row(layout, n, row, d);
        }
    }
}
