// Files of the two binary kinds: the length, then the check row by row, and the row at a place.
// Each function gives exactly what the definition of its name says; the laws of proofs/ say that a file of written rows is accepted and shows them, and that an accepted file is the file of its rows.
#![tactic(auto)]

ghost use Rattle.std.specs.Prelude.{◌≡◌, ◌*◌, ◌<◌, length};
ghost use Rattle.ground.specs.Said.{answer_of};
ghost use Rattle.model.specs.Layouts.{Sized};
ghost use Rattle.binary_row.specs.Rows.{row_size};
ghost use Rattle.binary_file.specs.Files.{check_rows, check_length, check_binary, binary_row};

use model::{Layout, Reason, Refusal, Row};

// The rows of a file, each at its place.
fn check_rows(layout: Layout, data: &[u8]) -> Result<(), Refusal>
    requires { (Sized layout) × (length «data».now ≡ layout.rows * row_size layout) }
    ensures { result ≡ answer_of (check_rows layout «data».now 0 layout.rows) }
{
    let size = binary_row::row_size(layout);
    let rows = layout.rows;
    for i in 0..rows {
        let from = i as usize * size;
        let to = from + size;
        binary_row::check_row(layout, i + 1, &data[from..to])?;
    }
    Ok(())
}

// The length of a file of the binary kinds.
pub fn check_length(layout: Layout, data: &[u8]) -> Result<(), Refusal>
    requires { Sized layout }
    ensures { result ≡ answer_of (check_length layout «data».now) }
{
    let rows = layout.rows as usize;
    if data.len() != rows * binary_row::row_size(layout) {
        return Err(model::refused(Reason::FileLength, 0, 0));
    }
    Ok(())
}

// A file of the binary kinds: its length, then its rows.
#[tactic(auto, unfolding(crate::specs::Files::check_binary))]
pub fn check_binary(layout: Layout, data: &[u8]) -> Result<(), Refusal>
    requires { Sized layout }
    ensures { result ≡ answer_of (check_binary layout «data».now) }
{
    check_length(layout, data)?;
    check_rows(layout, data)
}

// Row i of a file that was accepted, counted from 0.
#[tactic(auto, unfolding(crate::specs::Files::binary_row))]
pub fn row_at(layout: Layout, data: &[u8], i: u32) -> Row
    requires { (Sized layout) × (length «data».now ≡ layout.rows * row_size layout) × (i < layout.rows) }
    ensures { result ≡ binary_row layout i «data».now }
{
    let size = binary_row::row_size(layout);
    let from = i as usize * size;
    let to = from + size;
    binary_row::row_of(layout, &data[from..to])
}
