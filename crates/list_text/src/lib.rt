// The listing of a recording: the text that says what a configuration and a data file hold, or why one of them is refused.
// put_listing answers for any two files, and puts just the text that the definition `listing` gives in front of its room; what stands past it stays.
// The data file is checked once, and each row is read from its place.
#![tactic(auto)]

ghost use Rattle.std.specs.Prelude.{◌≡◌, ◌+◌, ◌*◌, ◌≤◌, length};
ghost use Rattle.ground.specs.Said.{says};
ghost use Rattle.model.specs.Layouts.{Sized};
ghost use Rattle.data.specs.Files.{file_fine};
ghost use Rattle.rows.specs.Inner.{row_here, HasRow};
ghost use Rattle.list_lines.specs.Lines.{row_line};
ghost use Rattle.pieces.specs.Inner.{Put};
ghost use Rattle.list_lines.specs.Inner.{line_most};
ghost use Rattle.list_text.specs.Listing.{rows_text, data_listing, listing, listed_to};

use model::Layout;

// Room for the text of any two files.
pub const ROOM: usize = 1048640;

// The most bytes of a data file that is listed.
const LARGEST: usize = 65536;

// The line of row n, with which `rest` begins.
fn put_row_here(out: &mut [u8], at: usize, layout: Layout, n: u32, rest: &[u8]) -> usize
    requires { (Sized layout) × (HasRow layout rest.now) × (at + line_most layout ≤ length out.old) }
    ensures put { Put out.old at (row_line layout n (row_here layout rest.now)) out.new result }
    ensures upper_bound { result ≤ at + line_most layout }
{
    let row = rows::row_here(layout, rest);
    list_lines::put_row_line(out, at, layout, n, row)
}

// The lines of all rows of a file that was accepted.
fn put_rows(out: &mut [u8], n: usize, layout: Layout, dat: &[u8]) -> usize
    requires { (Sized layout) × (file_fine layout dat.now ≡ says tt) × (n + 16 * length dat.now ≤ length out.old) }
    ensures { Put out.old n (rows_text layout dat.now layout.rows) out.new result }
{
    let rows = layout.rows;
    let mut at = 0;
    let mut to = n;
    for i in 1..=rows {
        to = put_row_here(out, to, layout, i, &dat[at..]);
        at += rows::taken_here(layout, &dat[at..]);
    }
    to
}

// What is said of a data file, with the layout that an accepted configuration gives.
fn put_data_listing(out: &mut [u8], layout: Layout, dat: &[u8]) -> usize
    requires { (Sized layout) × (1048640 ≤ length out.old) }
    ensures { Put out.old 0 (data_listing layout dat.now) out.new result }
{
    if LARGEST < dat.len() {
        return pieces::put_all(out, 0, b"no dat size\n");
    }
    match data::check(layout, dat) {
        Ok(()) => {
            let n = list_lines::put_head_line(out, layout);
            put_rows(out, n, layout, dat)
        }
        Err(refusal) => list_lines::put_refusal_line(out, b"no dat ", refusal),
    }
}

// The listing of a recording is put, and how many bytes it has is told.
pub fn put_listing(cfg: &[u8], dat: &[u8], out: &mut [u8; ROOM]) -> usize
    ensures { (result ≡ length (listing cfg.now dat.now)) × (out.new ≡ listed_to cfg.now dat.now out.old) × (result ≤ length out.new) }
{
    match config::read_config(cfg) {
        Ok(config) => put_data_listing(out, config.layout, dat),
        Err(refusal) => list_lines::put_refusal_line(out, b"no cfg ", refusal),
    }
}
