// The length question: how many bytes a change of kind needs, or the first refusal.
// A change is the new kind's writing of the rows that the old kind's reading gives; all that may refuse it, but for the room, is decided here in one walk.
#![tactic(auto)]

ghost use Rattle.std.specs.Prelude.{◌≡◌, true, ◌+◌, ◌*◌, ◌≤◌, length};
ghost use Rattle.ground.specs.Said.{says, ◌>>◌, answer_of};
ghost use Rattle.model.specs.declared.Kind.TheVariants.{Ascii};
ghost use Rattle.model.specs.Layouts.{Sized, in_kind};
ghost use Rattle.model.specs.Refusals.{FewBytes};
ghost use Rattle.binary_file.specs.Files.{check_binary};
ghost use Rattle.data.specs.Files.{row_at, end_mark};
ghost use Rattle.rows.specs.Inner.{HasRow, row_here, start_fine, walk_fine};
ghost use Rattle.change_length.specs.Needed.{bytes_needed};
ghost use Rattle.change_length.specs.Inner.{no_tally, tallied, row_misfit, weigh, tally_of, weighed_of, Short, settle, decided, both_binary, settle_binary};

use model::{Kind, Layout, Reason, Refusal};

// A sample that does not fit: its row, and its field there.
#[derive(Clone, Copy)]
pub struct Misfit {
    pub at: u32,
    pub field: u32,
}

// The first misfit, and the length of the rows.
#[derive(Clone, Copy)]
pub struct Tally {
    pub misfit: Option<Misfit>,
    pub length: usize,
}

// Whether both kinds are binary.
pub fn both_binary(old: Kind, new: Kind) -> bool
    ensures { result ≡ both_binary old new }
{
    !matches!(old, Kind::Ascii) && !matches!(new, Kind::Ascii)
}

// Nothing looked at.
fn no_tally() -> Tally
    ensures { result ≡ no_tally }
{
    Tally {
        misfit: None,
        length: 0,
    }
}

// The misfit of row n, of whose a samples the first that does not fit is known.
fn row_misfit(n: u32, bad: u32, a: u32) -> Option<Misfit>
    requires { bad ≤ 96 }
    ensures { result ≡ row_misfit n bad a }
{
    if bad == a {
        return None;
    }
    Some(Misfit {
        at: n,
        field: 3 + bad,
    })
}

// The tally with one row more, of which the first misfit among a samples and the length are known.
#[tactic(auto, unfolding(crate::specs::Inner::tallied))]
fn tallied(tally: Tally, n: u32, bad: u32, a: u32, length: usize) -> Tally
    requires { bad ≤ 96 }
    ensures { result ≡ tallied tally n bad a length }
{
    Tally {
        misfit: tally.misfit.or(row_misfit(n, bad, a)),
        length,
    }
}

// The tally when row n, with which `rest` begins, was looked at too.
#[tactic(auto, unfolding(data::specs::Files::misfit_of, crate::specs::Inner::weigh))]
fn weigh(layout: Layout, kind: Kind, n: u32, rest: &[u8], tally: Tally) -> Tally
    requires { (Sized layout) × (HasRow layout rest.now) × (tally.length ≤ 2048 * 1000000) }
    ensures { (result ≡ weigh (in_kind kind layout) n (row_here layout rest.now) tally) × (result.length ≤ tally.length + 2048) }
{
    let new = layout.in_kind(kind);
    let a = layout.analogs;
    let samples = rows::samples_here(layout, rest);
    let time = rows::time_here(layout, rest);
    let bad = model::first_misfit(new, samples);
    let size = row_bytes::length_by(new, n, time, &samples);
    tallied(tally, n, bad as u32, a, tally.length + size)
}

// The tally of all rows of a file that may be walked, or the file's refusal.
fn weigh_rows(layout: Layout, kind: Kind, data: &[u8], start: Tally) -> Result<Tally, Refusal>
    requires { (Sized layout) × (start_fine layout «data».now ≡ says tt) × (start ≡ no_tally) }
    ensures { (result ≡ weighed_of (walk_fine layout «data».now 1 layout.rows) (tally_of (in_kind kind layout) (row_at layout «data».now) layout.rows)) × Short result }
{
    let rows = layout.rows;
    let mut t = data;
    let mut tally = start;
    for i in 0..rows {
        let n = i + 1;
        let taken = rows::check_here(layout, n, t)?;
        tally = weigh(layout, kind, n, t, tally);
        t = &t[taken..];
    }
    rows::end_fine(layout, rows + 1, t)?;
    Ok(tally)
}

// How many bytes the end mark of a layout's file takes.
#[tactic(auto, unfolding(data::specs::Files::end_mark))]
pub fn mark_length(layout: Layout) -> usize
    ensures { result ≡ length (end_mark layout) }
{
    match layout.kind {
        Kind::Ascii => 3,
        Kind::Binary | Kind::Binary32 => 0,
    }
}

// What a tally says of the new file.
#[tactic(auto, unfolding(crate::specs::Inner::settle))]
fn settle(new: Layout, tally: Tally) -> Result<usize, Refusal>
    requires { tally.length ≤ 2048 * 1000000 }
    ensures { (result ≡ answer_of (settle new tally)) × (FewBytes result) }
{
    if let Some(misfit) = tally.misfit {
        return Err(model::refused(Reason::DoesNotFit, misfit.at, misfit.field));
    }
    Ok(tally.length + mark_length(new))
}

// How many bytes the new file takes, or why there is none, where a text is read or written: row by row.
fn decide_by_rows(layout: Layout, data: &[u8], kind: Kind) -> Result<usize, Refusal>
    requires { Sized layout }
    ensures { (result ≡ answer_of (decided layout «data».now kind)) × (FewBytes result) }
{
    rows::start_fine(layout, data)?;
    let tally = weigh_rows(layout, kind, data, no_tally())?;
    settle(layout.in_kind(kind), tally)
}

// How many bytes an accepted file of a binary kind takes in another, or 16 where a row does not fit.
#[tactic(auto, unfolding(crate::specs::Inner::settle_binary))]
fn settle_binary(layout: Layout, data: &[u8], kind: Kind) -> Result<usize, Refusal>
    requires { (Sized layout) × (check_binary layout «data».now ≡ says tt) × (kind ≡ Ascii → ⊥) }
    ensures { (result ≡ answer_of (settle_binary layout «data».now kind)) × (FewBytes result) }
{
    recode::all_fit(layout, kind, data)?;
    let size = binary_row::row_size(layout.in_kind(kind));
    Ok(layout.rows as usize * size)
}

// How many bytes the new file takes, or why there is none, from one binary kind to another: no row is built. It stays a function of its own, so that the loop over the rows has all registers.
#[inline(never)]
fn decide_binary(layout: Layout, data: &[u8], kind: Kind) -> Result<usize, Refusal>
    requires { (Sized layout) × (both_binary layout.kind kind ≡ true) }
    ensures { (result ≡ answer_of (decided layout «data».now kind)) × (FewBytes result) }
{
    binary_file::check_binary(layout, data)?;
    settle_binary(layout, data, kind)
}

// How many bytes the new file takes, or why there is none.
fn decide(layout: Layout, data: &[u8], kind: Kind) -> Result<usize, Refusal>
    requires { Sized layout }
    ensures { (result ≡ answer_of (decided layout «data».now kind)) × (FewBytes result) }
{
    let old = layout.kind;
    if both_binary(old, kind) {
        return decide_binary(layout, data, kind);
    }
    decide_by_rows(layout, data, kind)
}

// How many bytes a change of kind needs, or the first refusal.
#[tactic(auto, unfolding(crate::specs::Needed::bytes_needed))]
pub fn bytes_needed(layout: Layout, data: &[u8], kind: Kind) -> Result<usize, Refusal>
    ensures { (result ≡ answer_of (bytes_needed layout «data».now kind)) × (FewBytes result) }
{
    if !layout.is_sized() {
        return Err(model::refused(Reason::Sizes, 0, 0));
    }
    let edition = layout.edition;
    if !edition.has(kind) {
        return Err(model::refused(Reason::Sizes, 0, 0));
    }
    decide(layout, data, kind)
}
