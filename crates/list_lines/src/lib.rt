// The lines of a listing: the first line, the line of a row, the line of a refusal, each put piece after piece.
// Each function puts its text after the first n bytes of its room, just as the definition of specs/ has it, and tells where it ends; what follows stays.
// A row's channels are asked for by numbers of their own sort.
#![tactic(auto)]

ghost use Rattle.std.specs.Prelude.{◌≡◌, ◌∷◌, ◌+◌, ◌*◌, ◌≤◌, length};
ghost use Rattle.numerals.specs.Decimals.{decimal, plain};
ghost use Rattle.model.specs.Layouts.{Sized};
ghost use Rattle.model.specs.Rows.{status_at, status_value};
ghost use Rattle.pieces.specs.Inner.{Put};
ghost use Rattle.list_lines.specs.Lines.{named, head_line, sample_word, spaced_samples, spaced_status, spaced_statuses, row_line, refusal_line};
ghost use Rattle.list_lines.specs.Inner.{line_most};

use model::{AnalogNo, Layout, Refusal, Row, StatusNo};

// The plain decimal of v, at most 10 characters.
fn put_count(out: &mut [u8], n: usize, v: u32) -> usize
    requires { n + 10 ≤ length out.old }
    ensures put { Put out.old n (decimal v) out.new result }
    ensures upper_bound { result ≤ n + 10 }
{
    let wide = v as u64;
    let to = n + numerals::decimal_length(wide);
    numerals::put_decimal(&mut out[n..to], wide);
    to
}

// A name, and the plain decimal of v after it.
fn put_named(out: &mut [u8], n: usize, name: &[u8], v: u32) -> usize
    requires { n + length name.now + 10 ≤ length out.old }
    ensures put { Put out.old n (named name.now v) out.new result }
    ensures upper_bound { result ≤ n + length name.now + 10 }
{
    let m = pieces::put_all(out, n, name);
    put_count(out, m, v)
}

// The first line of a listing.
#[tactic(auto, unfolding(crate::specs::Lines::head_line))]
pub fn put_head_line(out: &mut [u8], layout: Layout) -> usize
    requires { 64 ≤ length out.old }
    ensures put { Put out.old 0 (head_line layout) out.new result }
    ensures upper_bound { result ≤ 64 }
{
    let kind = layout.kind;
    let a = put_named(out, 0, b"A ", layout.analogs);
    let d = put_named(out, a, b" D ", layout.statuses);
    let rows = put_named(out, d, b" rows ", layout.rows);
    let space = pieces::put_all(out, rows, b" ");
    let word = pieces::put_kind(out, space, kind);
    pieces::put_all(out, word, b"\n")
}

// A space and a number, at most 12 characters.
fn put_number(out: &mut [u8], n: usize, z: i32) -> usize
    requires { n + 12 ≤ length out.old }
    ensures put { Put out.old n (32 ∷ plain z) out.new result }
    ensures upper_bound { result ≤ n + 12 }
{
    let wide = words::widened(z);
    let m = pieces::put_all(out, n, b" ");
    let to = m + numerals::plain_length(wide);
    numerals::put_plain(&mut out[m..to], wide);
    to
}

// A space and a sample, an x for a missing one; at most 12 characters.
#[tactic(auto, unfolding(crate::specs::Lines::sample_word))]
fn put_sample(out: &mut [u8], n: usize, sample: Result<Option<i32>, Refusal>) -> usize
    requires { n + 12 ≤ length out.old }
    ensures put { Put out.old n (32 ∷ sample_word sample) out.new result }
    ensures upper_bound { result ≤ n + 12 }
{
    match sample {
        Ok(Some(z)) => put_number(out, n, z),
        Ok(None) => pieces::put_all(out, n, b" x"),
        Err(_) => pieces::put_all(out, n, b" "),
    }
}

// The samples of the first a channels.
fn put_samples(out: &mut [u8], n: usize, row: Row, a: u16) -> usize
    requires { n + 12 * a ≤ length out.old }
    ensures put { Put out.old n (spaced_samples row a) out.new result }
    ensures upper_bound { result ≤ n + 12 * a }
{
    let mut to = n;
    for i in 1..=a {
        to = put_sample(out, to, row.sample(AnalogNo(i)));
    }
    to
}

// The status of a status channel, which a row has.
fn status_of(row: Row, channel: StatusNo) -> bool
    ensures { result ≡ status_value (status_at channel.0 row) }
{
    row.status(channel).unwrap_or(false)
}

// A space and a status.
#[tactic(auto, unfolding(crate::specs::Lines::spaced_status))]
fn put_status(out: &mut [u8], n: usize, on: bool) -> usize
    requires { n + 2 ≤ length out.old }
    ensures { Put out.old n (spaced_status on) out.new result }
{
    if on {
        return pieces::put_all(out, n, b" 1");
    }
    pieces::put_all(out, n, b" 0")
}

// The statuses of the first d channels.
fn put_statuses(out: &mut [u8], n: usize, row: Row, d: u16) -> usize
    requires { n + 2 * d ≤ length out.old }
    ensures put { Put out.old n (spaced_statuses row d) out.new result }
    ensures upper_bound { result ≤ n + 2 * d }
{
    let mut to = n;
    for i in 1..=d {
        to = put_status(out, to, status_of(row, StatusNo(i)));
    }
    to
}

// The line of row n.
#[tactic(auto, unfolding(crate::specs::Lines::row_line))]
pub fn put_row_line(out: &mut [u8], at: usize, layout: Layout, n: u32, row: Row) -> usize
    requires { (Sized layout) × (at + line_most layout ≤ length out.old) }
    ensures put { Put out.old at (row_line layout n row) out.new result }
    ensures upper_bound { result ≤ at + line_most layout }
{
    let number = put_count(out, at, n);
    let time = put_named(out, number, b" ", row.time);
    let samples = put_samples(out, time, row, layout.analogs as u16);
    let statuses = put_statuses(out, samples, row, layout.statuses as u16);
    pieces::put_all(out, statuses, b"\n")
}

// The line of a refusal, after what it speaks of.
#[tactic(auto, unfolding(crate::specs::Lines::refusal_line))]
pub fn put_refusal_line(out: &mut [u8], what: &[u8], refusal: Refusal) -> usize
    requires { (length what.now ≤ 8) × (64 ≤ length out.old) }
    ensures { Put out.old 0 (refusal_line what.now refusal) out.new result }
{
    let number = put_named(out, 0, what, refusal.reason.number());
    let place = put_named(out, number, b" ", refusal.at);
    let field = put_named(out, place, b" ", refusal.field);
    pieces::put_all(out, field, b"\n")
}
