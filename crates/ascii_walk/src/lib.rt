// A row of text, read through in one walk that finds where each field ends as it reads it.
// A function claims something only where it answers an end, or true; where it does not, crate ascii_row says why.
#![tactic(auto)]

ghost use Rattle.std.specs.Prelude.{◌≡◌, true, false, ◌&&◌, [], ◌∷◌, ◌+◌, ◌*◌, ◌≤◌, ◌<◌, eqb, length, IfSome};
ghost use Rattle.numerals.specs.Inner.{CountThere};
ghost use Rattle.model.specs.declared.Layout.{Layout};
ghost use Rattle.model.specs.Layouts.{Sized};
ghost use Rattle.model.specs.Samples.{marked, is_mark};
ghost use Rattle.ascii_row.specs.Fields.{is_status};
ghost use Rattle.ascii_walk.specs.Inner.{TimeThere, SampleThere, StatusThere, FourThere, Passed, LineEnd, RowThere};

use ascii_row::LATEST;
use model::Layout;

// Where the number of row n ends, with which s begins, where it is read as n.
fn number_end(n: u32, s: &[u8]) -> Option<usize>
    ensures { IfSome result (λ end. CountThere 10 s.now 0 end n) }
{
    let number = numerals::count_at(s, 0, 10)?;
    if number.value != n as u64 {
        return None;
    }
    Some(number.end)
}

// Where the timestamp after a comma ends.
fn time_end(s: &[u8], at: usize) -> Option<usize>
    requires { at < length s.now }
    ensures { IfSome result (λ end. TimeThere s.now at end) }
{
    if s[at] != 44 {
        return None;
    }
    let time = numerals::count_at(s, at + 1, 13)?;
    if LATEST < time.value {
        return None;
    }
    Some(time.end)
}

// Where an empty field ends that starts at a place; nowhere where s ends there, or its text has none.
fn empty_end(layout: Layout, s: &[u8], at: usize) -> Option<usize>
    ensures { IfSome result (λ end. (end ≡ at) × (at < length s.now) × (marked layout ≡ false)) }
{
    if s.len() <= at {
        return None;
    }
    if layout.is_marked() {
        return None;
    }
    Some(at)
}

// Where a number ends that is no sample, where it is the mark of a marked text.
fn mark_end(layout: Layout, z: i64, end: usize) -> Option<usize>
    ensures { IfSome result (λ e. (e ≡ end) × (marked layout && is_mark z ≡ true)) }
{
    if !layout.is_marked() {
        return None;
    }
    if !model::is_mark(z) {
        return None;
    }
    Some(end)
}

// Where the sample after a comma ends. Most numbers are samples of every layout, which is asked first. Where no number is read the field is taken as empty: whoever comes next looks at what stands there.
fn sample_end(layout: Layout, s: &[u8], at: usize) -> Option<usize>
    requires { at < length s.now }
    ensures { IfSome result (λ end. SampleThere layout s.now at end) }
{
    if s[at] != 44 {
        return None;
    }
    let first = at + 1;
    let Some(sample) = numerals::whole_at(s, first) else {
        return empty_end(layout, s, first);
    };
    if model::is_short(sample.value) {
        return Some(sample.end);
    }
    if !layout.holds(sample.value) {
        return mark_end(layout, sample.value, sample.end);
    }
    Some(sample.end)
}

// Where the samples, each after a comma, end.
fn samples_end(layout: Layout, s: &[u8], at: usize) -> Option<usize>
    requires { (Sized layout) × (at < length s.now) }
    ensures { IfSome result (λ end. (end < length s.now) × Passed layout s.now 2 at layout.analogs end) }
{
    let mut i = at;
    for _ in 0..layout.analogs {
        i = sample_end(layout, s, i)?;
    }
    Some(i)
}

// Whether two bytes are a comma and a status.
#[tactic(auto, unfolding(ascii_row::specs::Fields::is_status))]
fn is_pair(c: u8, b: u8) -> bool
    ensures { result ≡ (eqb c 44 && is_status (b ∷ [])) }
{
    if c != 44 {
        return false;
    }
    if b < 48 {
        return false;
    }
    b <= 49
}

// Whether a comma and a status stand at a place.
fn status_there(s: &[u8], i: usize) -> bool
    requires { i + 2 < length s.now }
    ensures { result ≡ true → StatusThere s.now i }
{
    is_pair(s[i], s[i + 1])
}

// Whether four of them stand there, tested without a branch.
fn four_there(s: &[u8], i: usize) -> bool
    requires { i + 8 < length s.now }
    ensures { result ≡ true → FourThere s.now i }
{
    let p = status_there(s, i);
    let q = status_there(s, i + 2);
    let u = status_there(s, i + 4);
    let v = status_there(s, i + 6);
    p & q & u & v
}

// How many of d statuses, each after a comma, are passed four at a time.
fn pass_fours(s: &[u8], at: usize, d: usize) -> usize
    requires { (at + 2 * d < length s.now) × (d ≤ 256) }
    ensures { (result ≤ d) × ((l : Layout) → Passed l s.now (2 + l.analogs) at result (at + 2 * result)) }
{
    let mut k: usize = 0;
    while k + 4 <= d {
        if !four_there(s, at + 2 * k) {
            return k;
        }
        k += 4;
    }
    k
}

// Where d statuses, each after a comma, end.
fn statuses_end(s: &[u8], at: usize, d: usize) -> Option<usize>
    requires { (at < length s.now) × (d ≤ 256) }
    ensures { IfSome result (λ end. (end < length s.now) × ((l : Layout) → Passed l s.now (2 + l.analogs) at d end)) }
{
    if s.len() - at <= 2 * d {
        return None;
    }
    for k in pass_fours(s, at, d)..d {
        if !status_there(s, at + 2 * k) {
            return None;
        }
    }
    Some(at + 2 * d)
}

// How many bytes a line takes with its CR LF, where it ends at a place.
fn line_end(s: &[u8], end: usize) -> Option<usize>
    requires { end < length s.now }
    ensures { IfSome result (λ taken. LineEnd s.now end taken) }
{
    if 1880 < end {
        return None;
    }
    let j = end + 1;
    if s.len() <= j {
        return None;
    }
    if s[end] != 13 {
        return None;
    }
    if s[j] != 10 {
        return None;
    }
    Some(end + 2)
}

// How many bytes row n takes, with which s begins, where one walk reads it through; none says nothing of the row.
pub fn row_end(layout: Layout, n: u32, s: &[u8]) -> Option<usize>
    requires { Sized layout }
    ensures { IfSome result (λ taken. RowThere layout n s.now taken) }
{
    let d = layout.statuses as usize;
    let number = number_end(n, s)?;
    let time = time_end(s, number)?;
    let samples = samples_end(layout, s, time)?;
    let end = statuses_end(s, samples, d)?;
    line_end(s, end)
}
