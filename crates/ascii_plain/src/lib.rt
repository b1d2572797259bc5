// The plain text row of an ASCII data file: how long it is, and its bytes.
// Each function gives exactly what the definition of its name says; the laws of proofs/ say how long the line is, that it is a line, and what its fields are.
#![tactic(auto)]

ghost use Rattle.std.specs.Prelude.{◌≡◌, [], ◌∷◌, ◌++◌, ◌+◌, ◌*◌, ◌≤◌, length};
ghost use Rattle.numerals.specs.Decimals.{decimal};
ghost use Rattle.model.specs.Layouts.{Sized};
ghost use Rattle.ascii_plain.specs.Rows.{head_text, missing_chars, sample_chars, samples_text, status_char, statuses_text, line_of, text_of};
ghost use Rattle.ascii_plain.specs.Inner.{head_length, samples_length, length_by, text_length};

use model::{Layout, Row};

const COMMA: u8 = 44;

// Bytes of a status and its comma, and of a line end.
const STATUS: usize = 2;

const END: usize = 2;

// How many characters number and timestamp take.
pub fn head_length(n: u32, time: u32) -> usize
    ensures { result ≡ head_length n time }
{
    numerals::decimal_length(n as u64) + (1 + numerals::decimal_length(time as u64))
}

// How many characters a missing sample takes: none, or those of the mark.
fn missing_length(layout: Layout) -> usize
    ensures { result ≡ length (missing_chars layout) }
{
    if layout.is_marked() {
        return numerals::plain_length(Row::MARK);
    }
    0
}

// How many characters a sample and its comma take.
fn sample_length(layout: Layout, z: i32) -> usize
    ensures { result ≡ 1 + length (sample_chars layout z) }
{
    if !model::is_missing(z) {
        return 1 + numerals::plain_length(words::widened(z));
    }
    1 + missing_length(layout)
}

// How many characters the samples take, each with its comma: at most 12 a sample.
fn samples_length(layout: Layout, zs: &[i32]) -> usize
    requires { (Sized layout) × (96 ≤ length zs.now) }
    ensures value { result ≡ samples_length layout zs.now layout.analogs }
    ensures upper_bound { result ≤ 12 * layout.analogs }
{
    let a = layout.analogs as usize;
    let mut n = 0;
    for &z in &zs[..a] {
        n += sample_length(layout, z);
    }
    n
}

// How many bytes row n takes with this timestamp and these samples.
pub fn length_by(layout: Layout, n: u32, time: u32, zs: &[i32]) -> usize
    requires { (Sized layout) × (96 ≤ length zs.now) }
    ensures value { result ≡ length_by layout n time zs.now }
    ensures upper_bound { result ≤ 2048 }
{
    let count = layout.statuses as usize;
    head_length(n, time) + (samples_length(layout, zs) + (STATUS * count + END))
}

// How many bytes row n takes.
pub fn text_length(layout: Layout, n: u32, row: Row) -> usize
    requires { Sized layout }
    ensures { result ≡ text_length layout n row }
{
    let time = row.time;
    let zs = row.samples;
    length_by(layout, n, time, &zs)
}

// A comma and the timestamp fill the slice.
fn put_time(time: u32, d: &mut [u8])
    requires { length d.old ≡ 1 + length (decimal time) }
    ensures { d.new ≡ 44 ∷ decimal time }
{
    d[0] = COMMA;
    numerals::put_decimal(&mut d[1..], time as u64);
}

// Number and timestamp fill the slice.
fn put_head(n: u32, time: u32, d: &mut [u8])
    requires { length d.old ≡ head_length n time }
    ensures { d.new ≡ head_text n time }
{
    let v = n as u64;
    let k = numerals::decimal_length(v);
    let end = d.len();
    numerals::put_decimal(&mut d[..k], v);
    put_time(time, &mut d[k..end]);
}

// A missing sample fills the slice: nothing, or the mark.
fn put_missing(layout: Layout, d: &mut [u8])
    requires { length d.old ≡ length (missing_chars layout) }
    ensures { d.new ≡ missing_chars layout }
{
    if layout.is_marked() {
        numerals::put_plain(d, Row::MARK);
    }
}

// A comma and the sample fill the slice.
fn put_sample(layout: Layout, z: i32, d: &mut [u8])
    requires { length d.old ≡ 1 + length (sample_chars layout z) }
    ensures { d.new ≡ 44 ∷ sample_chars layout z }
{
    d[0] = COMMA;
    if model::is_missing(z) {
        put_missing(layout, &mut d[1..]);
        return;
    }
    numerals::put_plain(&mut d[1..], words::widened(z));
}

// The samples fill the slice.
fn put_samples(layout: Layout, zs: &[i32], d: &mut [u8])
    requires { (layout.analogs ≤ length zs.now) × (length d.old ≡ samples_length layout zs.now layout.analogs) }
    ensures { d.new ≡ samples_text layout zs.now }
{
    let a = layout.analogs as usize;
    let mut from = 0;
    for &z in &zs[..a] {
        let to = from + sample_length(layout, z);
        put_sample(layout, z, &mut d[from..to]);
        from = to;
    }
}

// The character of a status.
fn status_char(b: bool) -> u8
    ensures { result ≡ status_char b }
{
    if b { 49 } else { 48 }
}

// A comma and the status fill the slice.
fn put_status(b: bool, d: &mut [u8])
    requires { length d.old ≡ 2 }
    ensures { d.new ≡ 44 ∷ status_char b ∷ [] }
{
    d[0] = COMMA;
    d[1] = status_char(b);
}

// The first count statuses fill the slice.
fn put_statuses(s: &[bool], count: usize, d: &mut [u8])
    requires { (count ≤ length s.now) × (length d.old ≡ 2 * count) }
    ensures { d.new ≡ statuses_text count s.now }
{
    for i in 0..count {
        let from = i * STATUS;
        put_status(s[i], &mut d[from..from + STATUS]);
    }
}

// The samples and the statuses fill the slice; what the statuses leave is the samples'.
fn put_channels(layout: Layout, zs: &[i32], s: &[bool], d: &mut [u8])
    requires analogs_in_bounds { (layout.analogs ≤ length zs.now) × (layout.statuses ≤ length s.now) }
    requires d_len { length d.old ≡ samples_length layout zs.now layout.analogs + 2 * layout.statuses }
    ensures { d.new ≡ samples_text layout zs.now ++ statuses_text layout.statuses s.now }
{
    let count = layout.statuses as usize;
    let end = d.len();
    let mid = end - STATUS * count;
    put_samples(layout, zs, &mut d[..mid]);
    put_statuses(s, count, &mut d[mid..end]);
}

// The line of row n fills the slice.
fn put_line(layout: Layout, n: u32, row: Row, d: &mut [u8])
    requires { (Sized layout) × (length d.old ≡ length (line_of layout n row)) }
    ensures { d.new ≡ line_of layout n row }
{
    let time = row.time;
    let zs = row.samples;
    let s = row.statuses;
    let mid = head_length(n, time);
    let end = d.len();
    put_head(n, time, &mut d[..mid]);
    put_channels(layout, &zs, &s, &mut d[mid..end]);
}

// CR LF fills the slice.
fn put_end(d: &mut [u8])
    requires { length d.old ≡ 2 }
    ensures { d.new ≡ 13 ∷ 10 ∷ [] }
{
    d[0] = 13;
    d[1] = 10;
}

// The bytes of row n fill the slice.
pub fn put_text(layout: Layout, n: u32, row: Row, d: &mut [u8])
    requires { (Sized layout) × (length d.old ≡ text_length layout n row) }
    ensures { d.new ≡ text_of layout n row }
{
    let end = d.len();
    let mid = end - END;
    put_line(layout, n, row, &mut d[..mid]);
    put_end(&mut d[mid..end]);
}
