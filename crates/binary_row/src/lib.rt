// Rows of the two binary kinds: their size, whether their bytes are fine, and the row that they are, by the sample width alone.
// Each function gives exactly what the definition of its name says.
#![tactic(auto)]

ghost use Rattle.std.specs.Prelude.{◌≡◌, false, ◌*◌, ◌≤◌, min, pos, length};
ghost use Rattle.ground.specs.Said.{answer_of};
ghost use Rattle.ground.specs.Tables.{tab, padded};
ghost use Rattle.model.specs.Kinds.{width_of, half_of};
ghost use Rattle.model.specs.Layouts.{Sized};
ghost use Rattle.binary_row.specs.Rows.{words_of, samples_end, row_size, bytes_sample, bit_of, word_status, padding_free, row_time, check_row, row_of};

use model::{Kind, Layout, Reason, Refusal, Row};

// Bytes of a row's number, and of its timestamp.
pub const NUMBER: usize = 4;

// Bytes of both.
pub const HEAD: usize = 8;

// Bytes of a status word, and the statuses that it holds.
pub const WORD: usize = 2;

pub const STATUSES: usize = 16;

// A status word with every bit set.
const FULL: u32 = 65535;

// The lesser of two numbers.
pub fn lesser(a: usize, b: usize) -> usize
    ensures { result ≡ min a b }
{
    a.min(b)
}

// Where the samples of a row end.
pub fn samples_end(layout: Layout) -> usize
    requires { Sized layout }
    ensures { result ≡ samples_end layout }
{
    let kind = layout.kind;
    let a = layout.analogs as usize;
    HEAD + a * kind.width()
}

// Bytes of a row.
#[tactic(auto, unfolding(crate::specs::Rows::row_size))]
pub fn row_size(layout: Layout) -> usize
    requires { Sized layout }
    ensures { result ≡ row_size layout }
{
    let d = layout.statuses as usize;
    samples_end(layout) + WORD * ((d + 15) / STATUSES)
}

// No bit past the d statuses of the words is set: the mask above d finds none.
fn padding_free(d: usize, b: &[u8]) -> bool
    requires { (d ≤ 256) × (length b.now ≡ 2 * words_of d) }
    ensures { result ≡ padding_free d b.now }
{
    let k = d % STATUSES;
    if k == 0 {
        return true;
    }
    let from = d / STATUSES * WORD;
    let to = from + WORD;
    let word = words::word_of(&b[from..to]);
    let mask = FULL << k;
    word & mask == 0
}

// Whether the bytes of row n are fine, or the first refusal: its number is field 1, its padding no field's.
#[tactic(auto, unfolding(crate::specs::Rows::check_row))]
pub fn check_row(layout: Layout, n: u32, bytes: &[u8]) -> Result<(), Refusal>
    requires { (Sized layout) × (length bytes.now ≡ row_size layout) }
    ensures { result ≡ answer_of (check_row layout n bytes.now) }
{
    let d = layout.statuses as usize;
    let mid = samples_end(layout);
    let end = bytes.len();
    if words::word_of(&bytes[0..NUMBER]) != n {
        return Err(model::refused(Reason::RowNumber, n, 1));
    }
    if !padding_free(d, &bytes[mid..end]) {
        return Err(model::refused(Reason::Padding, n, 0));
    }
    Ok(())
}

// The a samples of the bytes, and zeros.
fn samples_of(kind: Kind, a: usize, b: &[u8]) -> [i32; 96]
    requires { (a ≤ 96) × (length b.now ≡ a * width_of kind) }
    ensures { result ≡ padded (bytes_sample (width_of kind) (half_of kind) b.now) a 96 (pos 0) }
{
    let width = kind.width();
    let half = kind.half();
    let mut out = [0i32; 96];
    for i in 0..a {
        let from = i * width;
        let to = from + width;
        let n = words::word_of(&b[from..to]);
        out[i] = model::sample_of_word(half, n);
    }
    out
}

// The low bits of a word fill the slice.
fn unpack_word(word: u32, d: &mut [bool])
    requires { length d.old ≤ 16 }
    ensures { d.new ≡ tab (bit_of word) (length d.old) }
{
    for (i, on) in d.iter_mut().enumerate() {
        *on = (word >> i) & 1 == 1;
    }
}

// The statuses of the words fill the slice; each word is read once.
fn unpack_words(b: &[u8], d: &mut [bool])
    requires { (length d.old ≤ 256) × (length b.now ≡ 2 * words_of (length d.old)) }
    ensures { d.new ≡ tab (word_status b.now) (length d.old) }
{
    let n = d.len();
    let words = b.len() / WORD;
    for j in 0..words {
        let at = j * WORD;
        let end = at + WORD;
        let word = words::word_of(&b[at..end]);
        let from = j * STATUSES;
        let to = lesser(from + STATUSES, n);
        unpack_word(word, &mut d[from..to]);
    }
}

// The d statuses of the words, and zeros.
fn statuses_of(d: usize, b: &[u8]) -> [bool; 256]
    requires { (d ≤ 256) × (length b.now ≡ 2 * words_of d) }
    ensures { result ≡ padded (word_status b.now) d 256 false }
{
    let mut out = [false; 256];
    unpack_words(b, &mut out[..d]);
    out
}

// The timestamp of a row.
pub fn row_time(bytes: &[u8]) -> u32
    requires { 8 ≤ length bytes.now }
    ensures { result ≡ row_time bytes.now }
{
    words::word_of(&bytes[NUMBER..HEAD])
}

// The samples of a row, and zeros.
#[tactic(auto, unfolding(crate::specs::Rows::row_of))]
pub fn row_samples(layout: Layout, bytes: &[u8]) -> [i32; 96]
    requires { (Sized layout) × (length bytes.now ≡ row_size layout) }
    ensures { result ≡ (row_of layout bytes.now).samples }
{
    let kind = layout.kind;
    let a = layout.analogs as usize;
    let mid = samples_end(layout);
    samples_of(kind, a, &bytes[HEAD..mid])
}

// The row that the bytes are.
#[tactic(auto, unfolding(crate::specs::Rows::row_of))]
pub fn row_of(layout: Layout, bytes: &[u8]) -> Row
    requires { (Sized layout) × (length bytes.now ≡ row_size layout) }
    ensures { result ≡ row_of layout bytes.now }
{
    let d = layout.statuses as usize;
    let mid = samples_end(layout);
    let end = bytes.len();
    let time = row_time(bytes);
    let samples = row_samples(layout, bytes);
    let statuses = statuses_of(d, &bytes[mid..end]);
    Row {
        time,
        samples,
        statuses,
    }
}
