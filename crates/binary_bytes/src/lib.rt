// Rows of the two binary kinds, written: the bytes of a row, by the sample width alone.
// Each function gives exactly what the definition of its name says; the laws of proofs/ say that reading undoes writing, and writing reading.
#![tactic(auto)]

ghost use Rattle.std.specs.Prelude.{◌≡◌, ◌++◌, ◌+◌, ◌*◌, ◌≤◌, length};
ghost use Rattle.model.specs.Kinds.{width_of, half_of};
ghost use Rattle.model.specs.Layouts.{Sized};
ghost use Rattle.model.specs.Rows.{misfit};
ghost use Rattle.binary_row.specs.Rows.{words_of, row_size};
ghost use Rattle.binary_bytes.specs.Rows.{packed, samples_bytes, words_bytes, head_bytes, binary_of};

use binary_row::{HEAD, NUMBER, STATUSES, WORD};
use model::{Layout, Row};

// A row's number and timestamp fill the slice.
pub fn put_head(n: u32, time: u32, d: &mut [u8])
    requires { length d.old ≡ 8 }
    ensures { d.new ≡ head_bytes n time }
{
    words::put_word(&mut d[..NUMBER], n);
    words::put_word(&mut d[NUMBER..HEAD], time);
}

// The first A samples fill the slice.
fn put_samples(layout: Layout, zs: &[i32], d: &mut [u8])
    requires { (layout.analogs ≤ length zs.now) × (length d.old ≡ layout.analogs * width_of layout.kind) × (misfit layout zs.now ≡ layout.analogs) }
    ensures { d.new ≡ samples_bytes (width_of layout.kind) (half_of layout.kind) layout.analogs zs.now }
{
    let kind = layout.kind;
    let a = layout.analogs as usize;
    let width = kind.width();
    let half = kind.half();
    for i in 0..a {
        let from = i * width;
        let to = from + width;
        let z = zs[i];
        let n = model::word_of_sample(half, z);
        words::put_word(&mut d[from..to], n);
    }
}

// The word of at most sixteen statuses, the first in the lowest bit.
fn pack_word(s: &[bool]) -> u32
    requires { length s.now ≤ 16 }
    ensures { result ≡ packed s.now }
{
    let mut word: u32 = 0;
    for on in s.iter().rev() {
        word = word << 1;
        if *on {
            word = word | 1;
        }
    }
    word
}

// The words of the first count statuses fill the slice.
fn put_words(s: &[bool], count: usize, d: &mut [u8])
    requires { (count ≤ 256) × (count ≤ length s.now) × (length d.old ≡ 2 * words_of count) }
    ensures { d.new ≡ words_bytes count s.now }
{
    let words = d.len() / WORD;
    for j in 0..words {
        let from = j * STATUSES;
        let to = binary_row::lesser(from + STATUSES, count);
        let word = pack_word(&s[from..to]);
        let at = j * WORD;
        let end = at + WORD;
        words::put_word(&mut d[at..end], word);
    }
}

// The first A samples and the words of the first D statuses fill the slice.
fn put_body(layout: Layout, zs: &[i32], s: &[bool], d: &mut [u8])
    requires analogs_in_bounds { (layout.analogs ≤ length zs.now) × (misfit layout zs.now ≡ layout.analogs) }
    requires statuses_bound { (layout.statuses ≤ 256) × (layout.statuses ≤ length s.now) × (length d.old ≡ layout.analogs * width_of layout.kind + 2 * words_of layout.statuses) }
    ensures { d.new ≡ samples_bytes (width_of layout.kind) (half_of layout.kind) layout.analogs zs.now ++ words_bytes layout.statuses s.now }
{
    let kind = layout.kind;
    let a = layout.analogs as usize;
    let count = layout.statuses as usize;
    let mid = a * kind.width();
    let end = d.len();
    put_samples(layout, zs, &mut d[..mid]);
    put_words(s, count, &mut d[mid..end]);
}

// The bytes of row n fill the slice.
#[tactic(auto, unfolding(crate::specs::Rows::binary_of))]
pub fn put_row(layout: Layout, n: u32, row: Row, d: &mut [u8])
    requires { (Sized layout) × (length d.old ≡ row_size layout) × (misfit layout row.samples ≡ layout.analogs) }
    ensures { d.new ≡ binary_of layout n row }
{
    let end = d.len();
    let time = row.time;
    let zs = row.samples;
    let s = row.statuses;
    put_head(n, time, &mut d[..HEAD]);
    put_body(layout, &zs, &s, &mut d[HEAD..end]);
}
