// Samples of the binary kinds, from the bytes of one kind to those of another, and those that do not fit.
// Each function gives exactly what the definition of its name says; loops have no branch, so that many samples are done at once.
#![tactic(auto)]

ghost use Rattle.std.specs.Prelude.{◌≡◌, true, ◌*◌, ◌≤◌, ◌<◌, length};
ghost use Rattle.words.specs.Words.{word_of, word_bytes};
ghost use Rattle.words.specs.Signed.{signed_of, unsigned_of};
ghost use Rattle.model.specs.declared.Kind.TheVariants.{Binary, Binary32};
ghost use Rattle.model.specs.Kinds.{width_of, half_of};
ghost use Rattle.model.specs.Samples.{sample_of_word, word_of_sample};
ghost use Rattle.recode_samples.specs.Inner.{is_short, recoded, recoded_all, stray_of, strays_of, first_stray, NoStray};

use model::Kind;

// Bytes of a sample of 16 bits, and of 32.
const NARROW: usize = Kind::WIDTH_BINARY;

const WIDE: usize = Kind::WIDTH_BINARY32;

// The first number of 32 bits that does not fit in 16, and the last: between them the kept one alone does.
const FIRST_STRAY: u32 = Kind::HALF_BINARY;

const LAST_STRAY: u32 = Kind::HALF_BINARY32 - Kind::HALF_BINARY + Kind::HALF_BINARY32;

// How far the kept number of 16 bits, extended, is above the kept one of 32.
const KEPT_APART: u32 = Kind::HALF_BINARY32 - Kind::HALF_BINARY;

// What lifts every number of 16 bits that is extended to zero or above, but for the kept one.
const LIFT: u64 = Kind::HALF_BINARY as u64 - 1;

// The number of two bytes, written out so that it becomes one load.
pub fn two(b: &[u8]) -> u32
    requires { length b.now ≡ 2 }
    ensures { result ≡ word_of b.now }
{
    b[0] as u32 + 256 * (b[1] as u32)
}

// The number of four bytes, likewise.
fn four(b: &[u8]) -> u32
    requires { length b.now ≡ 4 }
    ensures { result ≡ word_of b.now }
{
    b[0] as u32 + 256 * (b[1] as u32) + 65536 * (b[2] as u32) + 16777216 * (b[3] as u32)
}

// The two low bytes of a number fill the slice, written out so that they become one store.
pub fn put_two(n: u32, d: &mut [u8])
    requires { length d.old ≡ 2 }
    ensures { d.new ≡ word_bytes 2 n }
{
    d[0] = (n % 256) as u8;
    d[1] = (n / 256 % 256) as u8;
}

// The four bytes of a number, likewise.
fn put_four(n: u32, d: &mut [u8])
    requires { length d.old ≡ 4 }
    ensures { d.new ≡ word_bytes 4 n }
{
    d[0] = (n % 256) as u8;
    d[1] = (n / 256 % 256) as u8;
    d[2] = (n / 65536 % 256) as u8;
    d[3] = (n / 16777216 % 256) as u8;
}

// A number of 16 bits that is read as signed, in 32: up by half of the 16 bits' numbers, and down again by as many. No branch, so that many are done at once.
fn extended(n: u32) -> u32
    requires { n < 65536 }
    ensures { result ≡ unsigned_of (half_of Binary32) (signed_of (half_of Binary) n) }
{
    let up = (n + FIRST_STRAY) % 65536;
    ((up as u64 + LAST_STRAY as u64) % 4294967296) as u32
}

// The number of 32 bits that says what a number of 16 does: the kept one alone stays below zero when it is lifted. No branch, likewise; a choice by n would cost the one load of `two`.
fn long_of(n: u32) -> u32
    requires { n < 65536 }
    ensures { result ≡ word_of_sample (half_of Binary32) (sample_of_word (half_of Binary) n) }
{
    let wide = extended(n);
    let up = ((wide as u64 + LIFT) % 4294967296) as u32;
    wide - up / Kind::HALF_BINARY32 * KEPT_APART
}

// A sample of 16 bits, in 32, fills the slice.
#[tactic(auto, unfolding(crate::specs::Inner::recoded))]
fn widen(b: &[u8], d: &mut [u8])
    requires { (length b.now ≡ width_of Binary) × (length d.old ≡ width_of Binary32) }
    ensures { d.new ≡ recoded Binary Binary32 b.now }
{
    put_four(long_of(two(b)), d);
}

// a samples of 16 bits, in 32, fill the slice.
fn widen_all(a: usize, b: &[u8], d: &mut [u8])
    requires { (length b.now ≡ a * width_of Binary) × (length d.old ≡ a * width_of Binary32) }
    ensures { d.new ≡ recoded_all Binary Binary32 a b.now }
{
    for i in 0..a {
        let from = i * NARROW;
        let to = from + NARROW;
        let at = i * WIDE;
        let end = at + WIDE;
        widen(&b[from..to], &mut d[at..end]);
    }
}

// The number of 16 bits that says what a number of 32 does, where there is one: its sign and its low bits.
fn short_of(n: u32) -> u32
    requires { is_short n ≡ true }
    ensures { result ≡ word_of_sample (half_of Binary) (sample_of_word (half_of Binary32) n) }
{
    n % Kind::HALF_BINARY + n / Kind::HALF_BINARY32 * Kind::HALF_BINARY
}

// A sample of 32 bits that fits in 16 fills the slice.
#[tactic(auto, unfolding(crate::specs::Inner::recoded))]
fn narrow(b: &[u8], d: &mut [u8])
    requires { (length b.now ≡ width_of Binary32) × (length d.old ≡ width_of Binary) × (stray_of b.now ≡ 0) }
    ensures { d.new ≡ recoded Binary32 Binary b.now }
{
    put_two(short_of(four(b)), d);
}

// a samples of 32 bits that fit in 16 fill the slice.
fn narrow_all(a: usize, b: &[u8], d: &mut [u8])
    requires { (length b.now ≡ a * width_of Binary32) × (length d.old ≡ a * width_of Binary) × (NoStray a b.now) }
    ensures { d.new ≡ recoded_all Binary32 Binary a b.now }
{
    for i in 0..a {
        let from = i * WIDE;
        let to = from + WIDE;
        let at = i * NARROW;
        let end = at + NARROW;
        narrow(&b[from..to], &mut d[at..end]);
    }
}

// The a samples of a kind, in one of another width, fill the slice.
pub fn recode_all(kind: Kind, new: Kind, a: usize, b: &[u8], d: &mut [u8])
    requires { (length b.now ≡ a * width_of kind) × (length d.old ≡ a * width_of new) × (width_of kind ≡ width_of new → ⊥) × (width_of new < width_of kind → NoStray a b.now) }
    ensures { d.new ≡ recoded_all kind new a b.now }
{
    if kind.width() < new.width() {
        widen_all(a, b, d);
    } else {
        narrow_all(a, b, d);
    }
}

// Whether a sample of 32 bits does not fit in 16: 1 or 0.
fn stray(b: &[u8]) -> u32
    requires { length b.now ≡ width_of Binary32 }
    ensures { result ≡ stray_of b.now }
{
    let n = four(b);
    if n == Kind::HALF_BINARY32 {
        0
    } else if n < FIRST_STRAY {
        0
    } else if n <= LAST_STRAY {
        1
    } else {
        0
    }
}

// How many of a samples of 32 bits do not fit in 16.
fn strays(a: usize, b: &[u8]) -> u32
    requires { (a ≤ 96) × (length b.now ≡ a * width_of Binary32) }
    ensures { result ≡ strays_of b.now a }
{
    let mut n: u32 = 0;
    for i in 0..a {
        let from = i * WIDE;
        let to = from + WIDE;
        n += stray(&b[from..to]);
    }
    n
}

// The first of a samples of 32 bits that does not fit in 16, or a.
fn find_stray(a: usize, b: &[u8]) -> usize
    requires { (a ≤ 96) × (length b.now ≡ a * width_of Binary32) }
    ensures { result ≡ first_stray a b.now }
{
    for i in 0..a {
        let from = i * WIDE;
        let to = from + WIDE;
        if stray(&b[from..to]) != 0 {
            return i;
        }
    }
    a
}

// The same; they are none-strays first, since most rows have none.
pub fn first_stray(a: usize, b: &[u8]) -> usize
    requires { (a ≤ 96) × (length b.now ≡ a * width_of Binary32) }
    ensures { result ≡ first_stray a b.now }
{
    if strays(a, b) == 0 {
        return a;
    }
    find_stray(a, b)
}
