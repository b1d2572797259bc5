// A row as places, whole numbers of 64 bits, as the exported calls show and take it; a missing sample is a number that is no sample of any kind.
// Each function gives exactly what the definition of its name says; the laws of proofs/ say that a row is read back from the places that show it.
#![tactic(auto)]

ghost use Rattle.std.specs.Prelude.{◌≡◌, false, ◌∷◌, ◌+◌, ◌≤◌, ◌<◌, ◌^◌, pos, length, get_or};
ghost use Rattle.std.specs.Int.Signed.{mag, lt_z};
ghost use Rattle.ground.specs.Tables.{tab, padded};
ghost use Rattle.model.specs.Layouts.{Sized};
ghost use Rattle.model.specs.Samples.{is_none};
ghost use Rattle.row_places.specs.Rows.{places_of, bool_place, sample_place, place_sample, row_places, up_to, fits_sample, fits_place, unfit, row_of_places};

use model::{Layout, Row};

// A status that is on.
const ON: i64 = 1;

// The number for "there is none", and the lowest that is not it.
pub const NONE: i64 = -9223372036854775808;

const LOWEST: i64 = -9223372036854775807;

// Whether a place says that there is none.
pub fn is_none(z: i64) -> bool
    ensures { result ≡ is_none z }
{
    z < LOWEST
}

// A truth value as a place.
pub fn bool_place(on: bool) -> i64
    ensures { result ≡ bool_place on }
{
    if on { ON } else { 0 }
}

// How many places a row has.
pub fn places_of(layout: Layout) -> usize
    requires { Sized layout }
    ensures { result ≡ places_of layout }
{
    1 + layout.analogs as usize + layout.statuses as usize
}

// A sample as a place.
#[tactic(auto, unfolding(crate::specs::Rows::sample_place, model::specs::Samples::sample_of))]
fn sample_place(z: i32) -> i64
    ensures { result ≡ sample_place z }
{
    if model::is_missing(z) {
        return NONE;
    }
    words::widened(z)
}

// The samples fill the slice.
fn put_samples(zs: &[i32], d: &mut [i64])
    requires { length d.old ≤ length zs.now }
    ensures { d.new ≡ tab (λ i. sample_place (get_or zs.now i (pos 0))) (length d.old) }
{
    for (i, place) in d.iter_mut().enumerate() {
        *place = sample_place(zs[i]);
    }
}

// The statuses fill the slice.
fn put_statuses(s: &[bool], d: &mut [i64])
    requires { length d.old ≤ length s.now }
    ensures { d.new ≡ tab (λ i. bool_place (get_or s.now i false)) (length d.old) }
{
    for (i, place) in d.iter_mut().enumerate() {
        *place = bool_place(s[i]);
    }
}

// The samples and statuses of a row fill the slice.
#[tactic(auto, unfolding(crate::specs::Rows::row_places))]
fn put_channels(layout: Layout, row: Row, d: &mut [i64])
    requires { (Sized layout) × (length d.old ≡ layout.analogs + layout.statuses) }
    ensures { pos row.time ∷ d.new ≡ row_places layout row }
{
    let mid = layout.analogs as usize;
    let end = d.len();
    let zs = row.samples;
    let s = row.statuses;
    put_samples(&zs, &mut d[..mid]);
    put_statuses(&s, &mut d[mid..end]);
}

// The places of a row fill the slice.
pub fn put_row(layout: Layout, row: Row, d: &mut [i64])
    requires { (Sized layout) × (length d.old ≡ places_of layout) }
    ensures { d.new ≡ row_places layout row }
{
    d[0] = words::plus(row.time as u64);
    put_channels(layout, row, &mut d[1..]);
}

// Whether a number is one from 0 to this one.
#[tactic(auto, unfolding(crate::specs::Rows::up_to))]
fn up_to(most: i64, z: i64) -> bool
    ensures { result ≡ up_to most z }
{
    (0..=most).contains(&z)
}

// Whether the place of a sample may hold z. Most samples are samples of every layout, which is asked first.
#[tactic(auto, unfolding(crate::specs::Rows::fits_sample))]
fn fits_sample(layout: Layout, z: i64) -> bool
    ensures { result ≡ fits_sample layout z }
{
    model::is_short(z) || is_none(z) || layout.holds(z)
}

// Whether place i may hold z.
#[tactic(auto, unfolding(crate::specs::Rows::fits_place))]
fn fits_place(layout: Layout, i: usize, z: i64) -> bool
    ensures { result ≡ fits_place layout i z }
{
    if i < 1 {
        return up_to(words::plus(Row::LATEST as u64), z);
    }
    if i <= layout.analogs as usize {
        return fits_sample(layout, z);
    }
    up_to(ON, z)
}

// The first place of a row that does not fit, or their number.
pub fn first_unfit(layout: Layout, zs: &[i64]) -> usize
    requires { (Sized layout) × (places_of layout ≤ length zs.now) }
    ensures { result ≡ unfit layout zs.now }
{
    let end = places_of(layout);
    for (i, z) in zs[..end].iter().enumerate() {
        if !fits_place(layout, i, *z) {
            return i;
        }
    }
    end
}

// A place as a sample.
#[tactic(auto, unfolding(crate::specs::Rows::place_sample))]
fn place_sample(z: i64) -> i32
    requires { is_none z ≡ false → mag z < 2 ^ 31 }
    ensures { result ≡ place_sample z }
{
    if is_none(z) {
        return Row::MISSING;
    }
    words::narrowed(z)
}

// The samples of the places, and zeros.
fn samples_of(zs: &[i64]) -> [i32; 96]
    requires { (length zs.now ≤ 96) × ((i : _) → i < length zs.now → is_none (get_or zs.now i (pos 0)) ≡ false → mag (get_or zs.now i (pos 0)) < 2 ^ 31) }
    ensures { result ≡ padded (λ i. place_sample (get_or zs.now i (pos 0))) (length zs.now) 96 (pos 0) }
{
    let mut out = [0i32; 96];
    for (i, z) in zs.iter().enumerate() {
        out[i] = place_sample(*z);
    }
    out
}

// The statuses of the places, and zeros.
fn statuses_of(zs: &[i64]) -> [bool; 256]
    requires { length zs.now ≤ 256 }
    ensures { result ≡ padded (λ i. lt_z (pos 0) (get_or zs.now i (pos 0))) (length zs.now) 256 false }
{
    let mut out = [false; 256];
    for (i, z) in zs.iter().enumerate() {
        out[i] = 0 < *z;
    }
    out
}

// The row that places say, each of which fits.
#[tactic(auto, unfolding(crate::specs::Rows::row_of_places))]
pub fn row_of_places(layout: Layout, zs: &[i64]) -> Row
    requires { (Sized layout) × (places_of layout ≤ length zs.now) × (unfit layout zs.now ≡ places_of layout) }
    ensures { result ≡ row_of_places layout zs.now }
{
    let mid = 1 + layout.analogs as usize;
    let end = places_of(layout);
    let time = words::size(zs[0]) as u32;
    let samples = samples_of(&zs[1..mid]);
    let statuses = statuses_of(&zs[mid..end]);
    Row {
        time,
        samples,
        statuses,
    }
}
