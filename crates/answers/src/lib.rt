// What every exported call answers, and how it is made of an answer of the calls below.
// Each function gives exactly what the definition of its name says.
#![tactic(auto)]

ghost use Rattle.std.specs.Prelude.{◌≡◌};
ghost use Rattle.model.specs.Editions.{edition_of};
ghost use Rattle.model.specs.Refusals.{FewBytes};
ghost use Rattle.answers.specs.Answers.{yes, no, layout_by, layout_in, layout_of};
ghost use Rattle.answers.specs.Inner.{plainly, counted};

use model::{Edition, Kind, Layout, Refusal};

// The refusal's number and place, zeros for yes; the length in bytes where the call has one, 0 elsewhere.
#[repr(C)]
#[derive(Clone, Copy)]
pub struct zl_answer {
    pub number: u32,
    pub at: u32,
    pub field: u32,
    pub length: u32,
}

pub fn yes(length: u32) -> zl_answer
    ensures { result ≡ yes length }
{
    zl_answer {
        number: 0,
        at: 0,
        field: 0,
        length: length,
    }
}

pub fn no(refusal: Refusal) -> zl_answer
    ensures { result ≡ no refusal }
{
    zl_answer {
        number: refusal.reason.number(),
        at: refusal.at,
        field: refusal.field,
        length: 0,
    }
}

// The answer of a call that has no length.
pub fn plainly(answer: Result<(), Refusal>) -> zl_answer
    ensures { result ≡ plainly answer }
{
    match answer {
        Ok(()) => yes(0),
        Err(refusal) => no(refusal),
    }
}

// How many bytes are written or needed.
pub fn counted(answer: Result<usize, Refusal>) -> zl_answer
    requires { FewBytes answer }
    ensures { result ≡ counted answer }
{
    match answer {
        Ok(size) => yes(size as u32),
        Err(refusal) => no(refusal),
    }
}

// The layout of three numbers, a kind and an edition.
fn layout_by(a: u32, d: u32, rows: u32, kind: Kind, edition: Edition) -> Layout
    ensures { result ≡ layout_by a d rows kind edition }
{
    Layout {
        analogs: a,
        statuses: d,
        rows: rows,
        kind: kind,
        edition: edition,
    }
}

// The layout of three numbers, a kind, and the edition of a year.
fn layout_in(a: u32, d: u32, rows: u32, kind: Kind, edition: u32) -> Option<Layout>
    ensures { result ≡ layout_in a d rows (Some kind) (edition_of edition) }
{
    let e = Edition::of(edition as u64)?;
    Some(layout_by(a, d, rows, kind, e))
}

// The layout of five numbers: the kind by its number, the edition by its year.
#[tactic(auto, unfolding(crate::specs::Answers::layout_of))]
pub fn layout_of(a: u32, d: u32, rows: u32, kind: u32, edition: u32) -> Option<Layout>
    ensures { result ≡ layout_of a d rows kind edition }
{
    let k = Kind::of(kind)?;
    layout_in(a, d, rows, k, edition)
}
