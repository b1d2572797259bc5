// The exported calls on a change of kind: zl_length and zl_change.
// Each answers every combination of its arguments, and gives exactly what the definition of its name says; a refusal changes no lent byte.
#![tactic(auto)]

ghost use Rattle.std.specs.Prelude.{◌≡◌, length};
ghost use Rattle.ground.specs.Said.{over};
ghost use Rattle.answers.specs.Answers.{told, told_written};
ghost use Rattle.calls_change.specs.Calls.{length_call, change_call};
ghost use Rattle.calls_change.specs.Inner.{needed_in, change_in};

use answers::zl_answer;
use model::{Kind, Layout, Reason};

// The bytes that a change to the kind of a number needs, in a layout.
#[tactic(auto, unfolding(crate::specs::Inner::needed_in))]
fn needed_in(layout: Layout, data: &[u8], new_kind: u32) -> zl_answer
    ensures { result ≡ told (needed_in layout «data».now new_kind) }
{
    let Some(k) = Kind::of(new_kind) else {
        return answers::no(model::refused(Reason::Sizes, 0, 0));
    };
    answers::counted(change_length::bytes_needed(layout, data, k))
}

// How many bytes a change of kind needs, or the first refusal; never no room.
#[tactic(auto, unfolding(crate::specs::Calls::length_call, crate::specs::Inner::needed_in))]
pub fn length(
    a: u32,
    d: u32,
    rows: u32,
    kind: u32,
    edition: u32,
    data: &[u8],
    new_kind: u32,
) -> zl_answer
    ensures { result ≡ told (length_call a d rows kind edition «data».now new_kind) }
{
    let Some(layout) = answers::layout_of(a, d, rows, kind, edition) else {
        return answers::no(model::refused(Reason::Sizes, 0, 0));
    };
    needed_in(layout, data, new_kind)
}

// The file in the kind of a number, in a layout, written at the front of `out`, or nothing is.
#[tactic(auto, unfolding(crate::specs::Inner::change_in))]
fn change_in(layout: Layout, data: &[u8], new_kind: u32, out: &mut [u8]) -> zl_answer
    ensures value { result ≡ told_written (change_in layout «data».now new_kind (length out.old)) }
    ensures out_after { out.new ≡ over (change_in layout «data».now new_kind (length out.old)) out.old }
{
    let Some(k) = Kind::of(new_kind) else {
        return answers::no(model::refused(Reason::Sizes, 0, 0));
    };
    answers::counted(change::change(layout, data, k, out))
}

// The file in another kind, written at the front of `out`, or nothing is.
#[tactic(auto, unfolding(crate::specs::Calls::change_call, crate::specs::Inner::change_in))]
pub fn change(
    a: u32,
    d: u32,
    rows: u32,
    kind: u32,
    edition: u32,
    data: &[u8],
    new_kind: u32,
    out: &mut [u8],
) -> zl_answer
    ensures value { result ≡ told_written (change_call a d rows kind edition «data».now new_kind (length out.old)) }
    ensures out_after { out.new ≡ over (change_call a d rows kind edition «data».now new_kind (length out.old)) out.old }
{
    let Some(layout) = answers::layout_of(a, d, rows, kind, edition) else {
        return answers::no(model::refused(Reason::Sizes, 0, 0));
    };
    change_in(layout, data, new_kind, out)
}
