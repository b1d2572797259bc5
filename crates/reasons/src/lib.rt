// What each refusal's number means, as text.
// put_reason gives, for any number and any room, exactly what the definition of specs/ says; a refusal changes no byte.
#![tactic(auto)]

ghost use Rattle.std.specs.Prelude.{◌≡◌, ◌^◌, ◌≤◌, ◌<◌, length};
ghost use Rattle.ground.specs.Said.{over};
ghost use Rattle.model.specs.Refusals.{written_of, FewBytes};
ghost use Rattle.reasons.specs.Reasons.{text_said, reason_said};

use model::{Reason, Refusal};

// The text is written at the front of `out`, or nothing is.
#[tactic(auto, unfolding(crate::specs::Reasons::text_said))]
fn say_text(text: &[u8], out: &mut [u8]) -> Result<usize, Refusal>
    requires { length text.now < 2 ^ 32 }
    ensures value { (result ≡ written_of (text_said text.now (length out.old))) × (FewBytes result) }
    ensures out_after { out.new ≡ over (text_said text.now (length out.old)) out.old }
{
    let size = text.len();
    if out.len() < size {
        return Err(model::refused(Reason::NoRoom, 0, 0));
    }
    Ok(pieces::put_all(out, 0, text))
}

// The meaning of a refusal's number is written at the front of `out`, or nothing is.
#[tactic(auto, unfolding(crate::specs::Reasons::reason_of, crate::specs::Reasons::reason_said))]
pub fn put_reason(number: u32, out: &mut [u8]) -> Result<usize, Refusal>
    ensures value { (result ≡ written_of (reason_said number (length out.old))) × (FewBytes result) }
    ensures out_after { out.new ≡ over (reason_said number (length out.old)) out.old }
{
    let text: &[u8] = match number {
        1 => b"a configuration, read or to be written, of more than 65,536 bytes",
        2 => b"the file ends before or inside a line",
        3 => b"a byte outside 32 to 126 before the end of the line",
        4 => b"wrong number of fields",
        5 => b"wrong length or form of a field",
        6 => b"a number, date, kind or code that is not allowed",
        7 => b"a total, index, last row or maximum that does not agree",
        8 => b"an edition that is not 2013 or 1999",
        9 => b"bytes after the last line",
        10 => b"sizes, kind or edition not allowed",
        11 => b"wrong length of the file",
        12 => b"a row number that is not the row's",
        13 => b"a padding bit is set",
        14 => b"a text row or field is bad",
        15 => b"no such row",
        16 => b"a number does not fit its field",
        17 => b"no room",
        _ => return Err(model::refused(Reason::Sizes, 0, 0)),
    };
    say_text(text, out)
}
