// The exported call on a refusal's number: zl_reason.
// It answers every combination of its arguments, and gives exactly what the definition of crate reasons says; a refusal changes no lent byte.
#![tactic(auto)]

ghost use Rattle.std.specs.Prelude.{◌≡◌, length};
ghost use Rattle.ground.specs.Said.{over};
ghost use Rattle.reasons.specs.Reasons.{reason_said};
ghost use Rattle.answers.specs.Answers.{told_written};

use answers::zl_answer;

// The meaning of a refusal's number, written at the front of `out` as text, or nothing is.
pub fn reason(number: u32, out: &mut [u8]) -> zl_answer
    ensures value { result ≡ told_written (reason_said number (length out.old)) }
    ensures out_after { out.new ≡ over (reason_said number (length out.old)) out.old }
{
    answers::counted(reasons::put_reason(number, out))
}
