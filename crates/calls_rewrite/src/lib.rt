// The exported call that writes a configuration: zl_write_config.
// It answers every combination of its arguments, and gives exactly what the definition of its name says; a refusal changes no lent byte.
#![tactic(auto)]

ghost use Rattle.std.specs.Prelude.{◌≡◌, length};
ghost use Rattle.ground.specs.Said.{over};
ghost use Rattle.answers.specs.Answers.{told_written};
ghost use Rattle.calls_rewrite.specs.Calls.{write_config_call};
ghost use Rattle.calls_rewrite.specs.Inner.{refusal_or};

use answers::zl_answer;
use config_rules::Config;
use model::{Kind, Reason, Refusal};

// What an answer refuses, or else another refusal.
fn refusal_or(answer: Result<Config, Refusal>, other: Refusal) -> Refusal
    ensures { result ≡ refusal_or answer other }
{
    answer.err().unwrap_or(other)
}

// The configuration in the kind of a number, written at the front of `out`, or nothing is.
pub fn write_config(cfg: &[u8], kind: u32, out: &mut [u8]) -> zl_answer
    ensures value { result ≡ told_written (write_config_call cfg.now kind (length out.old)) }
    ensures out_after { out.new ≡ over (write_config_call cfg.now kind (length out.old)) out.old }
{
    match Kind::of(kind) {
        Some(k) => answers::counted(rewrite::write_config(cfg, k, out)),
        None => answers::no(refusal_or(
            config::read_config(cfg),
            model::refused(Reason::Sizes, 0, 0),
        )),
    }
}
