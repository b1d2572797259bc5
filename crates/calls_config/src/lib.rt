// The exported call on a configuration: zl_config.
// It answers every combination of its arguments, and gives exactly what the definition of its name says; a refusal changes no lent place.
#![tactic(auto)]

ghost use Rattle.std.specs.Prelude.{◌≡◌, length};
ghost use Rattle.ground.specs.Said.{over};
ghost use Rattle.config_places.specs.Configs.{config_places};
ghost use Rattle.answers.specs.Answers.{told_shown, placed};
ghost use Rattle.calls_config.specs.Calls.{config_call};

use answers::zl_answer;
use config_rules::Config;
use model::Reason;

// The places of a configuration.
const CONFIG: usize = 35;

// The places of a configuration, where there is room.
fn show_config(config: Config, shown: &mut [i64]) -> zl_answer
    ensures value { result ≡ told_shown (placed 35 (config_places config) (length shown.old)) }
    ensures shown_after { shown.new ≡ over (placed 35 (config_places config) (length shown.old)) shown.old }
{
    if shown.len() < CONFIG {
        return answers::no(model::refused(Reason::NoRoom, 0, 0));
    }
    config_places::put_config(config, &mut shown[..CONFIG]);
    answers::yes(0)
}

// What an accepted configuration shows, as 35 places, or the first refusal; no room last of all.
#[tactic(auto, unfolding(crate::specs::Calls::config_call))]
pub fn config(cfg: &[u8], shown: &mut [i64]) -> zl_answer
    ensures value { result ≡ told_shown (config_call cfg.now (length shown.old)) }
    ensures shown_after { shown.new ≡ over (config_call cfg.now (length shown.old)) shown.old }
{
    match config::read_config(cfg) {
        Ok(found) => show_config(found, shown),
        Err(refusal) => answers::no(refusal),
    }
}
