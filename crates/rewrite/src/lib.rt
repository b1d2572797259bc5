// A configuration written again in a kind: its lines one after the other, each with CR LF.
// write_config answers for any bytes, any kind and any room exactly as the definition `rewrite_said` says; a refusal changes no byte. Everything is decided in one walk over the lines before the first byte is written in another.
#![tactic(auto)]

ghost use Rattle.std.specs.Prelude.{◌≡◌, [], ◌∷◌, ◌++◌, ◌+◌, ◌≤◌, length};
ghost use Rattle.ground.specs.Said.{over};
ghost use Rattle.model.specs.Refusals.{written_of, FewBytes};
ghost use Rattle.pieces.specs.Inner.{Put};
ghost use Rattle.rewrite_lines.specs.Lines.{line_text};
ghost use Rattle.rewrite.specs.Rewrite.{rewritten, result_said, rewrite_said};
ghost use Rattle.rewrite.specs.Inner.{in_edition};

use config_rules::Config;
use model::{Kind, Reason, Refusal};
use rewrite_lines::LineSort;

// The most bytes of a configuration.
const MOST: usize = 65536;

// How many bytes a configuration takes as it is written.
fn rewritten_length(config: Config, kind: Kind, cfg: &[u8]) -> usize
    requires { length cfg.now ≤ 65536 }
    ensures { result ≡ length (rewritten config kind cfg.now) }
{
    let lines = rewrite_sorts::line_count(config);
    let mut size = 0;
    let mut at = 0;
    for n in 0..lines {
        let cut = rewrite_sorts::cut_line(&cfg[at..]);
        let end = at + cut.len;
        size += 2
            + rewrite_lines::line_length(kind, rewrite_sorts::sort_of(config, n), &cfg[at..end]);
        at += cut.taken;
    }
    size
}

// A line is put as it is written, with its end.
fn put_ended(out: &mut [u8], n: usize, kind: Kind, sort: LineSort, line: &[u8]) -> usize
    requires { n + length (line_text kind sort line.now) + 2 ≤ length out.old }
    ensures { Put out.old n (line_text kind sort line.now ++ 13 ∷ 10 ∷ []) out.new result }
{
    let m = rewrite_lines::put_line(out, n, kind, sort, line);
    pieces::put_all(out, m, b"\r\n")
}

// A configuration is put as it is written.
fn put_rewritten(out: &mut [u8], config: Config, kind: Kind, cfg: &[u8]) -> usize
    requires { length (rewritten config kind cfg.now) ≤ length out.old }
    ensures { Put out.old 0 (rewritten config kind cfg.now) out.new result }
{
    let lines = rewrite_sorts::line_count(config);
    let mut to = 0;
    let mut at = 0;
    for n in 0..lines {
        let cut = rewrite_sorts::cut_line(&cfg[at..]);
        let end = at + cut.len;
        to = put_ended(
            out,
            to,
            kind,
            rewrite_sorts::sort_of(config, n),
            &cfg[at..end],
        );
        at += cut.taken;
    }
    to
}

// A configuration that was accepted is written at the front of `out`, or nothing is.
#[tactic(auto, unfolding(crate::specs::Rewrite::result_said))]
fn rewrite(config: Config, kind: Kind, cfg: &[u8], out: &mut [u8]) -> Result<usize, Refusal>
    requires { length cfg.now ≤ 65536 }
    ensures value { (result ≡ written_of (result_said (rewritten config kind cfg.now) (length out.old))) × (FewBytes result) }
    ensures out_after { out.new ≡ over (result_said (rewritten config kind cfg.now) (length out.old)) out.old }
{
    let size = rewritten_length(config, kind, cfg);
    if MOST < size {
        return Err(model::refused(Reason::TooLong, 0, 0));
    }
    if out.len() < size {
        return Err(model::refused(Reason::NoRoom, 0, 0));
    }
    Ok(put_rewritten(out, config, kind, cfg))
}

// The same, where the edition has the kind.
#[tactic(auto, unfolding(crate::specs::Inner::in_edition))]
fn rewrite_in(config: Config, kind: Kind, cfg: &[u8], out: &mut [u8]) -> Result<usize, Refusal>
    requires { length cfg.now ≤ 65536 }
    ensures value { (result ≡ written_of (in_edition config kind cfg.now (length out.old))) × (FewBytes result) }
    ensures out_after { out.new ≡ over (in_edition config kind cfg.now (length out.old)) out.old }
{
    if !config.layout.edition.has(kind) {
        return Err(model::refused(Reason::Sizes, 0, 0));
    }
    rewrite(config, kind, cfg, out)
}

// A configuration is written in a kind at the front of `out`, or nothing is.
#[tactic(auto, unfolding(crate::specs::Rewrite::rewrite_said, crate::specs::Inner::in_edition))]
pub fn write_config(cfg: &[u8], kind: Kind, out: &mut [u8]) -> Result<usize, Refusal>
    ensures value { (result ≡ written_of (rewrite_said cfg.now kind (length out.old))) × (FewBytes result) }
    ensures out_after { out.new ≡ over (rewrite_said cfg.now kind (length out.old)) out.old }
{
    let config = config::read_config(cfg)?;
    rewrite_in(config, kind, cfg, out)
}
