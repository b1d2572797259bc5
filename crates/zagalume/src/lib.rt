// The exported calls, on plain numbers and lent slices: what C and Rust link.
// Each hands on to the call of its subject (crates calls_config, calls_data, calls_change, calls_rewrite, calls_reason), and promises what that promises.
#![tactic(auto)]

ghost use Rattle.std.specs.Prelude.{◌≡◌, length};
ghost use Rattle.ground.specs.Said.{over};
ghost use Rattle.reasons.specs.Reasons.{reason_said};
ghost use Rattle.answers.specs.Answers.{told, told_written, told_shown};
ghost use Rattle.calls_config.specs.Calls.{config_call};
ghost use Rattle.calls_data.specs.Calls.{check_call, row_call, write_call};
ghost use Rattle.calls_change.specs.Calls.{length_call, change_call};
ghost use Rattle.calls_rewrite.specs.Calls.{write_config_call};

use answers::zl_answer;

// What an accepted configuration shows, as 35 places, or the first refusal; no room last of all.
#[unsafe(no_mangle)]
pub extern "C" fn zl_config(cfg: &[u8], shown: &mut [i64]) -> zl_answer
    ensures value { result ≡ told_shown (config_call cfg.now (length shown.old)) }
    ensures shown_after { shown.new ≡ over (config_call cfg.now (length shown.old)) shown.old }
{
    calls_config::config(cfg, shown)
}

// Whether a data file is accepted, or the first refusal.
#[unsafe(no_mangle)]
pub extern "C" fn zl_check(
    a: u32,
    d: u32,
    rows: u32,
    kind: u32,
    edition: u32,
    data: &[u8],
) -> zl_answer
    ensures { result ≡ told (check_call a d rows kind edition «data».now) }
{
    calls_data::check(a, d, rows, kind, edition, data)
}

// Time, samples and statuses of row n, as 1 + A + D places, or the first refusal; no room last of all.
#[unsafe(no_mangle)]
pub extern "C" fn zl_row(
    a: u32,
    d: u32,
    rows: u32,
    kind: u32,
    edition: u32,
    data: &[u8],
    n: u32,
    shown: &mut [i64],
) -> zl_answer
    ensures value { result ≡ told_shown (row_call a d rows kind edition «data».now n (length shown.old)) }
    ensures shown_after { shown.new ≡ over (row_call a d rows kind edition «data».now n (length shown.old)) shown.old }
{
    calls_data::row(a, d, rows, kind, edition, data, n, shown)
}

// The places of row n, written at the front of `out` as bytes of the kind, or nothing is.
#[unsafe(no_mangle)]
pub extern "C" fn zl_write_row(
    a: u32,
    d: u32,
    rows: u32,
    kind: u32,
    edition: u32,
    n: u32,
    row: &[i64],
    out: &mut [u8],
) -> zl_answer
    ensures value { result ≡ told_written (write_call a d rows kind edition n row.now (length out.old)) }
    ensures out_after { out.new ≡ over (write_call a d rows kind edition n row.now (length out.old)) out.old }
{
    calls_data::write_row(a, d, rows, kind, edition, n, row, out)
}

// How many bytes a change of kind needs, or the first refusal; never no room.
#[unsafe(no_mangle)]
pub extern "C" fn zl_length(
    a: u32,
    d: u32,
    rows: u32,
    kind: u32,
    edition: u32,
    data: &[u8],
    new_kind: u32,
) -> zl_answer
    ensures { result ≡ told (length_call a d rows kind edition «data».now new_kind) }
{
    calls_change::length(a, d, rows, kind, edition, data, new_kind)
}

// The file in another kind, written at the front of `out`, or nothing is.
#[unsafe(no_mangle)]
pub extern "C" fn zl_change(
    a: u32,
    d: u32,
    rows: u32,
    kind: u32,
    edition: u32,
    data: &[u8],
    new_kind: u32,
    out: &mut [u8],
) -> zl_answer
    ensures value { result ≡ told_written (change_call a d rows kind edition «data».now new_kind (length out.old)) }
    ensures out_after { out.new ≡ over (change_call a d rows kind edition «data».now new_kind (length out.old)) out.old }
{
    calls_change::change(a, d, rows, kind, edition, data, new_kind, out)
}

// The configuration in a kind, written at the front of `out`, or nothing is.
#[unsafe(no_mangle)]
pub extern "C" fn zl_write_config(cfg: &[u8], kind: u32, out: &mut [u8]) -> zl_answer
    ensures value { result ≡ told_written (write_config_call cfg.now kind (length out.old)) }
    ensures out_after { out.new ≡ over (write_config_call cfg.now kind (length out.old)) out.old }
{
    calls_rewrite::write_config(cfg, kind, out)
}

// The meaning of a refusal's number, written at the front of `out` as text, or nothing is.
#[unsafe(no_mangle)]
pub extern "C" fn zl_reason(number: u32, out: &mut [u8]) -> zl_answer
    ensures value { result ≡ told_written (reason_said number (length out.old)) }
    ensures out_after { out.new ≡ over (reason_said number (length out.old)) out.old }
{
    calls_reason::reason(number, out)
}
