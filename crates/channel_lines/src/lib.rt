// The lines of a configuration that speak of channels: how many there are, and one line for each.
// Each reader answers for any bytes: the line's values, or the number and field of its first refusal.
#![tactic(auto)]

ghost use Rattle.std.specs.Prelude.{◌≡◌};
ghost use Rattle.ground.specs.Said.{answer_of};
ghost use Rattle.channel_lines.specs.Channels.{channels_line, names, scale, limits, analog_line, status_line};

use line_fields::{
    Fault, at, fine_at, has_fields, index_fault, real_fault, side_fault, state_fault, text_fault,
    value_at,
};
use model::Reason;

// TT, A and D: the last two are said.
#[tactic(auto, unfolding(crate::specs::Channels::channels_line))]
pub fn channels_line(line: &[u8]) -> Result<(u64, u64), Fault>
    ensures { result ≡ answer_of (channels_line line.now) }
{
    has_fields(line, 3)?;
    let t = value_at(1, fields::read_count_in(text::field_at(line, 1), 6, 1, 352))?;
    let a = value_at(2, fields::read_lettered(text::field_at(line, 2), 65, 96))?;
    let d = value_at(3, fields::read_lettered(text::field_at(line, 3), 68, 256))?;
    if t != a + d {
        return Err(at(Reason::Disagrees, 3));
    }
    Ok((a, d))
}

// Min and max.
#[tactic(auto, unfolding(crate::specs::Channels::limits))]
fn limits_fault(line: &[u8]) -> Result<(), Fault>
    ensures { result ≡ answer_of (limits line.now) }
{
    let min = value_at(9, reals::read_limit(text::field_at(line, 9)))?;
    let max = value_at(10, reals::read_limit(text::field_at(line, 10)))?;
    if reals::max_below(max, min) {
        return Err(at(Reason::Disagrees, 10));
    }
    Ok(())
}

// The number of fields, index, name, phase and circuit of channel i.
#[tactic(auto, unfolding(crate::specs::Channels::names))]
fn names_fault(line: &[u8], count: usize, i: u64) -> Result<(), Fault>
    ensures { result ≡ answer_of (names count i line.now) }
{
    has_fields(line, count)?;
    fine_at(1, index_fault(text::field_at(line, 1), i))?;
    fine_at(2, text_fault(text::field_at(line, 2), 1, 128))?;
    fine_at(3, text_fault(text::field_at(line, 3), 0, 2))?;
    fine_at(4, text_fault(text::field_at(line, 4), 0, 64))
}

// Unit, a, b and skew.
#[tactic(auto, unfolding(crate::specs::Channels::scale))]
fn scale_fault(line: &[u8]) -> Result<(), Fault>
    ensures { result ≡ answer_of (scale line.now) }
{
    fine_at(5, text_fault(text::field_at(line, 5), 1, 32))?;
    fine_at(6, real_fault(text::field_at(line, 6)))?;
    fine_at(7, real_fault(text::field_at(line, 7)))?;
    fine_at(8, real_fault(text::field_at(line, 8)))
}

// The line of analog channel i.
#[tactic(auto, unfolding(crate::specs::Channels::analog_line))]
pub fn analog_line(line: &[u8], i: u64) -> Result<(), Fault>
    ensures { result ≡ answer_of (analog_line i line.now) }
{
    names_fault(line, 13, i)?;
    scale_fault(line)?;
    limits_fault(line)?;
    fine_at(11, real_fault(text::field_at(line, 11)))?;
    fine_at(12, real_fault(text::field_at(line, 12)))?;
    fine_at(13, side_fault(text::field_at(line, 13)))
}

// The line of status channel i.
#[tactic(auto, unfolding(crate::specs::Channels::status_line))]
pub fn status_line(line: &[u8], i: u64) -> Result<(), Fault>
    ensures { result ≡ answer_of (status_line i line.now) }
{
    names_fault(line, 5, i)?;
    fine_at(5, state_fault(text::field_at(line, 5)))
}
