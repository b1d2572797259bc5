// What an accepted configuration shows as places, whole numbers of 64 bits, as the exported calls show it.
// Each function gives exactly what the definition of its name says.
#![tactic(auto)]

ghost use Rattle.std.specs.Prelude.{◌≡◌, Some, [], ◌∷◌, ◌++◌, pos, length};
ghost use Rattle.model.specs.Editions.{year_of};
ghost use Rattle.config_places.specs.Configs.{count_places, last_places, moment_places, stamp_places, start_places, end_places, other_places, config_places};

use clock::{Moment, Span};
use config_rules::{Config, LastLines};
use model::{Edition, Kind};

// A number of 32 bits as a place.
fn number_place(v: u32) -> i64
    ensures { result ≡ pos v }
{
    words::plus(v as u64)
}

// Channels, rates and rows.
fn count_places(config: Config) -> [i64; 4]
    ensures { result ≡ count_places config }
{
    [
        number_place(config.layout.analogs),
        number_place(config.layout.statuses),
        number_place(config.rates),
        number_place(config.layout.rows),
    ]
}

// A date and a time of day.
fn moment_places(moment: Moment) -> [i64; 7]
    ensures { result ≡ moment_places moment }
{
    [
        number_place(moment.date.year),
        number_place(moment.date.month),
        number_place(moment.date.day),
        number_place(moment.time.hour),
        number_place(moment.time.minute),
        number_place(moment.time.second),
        number_place(moment.time.nanosecond),
    ]
}

// The same of a date line, or that it has none.
fn stamp_places(stamp: Option<Moment>) -> [i64; 7]
    ensures { result ≡ stamp_places stamp }
{
    match stamp {
        Some(moment) => moment_places(moment),
        None => [row_places::NONE; 7],
    }
}

// The time before the trigger, or that it is unknown; and the kind.
fn start_places(pretrigger: Option<Span>, kind: Kind) -> [i64; 3]
    ensures { result ≡ start_places pretrigger kind }
{
    let number = number_place(kind.number());
    match pretrigger {
        Some(span) => [span.seconds, number_place(span.nanoseconds), number],
        None => [row_places::NONE, row_places::NONE, number],
    }
}

// What the last two lines say.
fn line_places(lines: LastLines) -> [i64; 5]
    ensures { result ≡ end_places (Some lines) }
{
    [
        lines.code,
        row_places::bool_place(lines.x),
        lines.local,
        number_place(lines.quality),
        number_place(lines.leap),
    ]
}

// The same, or that there is none of it.
fn end_places(last: Option<LastLines>) -> [i64; 5]
    ensures { result ≡ end_places last }
{
    match last {
        Some(lines) => line_places(lines),
        None => [row_places::NONE; 5],
    }
}

// The last rows fill the slice.
fn put_lasts(lasts: &[u32], d: &mut [i64])
    requires { (length lasts.now ≡ 8) × (length d.old ≡ 8) }
    ensures { d.new ≡ last_places lasts.now }
{
    for (i, place) in d.iter_mut().enumerate() {
        *place = number_place(lasts[i]);
    }
}

// Counts and last rows fill the slice.
fn put_counts(config: Config, d: &mut [i64])
    requires { length d.old ≡ 12 }
    ensures { d.new ≡ count_places config ++ last_places config.lasts }
{
    d[..4].copy_from_slice(&count_places(config));
    put_lasts(&config.lasts, &mut d[4..]);
}

// Two date lines fill the slice.
fn put_stamps(first: Option<Moment>, trigger: Option<Moment>, d: &mut [i64])
    requires { length d.old ≡ 14 }
    ensures { d.new ≡ stamp_places first ++ stamp_places trigger }
{
    d[..7].copy_from_slice(&stamp_places(first));
    d[7..].copy_from_slice(&stamp_places(trigger));
}

// What the last lines say and the edition's year fill the slice.
fn put_end(last: Option<LastLines>, edition: Edition, d: &mut [i64])
    requires { length d.old ≡ 6 }
    ensures { d.new ≡ end_places last ++ (pos (year_of edition) ∷ []) }
{
    d[..5].copy_from_slice(&end_places(last));
    d[5..].copy_from_slice(&[number_place(edition.year())]);
}

// What follows the dates fills the slice.
fn put_others(config: Config, d: &mut [i64])
    requires { length d.old ≡ 9 }
    ensures { d.new ≡ other_places config }
{
    let layout = config.layout;
    d[..3].copy_from_slice(&start_places(config.pretrigger, layout.kind));
    put_end(config.last, layout.edition, &mut d[3..]);
}

// The dates and what follows them fill the slice.
fn put_rest(config: Config, d: &mut [i64])
    requires { length d.old ≡ 23 }
    ensures { d.new ≡ (stamp_places config.first ++ stamp_places config.trigger) ++ other_places config }
{
    put_stamps(config.first, config.trigger, &mut d[..14]);
    put_others(config, &mut d[14..]);
}

// The places of a configuration fill the slice.
#[tactic(auto, unfolding(crate::specs::Configs::config_places))]
pub fn put_config(config: Config, d: &mut [i64])
    requires { length d.old ≡ 35 }
    ensures { d.new ≡ config_places config }
{
    put_counts(config, &mut d[..12]);
    put_rest(config, &mut d[12..]);
}
