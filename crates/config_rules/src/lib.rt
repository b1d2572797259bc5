// The rules of a configuration's lines: what a line must be, what it adds to the configuration, and which rule comes next.
// Each function gives exactly what the definition of its name says, on any bytes; the rule of a line is found from what the lines before it said, never from the bytes.
#![tactic(auto)]

ghost use Rattle.std.specs.Prelude.{◌≡◌, OnErr};
ghost use Rattle.ground.specs.Said.{answer_of};
ghost use Rattle.config_rules.specs.Inner.{after_analog, after_status, after_rate, after_multiplier, with_last, qualified, taken_by, take_line, Ready};

use clock::{Moment, Span};
use line_fields::Fault;
use model::{Edition, Kind, Layout};

// What the last two lines say, where the edition has them: time code, whether the local code is x, local code, quality, leap second code.
#[derive(Clone, Copy)]
pub struct LastLines {
    pub code: i64,
    pub x: bool,
    pub local: i64,
    pub quality: u32,
    pub leap: u32,
}

// What an accepted configuration shows.
#[derive(Clone, Copy)]
pub struct Config {
    pub layout: Layout,
    pub rates: u32,
    pub lasts: [u32; 8],
    pub first: Option<Moment>,
    pub trigger: Option<Moment>,
    pub pretrigger: Option<Span>,
    pub last: Option<LastLines>,
}

// The rule of the next line: the i-th channel from 1, the i-th rate from 0; or no line is left.
#[derive(Clone, Copy)]
pub enum Rule {
    Station,
    Counts,
    Analog(u32),
    Status(u32),
    Frequency,
    RateCount,
    Rate(u32),
    First,
    Trigger,
    KindWord,
    Multiplier,
    Codes,
    Quality,
    Done,
}

// The rule after that of analog channel i; where i is 0, of the first.
#[tactic(auto, unfolding(crate::specs::Inner::after_analog))]
fn after_analog(i: u32, analogs: u32, statuses: u32) -> Rule
    ensures { result ≡ after_analog i analogs statuses }
{
    if i < analogs {
        return Rule::Analog(i + 1);
    }
    after_status(0, statuses)
}

// The rule after that of status channel i, likewise.
#[tactic(auto, unfolding(crate::specs::Inner::after_status))]
fn after_status(i: u32, statuses: u32) -> Rule
    ensures { result ≡ after_status i statuses }
{
    if i < statuses {
        return Rule::Status(i + 1);
    }
    Rule::Frequency
}

// The rule after that of rate i, counted from 0; no rates have one line all the same.
#[tactic(auto, unfolding(crate::specs::Inner::after_rate))]
fn after_rate(i: u32, rates: u32) -> Rule
    ensures { result ≡ after_rate i rates }
{
    if i < rates.saturating_sub(1) {
        return Rule::Rate(i + 1);
    }
    Rule::First
}

// The rule after that of the time multiplier, which is the last line of 1999.
#[tactic(auto, unfolding(crate::specs::Inner::after_multiplier))]
fn after_multiplier(edition: Edition) -> Rule
    ensures { result ≡ after_multiplier edition }
{
    match edition {
        Edition::Y2013 => Rule::Codes,
        Edition::Y1999 => Rule::Done,
    }
}

// The last row of rate i, which is the number of rows so far.
fn put_last(c: &mut Config, i: u32, last: u32)
    ensures { c.new ≡ with_last i last c.old }
{
    c.layout.rows = last;
    let j = i as usize;
    if j < 8 {
        c.lasts[j] = last;
    }
}

// Station, device, year.
#[tactic(auto, unfolding(crate::specs::Inner::take_line, crate::specs::Inner::with_edition))]
fn take_station(line: &[u8], c: &mut Config) -> Result<Rule, Fault>
    ensures value { taken_by result c.new ≡ answer_of (take_line Rule.Station c.old line.now) }
    ensures unchanged { OnErr result (c.new ≡ c.old) }
{
    let edition = config_lines::station_line(line)?;
    c.layout.edition = edition;
    Ok(Rule::Counts)
}

// TT, A and D: what is left to read follows from them.
#[tactic(auto, unfolding(crate::specs::Inner::take_line, crate::specs::Inner::with_counts))]
fn take_counts(line: &[u8], c: &mut Config) -> Result<Rule, Fault>
    ensures value { taken_by result c.new ≡ answer_of (take_line Rule.Counts c.old line.now) }
    ensures unchanged { OnErr result (c.new ≡ c.old) }
{
    let (analogs, statuses) = channel_lines::channels_line(line)?;
    let a = analogs as u32;
    let d = statuses as u32;
    c.layout.analogs = a;
    c.layout.statuses = d;
    Ok(after_analog(0, a, d))
}

// The number of rates.
#[tactic(auto, unfolding(crate::specs::Inner::take_line, crate::specs::Inner::with_rates))]
fn take_rate_count(line: &[u8], c: &mut Config) -> Result<Rule, Fault>
    ensures value { taken_by result c.new ≡ answer_of (take_line Rule.RateCount c.old line.now) }
    ensures unchanged { OnErr result (c.new ≡ c.old) }
{
    let rates = config_lines::rates_line(line)?;
    let e = rates as u32;
    c.rates = e;
    Ok(Rule::Rate(0))
}

// A rate and its last row, which must be above the one before it.
#[tactic(auto, unfolding(crate::specs::Inner::take_line))]
fn take_rate(line: &[u8], c: &mut Config, i: u32) -> Result<Rule, Fault>
    ensures value { taken_by result c.new ≡ answer_of (take_line (Rule.Rate i) c.old line.now) }
    ensures unchanged { OnErr result (c.new ≡ c.old) }
{
    let last = config_lines::rate_line(line, c.rates == 0, c.layout.rows as u64)?;
    let rates = c.rates;
    put_last(c, i, last as u32);
    Ok(after_rate(i, rates))
}

// The first sample's date and time, or that it has none; of the trigger nothing is known yet.
#[tactic(auto, unfolding(crate::specs::Inner::take_line))]
fn take_first(line: &[u8], c: &mut Config) -> Result<Rule, Fault>
    ensures value { taken_by result c.new ≡ answer_of (take_line Rule.First c.old line.now) }
    ensures unchanged { OnErr result (c.new ≡ c.old) }
{
    let first = config_lines::date_line(line)?;
    c.first = first;
    c.trigger = None;
    c.pretrigger = None;
    Ok(Rule::Trigger)
}

// The trigger's date and time, or that it has none, and the time before it.
#[tactic(auto, unfolding(crate::specs::Inner::take_line))]
fn take_trigger(line: &[u8], c: &mut Config) -> Result<Rule, Fault>
    requires { Ready Rule.Trigger c.old }
    ensures value { taken_by result c.new ≡ answer_of (take_line Rule.Trigger c.old line.now) }
    ensures unchanged { OnErr result (c.new ≡ c.old) }
{
    let trigger = config_lines::date_line(line)?;
    let pretrigger = clock::pretrigger_of(c.first, trigger);
    c.trigger = trigger;
    c.pretrigger = pretrigger;
    Ok(Rule::KindWord)
}

// The kind's word.
#[tactic(auto, unfolding(crate::specs::Inner::take_line, crate::specs::Shown::with_kind))]
fn take_kind(line: &[u8], c: &mut Config) -> Result<Rule, Fault>
    ensures value { taken_by result c.new ≡ answer_of (take_line Rule.KindWord c.old line.now) }
    ensures unchanged { OnErr result (c.new ≡ c.old) }
{
    let kind = config_lines::kind_line(line, c.layout.edition)?;
    c.layout.kind = kind;
    Ok(Rule::Multiplier)
}

// The time multiplier.
#[tactic(auto, unfolding(crate::specs::Inner::take_line))]
fn take_multiplier(line: &[u8], c: &Config) -> Result<Rule, Fault>
    ensures { taken_by result c.now ≡ answer_of (take_line Rule.Multiplier c.now line.now) }
{
    config_lines::multiplier_line(line)?;
    Ok(after_multiplier(c.layout.edition))
}

// The two time codes.
#[tactic(auto, unfolding(crate::specs::Inner::take_line, crate::specs::Inner::with_codes))]
fn take_codes(line: &[u8], c: &mut Config) -> Result<Rule, Fault>
    ensures value { taken_by result c.new ≡ answer_of (take_line Rule.Codes c.old line.now) }
    ensures unchanged { OnErr result (c.new ≡ c.old) }
{
    let (code, x, local) = config_lines::codes_line(line)?;
    let lines = LastLines {
        code: code,
        x: x,
        local: local,
        quality: 0,
        leap: 0,
    };
    c.last = Some(lines);
    Ok(Rule::Quality)
}

// The last lines with quality and leap second code.
#[tactic(auto, unfolding(crate::specs::Inner::qualified))]
fn qualified(last: Option<LastLines>, quality: u32, leap: u32) -> Option<LastLines>
    ensures { result ≡ qualified quality leap last }
{
    let lines = last?;
    Some(LastLines {
        quality: quality,
        leap: leap,
        ..lines
    })
}

// Quality and leap second code, on the last line.
#[tactic(auto, unfolding(crate::specs::Inner::take_line, crate::specs::Inner::with_quality))]
fn take_quality(line: &[u8], c: &mut Config) -> Result<Rule, Fault>
    ensures value { taken_by result c.new ≡ answer_of (take_line Rule.Quality c.old line.now) }
    ensures unchanged { OnErr result (c.new ≡ c.old) }
{
    let (quality, leap) = config_lines::quality_line(line)?;
    let last = qualified(c.last, quality as u32, leap as u32);
    c.last = last;
    Ok(Rule::Done)
}

// A line by its rule: what it says is put down, and the rule of the line after it is the result; or its fault.
#[tactic(auto, unfolding(crate::specs::Inner::take_line))]
pub fn take_line(line: &[u8], rule: Rule, c: &mut Config) -> Result<Rule, Fault>
    requires { Ready rule c.old }
    ensures value { taken_by result c.new ≡ answer_of (take_line rule c.old line.now) }
    ensures unchanged { OnErr result (c.new ≡ c.old) }
{
    match rule {
        Rule::Station => take_station(line, c),
        Rule::Counts => take_counts(line, c),
        Rule::Analog(i) => {
            channel_lines::analog_line(line, i as u64)?;
            Ok(after_analog(i, c.layout.analogs, c.layout.statuses))
        }
        Rule::Status(i) => {
            channel_lines::status_line(line, i as u64)?;
            Ok(after_status(i, c.layout.statuses))
        }
        Rule::Frequency => {
            config_lines::frequency_line(line)?;
            Ok(Rule::RateCount)
        }
        Rule::RateCount => take_rate_count(line, c),
        Rule::Rate(i) => take_rate(line, c, i),
        Rule::First => take_first(line, c),
        Rule::Trigger => take_trigger(line, c),
        Rule::KindWord => take_kind(line, c),
        Rule::Multiplier => take_multiplier(line, c),
        Rule::Codes => take_codes(line, c),
        Rule::Quality => take_quality(line, c),
        Rule::Done => Ok(Rule::Done),
    }
}
