// The lines of a configuration that is written again: how many there are, what is done with each, and where one ends.
// Each function gives exactly what the definition of its name says, on any configuration and any bytes.
#![tactic(auto)]

ghost use Rattle.std.specs.Prelude.{◌≡◌, ◌^◌, ◌≤◌, max, length, get_or};
ghost use Rattle.rewrite_lines.specs.declared.LineSort.TheVariants.{Kept};
ghost use Rattle.rewrite_sorts.specs.Sorts.{end_sorts, last_sorts, rate_sorts, channel_sorts, sorts};
ghost use Rattle.rewrite_sorts.specs.Cuts.{cut_line};

use config_rules::Config;
use model::Edition;
use rewrite_lines::LineSort;
use text::Line;

// How many lines of rates there are: no rates have one line all the same.
fn rate_lines(rates: u32) -> usize
    ensures { result ≡ max 1 rates }
{
    rates.max(1) as usize
}

// How many lines follow that of the time multiplier.
fn end_lines(edition: Edition) -> usize
    ensures { result ≡ length (end_sorts edition) }
{
    match edition {
        Edition::Y2013 => 2,
        Edition::Y1999 => 0,
    }
}

// How many lines a configuration has.
#[tactic(auto, unfolding(crate::specs::Sorts::sorts))]
pub fn line_count(config: Config) -> usize
    ensures value { result ≡ length (sorts config) }
    ensures upper_bound { result ≤ 2 ^ 34 }
{
    let layout = config.layout;
    let a = layout.analogs as usize;
    let d = layout.statuses as usize;
    8 + a + d + rate_lines(config.rates) + end_lines(layout.edition)
}

// What is done with the n-th line after that of the time multiplier, counted from 0.
fn end_sort(edition: Edition, n: usize) -> LineSort
    ensures { result ≡ get_or (end_sorts edition) n Kept }
{
    match (edition, n) {
        (Edition::Y2013, 0) => LineSort::Numbers,
        _ => LineSort::Kept,
    }
}

// What is done with the n-th of the last lines, counted from 0.
fn last_sort(edition: Edition, n: usize) -> LineSort
    ensures { result ≡ get_or (last_sorts edition) n Kept }
{
    match n {
        0 | 1 => LineSort::Kept,
        2 => LineSort::Word,
        3 => LineSort::Numbers,
        _ => end_sort(edition, n - 4),
    }
}

// What is done with the n-th line from the line frequency on, counted from 0.
fn rate_sort(edition: Edition, rates: u32, n: usize) -> LineSort
    ensures { result ≡ get_or (rate_sorts edition rates) n Kept }
{
    let m = 2 + rate_lines(rates);
    if n < m {
        LineSort::Numbers
    } else {
        last_sort(edition, n - m)
    }
}

// What is done with the n-th line from the first channel on, counted from 0.
fn channel_sort(config: Config, n: usize) -> LineSort
    ensures { result ≡ get_or (channel_sorts config) n Kept }
{
    let layout = config.layout;
    let a = layout.analogs as usize;
    let d = layout.statuses as usize;
    if n < a {
        LineSort::Analog
    } else if n - a < d {
        LineSort::Status
    } else {
        rate_sort(layout.edition, config.rates, n - a - d)
    }
}

// What is done with the n-th line of a configuration, counted from 0.
#[tactic(auto, unfolding(crate::specs::Sorts::sorts))]
pub fn sort_of(config: Config, n: usize) -> LineSort
    ensures { result ≡ get_or (sorts config) n Kept }
{
    match n {
        0 => LineSort::Kept,
        1 => LineSort::Numbers,
        _ => channel_sort(config, n - 2),
    }
}

// The line with which s begins; one of no bytes where there is none.
#[tactic(auto, unfolding(crate::specs::Cuts::cut_line))]
pub fn cut_line(s: &[u8]) -> Line
    ensures value { result ≡ cut_line s.now }
    ensures len_le_taken { (result.len ≤ result.taken) × (result.taken ≤ length s.now) }
{
    text::scan_last_line(s, s.len()).unwrap_or(Line { len: 0, taken: 0 })
}
