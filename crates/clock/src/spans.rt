// Seconds counted over the days, and the pre-trigger time.
ghost use Rattle.std.specs.Prelude.{◌≡◌, true, Some};
ghost use Rattle.clock.specs.Dates.{valid_date};
ghost use Rattle.clock.specs.Times.{valid_time};
ghost use Rattle.clock.specs.Spans.{second_number, pre_trigger, Calendar, pretrigger_of};

use crate::dates::day_number;
use crate::times::second_of_day;
use crate::{Date, Moment, Span, Time};

// The number of the second.
#[tactic(auto, unfolding(crate::specs::Spans::second_number))]
pub fn second_number(date: Date, time: Time) -> i64
    requires { (valid_date date ≡ true) × (valid_time time ≡ true) }
    ensures { result ≡ second_number date time }
{
    day_number(date) * 86400 + words::plus(second_of_day(time) as u64)
}

// Trigger minus first sample, the seconds rounded down.
#[tactic(auto, unfolding(crate::specs::Spans::pre_trigger, crate::specs::Spans::span_of))]
pub fn pre_trigger(
    first_date: Date,
    first_time: Time,
    trigger_date: Date,
    trigger_time: Time,
) -> Span
    requires { (valid_date first_date ≡ true) × (valid_time first_time ≡ true) × (valid_date trigger_date ≡ true) × (valid_time trigger_time ≡ true) }
    ensures { result ≡ pre_trigger first_date first_time trigger_date trigger_time }
{
    let first = first_time.nanosecond;
    let trigger = trigger_time.nanosecond;
    let seconds = second_number(trigger_date, trigger_time) - second_number(first_date, first_time);
    if first <= trigger {
        return Span {
            seconds,
            nanoseconds: trigger - first,
        };
    }
    let less = seconds - 1;
    let nanoseconds = trigger + 1_000_000_000 - first;
    Span {
        seconds: less,
        nanoseconds,
    }
}

// The time from a first sample that has a date.
#[tactic(auto, unfolding(crate::specs::Spans::pretrigger_of))]
fn pretrigger_from(first: Moment, trigger: Option<Moment>) -> Option<Span>
    requires { Calendar (Some first) × Calendar trigger }
    ensures { result ≡ pretrigger_of (Some first) trigger }
{
    let moment = trigger?;
    Some(pre_trigger(first.date, first.time, moment.date, moment.time))
}

// Trigger minus first sample, where both have a date.
#[tactic(auto, unfolding(crate::specs::Spans::pretrigger_of))]
pub fn pretrigger_of(first: Option<Moment>, trigger: Option<Moment>) -> Option<Span>
    requires { Calendar first × Calendar trigger }
    ensures { result ≡ pretrigger_of first trigger }
{
    let moment = first?;
    pretrigger_from(moment, trigger)
}
