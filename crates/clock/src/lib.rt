// Dates and no date, times of day, days and seconds as i64, the pre-trigger time.
// Each reader answers for any bytes what the definition of its name says; what it takes for a date or a time is one, and pre_trigger is exact for all of them; pretrigger_of tells where there is none.
#![tactic(auto)]

pub mod dates;
pub mod spans;
pub mod times;

pub use dates::{day_number, read_date, valid_date};
pub use spans::{pre_trigger, pretrigger_of, second_number};
pub use times::{is_zero_time, read_time, valid_time};

#[derive(Clone, Copy)]
pub struct Date {
    pub day: u32,
    pub month: u32,
    pub year: u32,
}

#[derive(Clone, Copy)]
pub struct Time {
    pub hour: u32,
    pub minute: u32,
    pub second: u32,
    pub nanosecond: u32,
}

// A date and a time.
#[derive(Clone, Copy)]
pub struct Moment {
    pub date: Date,
    pub time: Time,
}

// A signed time: whole seconds, rounded down, and the nanoseconds above them.
#[derive(Clone, Copy)]
pub struct Span {
    pub seconds: i64,
    pub nanoseconds: u32,
}
