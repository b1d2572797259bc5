// What is wrong with a field of a configuration's line, and the fault of a line.
// Each check answers for any bytes: why the field is refused, or that it is fine.
#![tactic(auto)]

ghost use Rattle.std.specs.Prelude.{◌≡◌};
ghost use Rattle.ground.specs.Said.{answer_of};
ghost use Rattle.model.specs.Refusals.{numbered};
ghost use Rattle.line_fields.specs.Faults.{checked, error_number, text_fault, index_fault, real_fault, frequency_fault, above_fault, zero_fault, rate_fault, side_fault, state_fault};
ghost use Rattle.line_fields.specs.Checks.{has_fields, value_at, fine_at};

use model::Reason;
use numerals::FieldError;
use reals::Sign;

// Why a line is refused, and its field; field 0 is the whole line.
#[derive(Clone, Copy)]
pub struct Fault {
    pub reason: Reason,
    pub field: u32,
}

// A fault.
pub fn at(reason: Reason, field: u32) -> Fault
    ensures { result ≡ record { reason = reason; field = field } }
{
    Fault {
        reason: reason,
        field: field,
    }
}

// Why a field is refused that says no value.
pub fn error_reason(error: FieldError) -> Reason
    ensures { result ≡ numbered (error_number error) }
{
    match error {
        FieldError::Form => Reason::Form,
        FieldError::Range => Reason::NotAllowed,
    }
}

// A line has so many fields.
pub fn has_fields(line: &[u8], count: usize) -> Result<(), Fault>
    ensures { result ≡ answer_of (has_fields count line.now) }
{
    if text::field_count(line) != count {
        return Err(at(Reason::FieldCount, 0));
    }
    Ok(())
}

// What was read in a field, or the line's fault.
pub fn value_at<T>(field: u32, read: Result<T, FieldError>) -> Result<T, Fault>
    ensures { result ≡ answer_of (value_at field read) }
{
    read.map_err(|error| at(error_reason(error), field))
}

// That a field is fine, or the line's fault.
pub fn fine_at(field: u32, check: Result<(), Reason>) -> Result<(), Fault>
    ensures { result ≡ fine_at field check }
{
    check.map_err(|reason| at(reason, field))
}

// What is wrong with a field.
#[tactic(auto, unfolding(crate::specs::Faults::text_fault))]
pub fn text_fault(field: &[u8], least: usize, most: usize) -> Result<(), Reason>
    ensures { result ≡ checked (text_fault least most field.now) }
{
    if !numerals::length_in(field, least, most) {
        return Err(Reason::Form);
    }
    Ok(())
}

#[tactic(auto, unfolding(crate::specs::Faults::index_fault))]
pub fn index_fault(field: &[u8], i: u64) -> Result<(), Reason>
    ensures { result ≡ checked (index_fault i field.now) }
{
    let v = numerals::read_count(field, 1, 6).ok_or(Reason::Form)?;
    if v != i {
        return Err(Reason::Disagrees);
    }
    Ok(())
}

#[tactic(auto, unfolding(crate::specs::Faults::real_fault))]
pub fn real_fault(field: &[u8]) -> Result<(), Reason>
    ensures { result ≡ checked (real_fault field.now) }
{
    match reals::read_real(field, 1, 32) {
        Some(_) => Ok(()),
        None => Err(Reason::Form),
    }
}

#[tactic(auto, unfolding(crate::specs::Faults::frequency_fault))]
pub fn frequency_fault(field: &[u8]) -> Result<(), Reason>
    ensures { result ≡ checked (frequency_fault field.now) }
{
    if field.is_empty() {
        return Ok(());
    }
    real_fault(field)
}

#[tactic(auto, unfolding(crate::specs::Faults::above_fault))]
pub fn above_fault(field: &[u8]) -> Result<(), Reason>
    ensures { result ≡ checked (above_fault field.now) }
{
    match reals::read_real(field, 1, 32) {
        Some(Sign::Above) => Ok(()),
        Some(Sign::Below | Sign::Zero) => Err(Reason::NotAllowed),
        None => Err(Reason::Form),
    }
}

#[tactic(auto, unfolding(crate::specs::Faults::zero_fault))]
pub fn zero_fault(field: &[u8]) -> Result<(), Reason>
    ensures { result ≡ checked (zero_fault field.now) }
{
    match reals::read_real(field, 1, 32) {
        Some(Sign::Zero) => Ok(()),
        Some(Sign::Below | Sign::Above) => Err(Reason::NotAllowed),
        None => Err(Reason::Form),
    }
}

pub fn rate_fault(field: &[u8], none: bool) -> Result<(), Reason>
    ensures { result ≡ checked (rate_fault none field.now) }
{
    if none {
        return zero_fault(field);
    }
    above_fault(field)
}

pub fn side_fault(field: &[u8]) -> Result<(), Reason>
    ensures { result ≡ checked (side_fault field.now) }
{
    fields::read_side(field).map_err(error_reason)?;
    Ok(())
}

pub fn state_fault(field: &[u8]) -> Result<(), Reason>
    ensures { result ≡ checked (state_fault field.now) }
{
    fields::read_state(field).map_err(error_reason)?;
    Ok(())
}
