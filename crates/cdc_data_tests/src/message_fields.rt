//! Each field of a body in turn: left out, of another kind, and with a number that is one too large.

use crate::message::{IN_ORDER, field};
use cdc_message::{DecodeError, Field, FieldName, Part, decode};
use std::alloc::{AllocError, Global};
use std::process::Abort;
use std::test::Fail;

// A field that gets another value, or none.
type Change = Option<(Field, Option<&'static str>)>;

// A number's name, its value in `IN_ORDER`, and a value that is one too large.
type Number = (FieldName, &'static str, &'static str);

const LARGE_128: &str = "\"340282366920938463463374607431768211456\"";

const LARGE_64: &str = "\"18446744073709551616\"";

const LARGE_32: &str = "4294967296";

const LARGE_16: &str = "65536";

// Values that aren't whole numbers, in digits or as a decimal string.
const NO_NUMBERS: [&str; 10] = [
    "true", "null", "[]", "{}", "\"\"", "\"x\"", "\"+1\"", "-1", "1.0", "1e2",
];

// Values that aren't strings, and values that aren't objects.
const NO_TEXTS: [&str; 5] = ["1", "true", "null", "[]", "{}"];

const NO_OBJECTS: [&str; 5] = ["1", "true", "null", "[]", "\"\""];

const TRANSFER: [Number; 10] = [
    (FieldName::Id, "\"1\"", LARGE_128),
    (FieldName::Amount, "\"100\"", LARGE_128),
    (FieldName::PendingId, "\"0\"", LARGE_128),
    (FieldName::UserData128, "\"0\"", LARGE_128),
    (FieldName::UserData64, "\"0\"", LARGE_64),
    (FieldName::UserData32, "0", LARGE_32),
    (FieldName::Timeout, "0", LARGE_32),
    (FieldName::Code, "1", LARGE_16),
    (FieldName::Flags, "0", LARGE_16),
    (FieldName::Timestamp, "\"2000\"", LARGE_64),
];

const DEBIT: [Number; 11] = [
    (FieldName::Id, "\"1\"", LARGE_128),
    (FieldName::DebitsPending, "\"0\"", LARGE_128),
    (FieldName::DebitsPosted, "\"100\"", LARGE_128),
    (FieldName::CreditsPending, "\"0\"", LARGE_128),
    (FieldName::CreditsPosted, "\"0\"", LARGE_128),
    (FieldName::UserData128, "\"0\"", LARGE_128),
    (FieldName::UserData64, "\"0\"", LARGE_64),
    (FieldName::UserData32, "0", LARGE_32),
    (FieldName::Code, "10", LARGE_16),
    (FieldName::Flags, "0", LARGE_16),
    (FieldName::Timestamp, "\"1000\"", LARGE_64),
];

const CREDIT: [Number; 11] = [
    (FieldName::Id, "\"2\"", LARGE_128),
    (FieldName::DebitsPending, "\"0\"", LARGE_128),
    (FieldName::DebitsPosted, "\"0\"", LARGE_128),
    (FieldName::CreditsPending, "\"0\"", LARGE_128),
    (FieldName::CreditsPosted, "\"100\"", LARGE_128),
    (FieldName::UserData128, "\"0\"", LARGE_128),
    (FieldName::UserData64, "\"0\"", LARGE_64),
    (FieldName::UserData32, "0", LARGE_32),
    (FieldName::Code, "10", LARGE_16),
    (FieldName::Flags, "0", LARGE_16),
    (FieldName::Timestamp, "\"1001\"", LARGE_64),
];

fn push_member(
    text: &mut String,
    field: Field,
    value: &str,
    change: Change,
) -> Result<(), AllocError> {
    let value = match change {
        Some((changed, None)) if changed == field => return Ok(()),
        Some((changed, Some(other))) if changed == field => other,
        _ => value,
    };
    if !text.as_str().ends_with('{') {
        text.push_str(",")?;
    }
    text.push_str("\"")?;
    text.push_str(field.name.key())?;
    text.push_str("\":")?;
    text.push_str(value)
}

fn part_text(
    alloc: Global,
    part: Part,
    members: &[Number],
    change: Change,
) -> Result<String, AllocError> {
    let mut text = String::from_str(alloc, "{")?;
    for (name, value, _) in members {
        push_member(&mut text, field(part, *name), *value, change)?;
    }
    text.push_str("}")?;
    Ok(text)
}

// `IN_ORDER` with this change.
fn changed(alloc: Global, change: Change) -> Result<String, AllocError> {
    let transfer = part_text(alloc, Part::Transfer, &TRANSFER, change)?;
    let debit = part_text(alloc, Part::Debit, &DEBIT, change)?;
    let credit = part_text(alloc, Part::Credit, &CREDIT, change)?;
    let members = [
        (FieldName::Timestamp, "\"2000\""),
        (FieldName::Kind, "\"single_phase\""),
        (FieldName::Ledger, "700"),
        (FieldName::TransferPart, transfer.as_str()),
        (FieldName::DebitAccount, debit.as_str()),
        (FieldName::CreditAccount, credit.as_str()),
    ];
    let mut text = String::from_str(alloc, "{")?;
    for (name, value) in members {
        push_member(&mut text, field(Part::Top, name), value, change)?;
    }
    text.push_str("}")?;
    Ok(text)
}

fn check(
    rt: &(impl Abort + AllocGlobal),
    field: Field,
    value: Option<&'static str>,
    error: DecodeError,
) -> Result<(), AllocError> {
    let text = changed(rt.alloc(), Some((field, value)))?;
    assert_eq!(rt; decode(rt.alloc(), text.as_bytes()), Err(error));
    Ok(())
}

fn check_numbers(
    rt: &(impl Abort + AllocGlobal),
    part: Part,
    members: &[Number],
) -> Result<(), AllocError> {
    for (name, _, large) in members {
        let field = field(part, *name);
        check(rt, field, None, DecodeError::Missing(field))?;
        check_kinds(rt, field, &NO_NUMBERS)?;
        check(rt, field, Some(*large), DecodeError::OutOfRange(field))?;
    }
    Ok(())
}

// Each of these values is of a wrong kind.
fn check_kinds(
    rt: &(impl Abort + AllocGlobal),
    field: Field,
    values: &[&'static str],
) -> Result<(), AllocError> {
    for value in values {
        check(rt, field, Some(*value), DecodeError::WrongType(field))?;
    }
    Ok(())
}

#[test]
fn each_spoilt_field_is_named(rt: HostRuntime) -> Result<(), Fail> {
    assert!(rt; changed(rt.alloc(), None)?.as_str() == IN_ORDER);
    check_numbers(&rt, Part::Transfer, &TRANSFER)?;
    check_numbers(&rt, Part::Debit, &DEBIT)?;
    check_numbers(&rt, Part::Credit, &CREDIT)?;
    let top = [
        (FieldName::Timestamp, "\"2000\"", LARGE_64),
        (FieldName::Ledger, "700", LARGE_32),
    ];
    check_numbers(&rt, Part::Top, &top)?;
    let others = [
        (FieldName::Kind, NO_TEXTS),
        (FieldName::TransferPart, NO_OBJECTS),
        (FieldName::DebitAccount, NO_OBJECTS),
        (FieldName::CreditAccount, NO_OBJECTS),
    ];
    for (name, wrong) in others {
        let field = field(Part::Top, name);
        check(&rt, field, None, DecodeError::Missing(field))?;
        check_kinds(&rt, field, &wrong)?;
    }
    Ok(())
}
