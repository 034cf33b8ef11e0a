//! The public calls of bindings.

use crate::values::EVENT;
use cdc_match::{BindError, Binding};
use cdc_message::headers_of;
use std::alloc::AllocError;

const ERRORS: [BindError; 5] = [
    BindError::BadMode,
    BindError::UnknownKey,
    BindError::BadValue,
    BindError::TooManyPairs,
    BindError::OutOfMemory,
];

fn error(error: BindError) -> (u8, &'static str) {
    match error {
        BindError::BadMode => (1, "bad_mode"),
        BindError::UnknownKey => (2, "unknown_key"),
        BindError::BadValue => (3, "bad_value"),
        BindError::TooManyPairs => (4, "too_many_pairs"),
        BindError::OutOfMemory => (5, "out_of_memory"),
    }
}

#[test]
fn errors_of_bindings_have_numbers_and_names(rt: HostRuntime) {
    for fault in ERRORS {
        let number: u8 = fault.number();
        let name: &'static str = fault.name();
        assert_eq!(rt; (number, name), error(fault));
    }
}

#[test]
fn a_binding_is_parsed_and_matches(rt: HostRuntime) {
    let binding: Result<Binding, BindError> = Binding::parse(rt.alloc(), &["all", "ledger=700"]);
    let binding = binding.expect(&rt, "a binding");
    let copy: Result<Binding, AllocError> = binding.try_copy(rt.alloc());
    let copy = copy.expect(&rt, "memory");
    let headers = headers_of(&EVENT);
    let does_match: bool = copy.matches(&headers);
    assert_eq!(rt; (does_match, binding.matches(&headers)), (true, true));
}
