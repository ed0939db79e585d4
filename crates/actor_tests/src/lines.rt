//! What a line of a scene gives, and what is written beside it.

use std::fmt::{Debug, Write};
use std::process::Abort;
use std::test::Fail;

/// The line gives what is written beside it in the scene that shows this. (By itself, so that what a scene owns is not
/// seen with what an assertion makes.)
pub(crate) fn same(rt: &impl Abort, shows: &str, given: &str, expected: &str) {
    assert!(rt; given == expected, "{shows}: {given}, and not {expected}");
}

/// The queue has this charge in the scene that shows this.
pub(crate) fn same_charge(rt: &impl Abort, shows: &str, given: u64, expected: u64) {
    assert!(rt; given == expected, "{shows}: a charge of {given}");
}

/// Adds whether it holds.
pub(crate) fn add_yes(text: &mut String, holds: bool) -> Result<(), Fail> {
    Ok(text.push_str(if holds { "yes" } else { "no" })?)
}

/// Adds what it is.
pub(crate) fn show(text: &mut String, what: &impl Debug) -> Result<(), Fail> {
    Ok(write!(text, "{what:?}")?)
}
