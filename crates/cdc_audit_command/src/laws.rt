//! Laws of audits.

ghost use Rattle.cdc_audit_command.specs.Duplicates.{DuplicatesAreLeftOut};

/// An audit that skips duplicates audits what is left of the entries without them.
pub fn duplicates_are_left_out()
    ensures { DuplicatesAreLeftOut }
{}
