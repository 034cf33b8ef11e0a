//! Laws of audits that are saved. They are the postconditions of functions that do nothing.

ghost use Rattle.cdc_audit_state.specs.Laws.{AuditedEventsFit, AuditsCanBeSaved, AuditsGoOn};
ghost use Rattle.cdc_audit_state.specs.Logs.{LogsCanBeCut};

/// Does nothing. The numbers of audited events have the widths of their fields, whatever the bytes are.
pub fn audited_events_fit()
    ensures { AuditedEventsFit }
{}

/// Does nothing. An auditor that stands for an audit of such events can be saved: its text is read back.
pub fn audits_can_be_saved()
    ensures { AuditsCanBeSaved }
{}

/// Does nothing. An audit of a stream comes to the same if it is cut after a line: the first part is audited, and what
/// was audited goes on with the second part.
pub fn audits_go_on()
    ensures { AuditsGoOn }
{}

/// Does nothing. A log that is cut anywhere after its base is the log of the records that ended before the cut.
pub fn logs_can_be_cut()
    ensures { LogsCanBeCut }
{}
