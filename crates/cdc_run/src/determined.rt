//! What of a run doesn't depend on the order in which its threads come.

ghost use Rattle.cdc_run.specs.Determined.{AllKeepTheLine, LoneClientsAreServedAlone, UnaskedKeepTheLine};

/// Does nothing: its postconditions follow from what a run promises, in whatever order its threads came. If one
/// client has all batches, whatever its number, its replies have the ledger's answers to them one after another, in
/// the client's own order; and the ledger is what they make, with a close after the last of them. A subscriber that
/// wasn't asked to close keeps what it would keep if it received the ledger's events that follow the start and match
/// its binding, each once and in order, and then the end mark.
pub fn determined_laws()
    ensures alone { LoneClientsAreServedAlone }
    ensures unasked { UnaskedKeepTheLine }
    ensures all_unasked { AllKeepTheLine }
{}
