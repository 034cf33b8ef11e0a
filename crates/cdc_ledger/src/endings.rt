//! How pending transfers ended. It is stored for each entry, so that a post or a void doesn't have to search for it.

ghost use Rattle.std.specs.Prelude.{◌≡◌, ◌+◌, ◌-◌, ◌<◌, ◌≤◌, IfSome, length, vec_capacity, vec_len};
ghost use Rattle.cdc_ledger.specs.Endings.{ending_by as ending_of_kind, endings_after, endings_before};

use crate::movements::Movement;
use cdc_types::EventKind;

#[derive(Clone, Copy)]
pub(crate) enum Ending {
    /// Nothing has settled the transfer. It is also the value for a transfer that isn't pending.
    Open,
    Posted,
    Voided,
    Expired,
}

/// The ending that an entry of this kind gives the pending transfer that it settles.
fn ending_by(kind: EventKind) -> Ending
    ensures { result ≡ ending_of_kind kind }
{
    match kind {
        EventKind::SinglePhase | EventKind::TwoPhasePending => Ending::Open,
        EventKind::TwoPhasePosted => Ending::Posted,
        EventKind::TwoPhaseVoided => Ending::Voided,
        EventKind::TwoPhaseExpired => Ending::Expired,
    }
}

/// Stores the ending of the pending transfer that the movement settles, if it settles one, and appends an open ending
/// for the movement's own entry. Memory is reserved for it.
pub(crate) fn follow_ending(endings: &mut Vec<Ending>, movement: &Movement)
    requires there { IfSome movement.now.settled (λ p. p.place < length endings.old.items) }
    requires room { vec_len endings.old < vec_capacity endings.old }
    ensures endings { endings.new.items
        ≡ endings_after movement.now.settled movement.now.entry.kind endings.old.items }
    ensures len { vec_len endings.new ≡ vec_len endings.old + 1 }
    ensures capacity { vec_capacity endings.new ≡ vec_capacity endings.old }
{
    if let Some(pending) = movement.settled {
        endings[pending.place] = ending_by(movement.entry.kind);
    }
    endings.push_reserved(Ending::Open);
}

/// Reverts `follow_ending`: removes the last ending, which belongs to the movement's entry, and makes the pending
/// transfer that the movement settled open again, if it settled one.
pub(crate) fn forget_ending(endings: &mut Vec<Ending>, movement: &Movement)
    requires { IfSome movement.now.settled (λ p. p.place + 1 < length endings.old.items) }
    ensures endings { endings.new.items ≡ endings_before movement.now.settled endings.old.items }
    ensures len { vec_len endings.new ≡ vec_len endings.old - 1 }
    ensures capacity { vec_capacity endings.new ≡ vec_capacity endings.old }
{
    let _own = endings.pop();
    if let Some(pending) = movement.settled {
        endings[pending.place] = Ending::Open;
    }
}
