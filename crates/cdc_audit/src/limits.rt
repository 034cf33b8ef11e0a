//! The rules on the bounds of an account's sums.

ghost use Rattle.std.specs.Prelude.{◌≡◌};
ghost use Rattle.cdc_types.specs.Lines.{first_line};
ghost use Rattle.cdc_audit.specs.Limits as spec;

use crate::refusals::{Excess, Refusal, Side};
use cdc_types::{AccountFlags, Event, EventAccount};

/// The refusal of an event by the sums that it shows of an account.
fn limit_refusal(account: &EventAccount) -> Option<Refusal>
    ensures { result ≡ first_line (spec.limit_lines account.now) }
{
    let Some(debits) = account.debits_pending.checked_add(account.debits_posted) else {
        return Some(Refusal::TooLarge(account.id, Side::Debits));
    };
    let Some(credits) = account.credits_pending.checked_add(account.credits_posted) else {
        return Some(Refusal::TooLarge(account.id, Side::Credits));
    };
    if account.flags & AccountFlags::DEBITS_MUST_NOT_EXCEED_CREDITS != 0
        && account.credits_posted < debits
    {
        Some(Refusal::Limit(Excess {
            account: account.id,
            side: Side::Debits,
            sum: debits,
            limit: account.credits_posted,
        }))
    } else if account.flags & AccountFlags::CREDITS_MUST_NOT_EXCEED_DEBITS != 0
        && account.debits_posted < credits
    {
        Some(Refusal::Limit(Excess {
            account: account.id,
            side: Side::Credits,
            sum: credits,
            limit: account.debits_posted,
        }))
    } else {
        None
    }
}

/// The refusal of an event by the sums that it shows of its accounts.
pub(crate) fn limits_refusal(event: &Event) -> Option<Refusal>
    ensures { result ≡ first_line (spec.limits_lines event.now) }
{
    limit_refusal(&event.debit_account).or(limit_refusal(&event.credit_account))
}
