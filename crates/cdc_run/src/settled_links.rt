//! Links that are settled: what is known of one once all its endpoints are put together.

ghost use Rattle.std.specs.Prelude.{◌≡◌, ◌∷◌, ◌+◌, ℕ, [], All, IfOk, List, vec_len};
ghost use Rattle.std.specs.List.{AllZip};
ghost use Rattle.cdc_links.specs.Links.{CanSend, IsAccount};
ghost use Rattle.cdc_run.specs.SettledLinks.{IsAccounted, IsOnlySender};

use cdc_links::{Handed, LinkIn, LinkOut, Message, settle};
use std::alloc::{AllocError, Global};

// Hands back all these endpoints of a link.
fn hand_back_all<M: Message>(
    alloc: Global,
    first: LinkOut<M>,
    others: Vec<LinkOut<M>>,
) -> Result<Vec<Handed<M>>, AllocError>
    ensures { IfOk result (λ all. all.items ≡ first ∷ others.items) }
{
    let mut all = Vec::new(alloc);
    all.push(first.hand_back())?;
    for end in others {
        all.push(end.hand_back())?;
    }
    Ok(all)
}

// Puts the two endpoints of a link with one sender together.
fn settle_one<M: Message>(alloc: Global, into: LinkIn<M>, out: LinkOut<M>) -> Result<(), AllocError>
    requires { IsOnlySender into out }
    ensures { IfOk result (λ _. IsAccounted into out) }
{
    let mut all = Vec::with_capacity(alloc, 1)?;
    all.push_reserved(out.hand_back());
    let _tally = settle(into, all);
    Ok(())
}

/// Puts the two endpoints of each of these links together, which have one sender each.
pub(crate) fn settle_each<M: Message>(
    alloc: Global,
    mut ins: Vec<LinkIn<M>>,
    mut outs: Vec<LinkOut<M>>,
) -> Result<(), AllocError>
    requires { AllZip IsOnlySender ins.items outs.items }
    ensures { IfOk result (λ _. AllZip IsAccounted ins.items outs.items) }
{
    let Some(into) = ins.pop() else {
        return Ok(());
    };
    let Some(out) = outs.pop() else {
        return Ok(());
    };
    settle_one(alloc, into, out)?;
    settle_each(alloc, ins, outs)
}

/// Puts the receiver's endpoint of a link together with all its senders' endpoints.
pub(crate) fn settle_link<M: Message>(
    alloc: Global,
    into: LinkIn<M>,
    first: LinkOut<M>,
    others: Vec<LinkOut<M>>,
) -> Result<(), AllocError>
    requires ours { All (λ end. end.link ≡ into.link) (first ∷ others.items) }
    requires all { into.senders ≡ vec_len others + 1 }
    ensures account { IfOk result (λ _. (left : List (ℕ × (M × M.Name)))
        × IsAccount into (first ∷ others.items) left) }
    ensures lawful { IfOk result (λ _. All (λ end. CanSend M.may_follow end.number end.sent)
        (first ∷ others.items)) }
{
    let all = hand_back_all(alloc, first, others)?;
    let _tally = settle(into, all);
    Ok(())
}

/// Puts the receiver's endpoint of a link together with the endpoints of its two senders.
pub(crate) fn settle_pair<M: Message>(
    alloc: Global,
    into: LinkIn<M>,
    first: LinkOut<M>,
    second: LinkOut<M>,
) -> Result<(), AllocError>
    requires first { first.link ≡ into.link }
    requires second { second.link ≡ into.link }
    requires two { into.senders ≡ 2 }
    ensures account { IfOk result (λ _. (left : List (ℕ × (M × M.Name)))
        × IsAccount into (first ∷ second ∷ []) left) }
    ensures lawful { IfOk result (λ _. All (λ end. CanSend M.may_follow end.number end.sent)
        (first ∷ second ∷ [])) }
{
    let mut others = Vec::with_capacity(alloc, 1)?;
    others.push_reserved(second);
    settle_link(alloc, into, first, others)?;
    Ok(())
}
