//! What `run` prints: a line for each batch in the order of the script, and then what each subscriber holds.

ghost use Rattle.std.specs.Prelude.{◌≡◌, ◌++◌, ℕ, All, IfOk, List, OnOk, length, map, string_bytes};
ghost use Rattle.cdc_run.specs.Reports.{replies_of};
ghost use Rattle.cdc_traffic.specs.declared.requests.Reply.{Reply as Replied};
ghost use Rattle.cdc_run_command.specs.Private.Merging.{HasNext, TakesNext, numbered_lines};
ghost use Rattle.cdc_run_command.specs.ClientOrders.{IsOrderOf};
ghost use Rattle.cdc_run_command.specs.Runs.{AreMerged, PrintsReport, kept_text};

use crate::reports::Ran;
use cdc_commands::{print_subscriber, push_batch};
use cdc_subscriber::Subscriber;
use cdc_traffic::Reply;
use std::alloc::{AllocError, Global};

/// What `run` prints as text. Fails if it is out of memory.
pub(crate) fn print_run(alloc: Global, ran: &Ran) -> Result<Vec<u8>, AllocError>
    requires { IsOrderOf ran.now.owners.items (replies_of ran.now.report) }
    ensures { IfOk result (λ text. PrintsReport ran.now.owners.items ran.now.report text.items) }
{
    let (order, replies) = (ran.owners.as_slice(), ran.report.replies.as_slice());
    let replies = replies_in_order(alloc, order, replies)?;
    let mut text = reply_text(alloc, replies.as_slice())?.into_bytes();
    push_kept(&mut text, ran.report.subscribers.as_slice())?;
    Ok(text)
}

/// The lines of replies to all batches.
fn reply_text(alloc: Global, replies: &[&Reply]) -> Result<String, AllocError>
    ensures { IfOk result (λ text. string_bytes text
        ≡ numbered_lines 1 (map (λ r. r.now) replies.now)) }
{
    let mut lines = String::new(alloc);
    for (place, reply) in replies.iter().enumerate() {
        push_batch(&mut lines, place as u64 + 1, &reply.answer)?;
    }
    Ok(lines)
}

/// The replies to all batches, in the order of the script, which is given by the client of each batch.
pub(crate) fn replies_in_order<'a>(
    alloc: Global,
    order: &[u64],
    replies: &'a [Vec<Reply>],
) -> Result<Vec<&'a Reply>, AllocError>
    requires { IsOrderOf order.now (map (λ v. v.items) replies.now) }
    ensures { IfOk result (λ found. (merged : List (ℕ × Replied))
        × (AreMerged order.now (map (λ v. v.items) replies.now) merged
        × (map (λ r. r.now) found.items ≡ map (λ e. e.1) merged))) }
{
    let mut found = Vec::with_capacity(alloc, order.len())?;
    let mut taken = none_taken(alloc, replies.len())?;
    for client in order {
        found.push(take_next(replies, &mut taken, *client))?;
    }
    Ok(found)
}

/// The next reply to a client. `taken` counts the replies taken so far of each client.
fn take_next<'a>(replies: &'a [Vec<Reply>], taken: &mut Vec<usize>, client: u64) -> &'a Reply
    requires { HasNext (map (λ v. v.items) replies.now) taken.old.items client }
    ensures { TakesNext (map (λ v. v.items) replies.now) taken.old.items client result.now
        taken.new.items }
{
    let place = client as usize - 1;
    let count = taken[place];
    let reply = &replies[place][count];
    taken[place] = count + 1;
    reply
}

/// A count of 0 for each client.
fn none_taken(alloc: Global, clients: usize) -> Result<Vec<usize>, AllocError>
    ensures { IfOk result (λ taken. (length taken.items ≡ clients)
        × All (λ count. count ≡ 0) taken.items) }
{
    let mut taken = Vec::with_capacity(alloc, clients)?;
    for _ in 0..clients {
        taken.push(0)?;
    }
    Ok(taken)
}

fn push_kept(text: &mut Vec<u8>, subscribers: &[Subscriber]) -> Result<(), AllocError>
    ensures { OnOk result (text.new.items ≡ text.old.items ++ kept_text 1 subscribers.now) }
{
    for (place, subscriber) in subscribers.iter().enumerate() {
        print_subscriber(text, subscriber, place as u64 + 1)?;
    }
    Ok(())
}
