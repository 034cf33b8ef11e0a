//! The ledger and the clients of a run, put together once they have finished.

ghost use Rattle.std.specs.Prelude.{◌≡◌, ◌++◌, ◌∷◌, [], All, IfErr, IfOk, OnOk, length, map};
ghost use Rattle.cdc_ledger_actors.specs.Ledger.{IsLedgerActor, order_of};
ghost use Rattle.cdc_ledger_actors.specs.Orders.{clients_in};
ghost use Rattle.cdc_run.specs.SettledLinks.{IsRefused};
ghost use Rattle.cdc_run.specs.Books.{AreBooks};
ghost use Rattle.cdc_run.specs.ClientMail.{AreClientsOf, ArePollsTo, AreWiredTo, HasAllOf, HasFinishedWith, IsMailOf, IsMoreMail};

use crate::laws::settle_laws;
use crate::parts::parts_of;
use crate::settled_links::{settle_each, settle_link};
use cdc_actors::{ClientEnd, ClientParts, LedgerEnd, RunFault};
use cdc_ledger::Ledger;
use cdc_links::{LinkIn, LinkOut};
use cdc_traffic::{Reply, ToConnector, ToLedger};
use std::alloc::{AllocError, Global};

/// What the clients of a run leave behind, by place.
#[derive(Drop)]
pub(crate) struct ClientMail {
    pub(crate) requests: Vec<LinkOut<ToLedger>>,
    pub(crate) answers: Vec<LinkIn<Reply>>,
    pub(crate) replies: Vec<Vec<Reply>>,
}

impl ClientMail {
    fn new(alloc: Global) -> ClientMail
        ensures { HasAllOf [] result }
    {
        ClientMail {
            requests: Vec::new(alloc),
            answers: Vec::new(alloc),
            replies: Vec::new(alloc),
        }
    }

    // If memory runs out, nothing is added.
    fn add(&mut self, parts: ClientParts) -> Result<(), AllocError>
        ensures { OnOk result (IsMoreMail self.old parts self.new) }
    {
        self.requests.reserve(1)?;
        self.answers.reserve(1)?;
        self.replies.reserve(1)?;
        let ClientParts {
            requests,
            answers,
            replies,
        } = parts;
        self.requests.push_reserved(requests);
        self.answers.push_reserved(answers);
        self.replies.push_reserved(replies);
        Ok(())
    }

    fn of(alloc: Global, all: Vec<ClientParts>) -> Result<ClientMail, AllocError>
        ensures { IfOk result (HasAllOf all.items) }
    {
        let mut mail = ClientMail::new(alloc);
        for parts in all {
            mail.add(parts)?;
        }
        Ok(mail)
    }
}

/// Takes the client actors of a system apart, all of which must have finished. `NotOneSystem`: one is of another
/// system, doesn't have its place's number, isn't finished, or has met a fault.
pub(crate) fn mail_of_clients(
    alloc: Global,
    system: u64,
    clients: Vec<ClientEnd>,
) -> Result<ClientMail, RunFault>
    ensures clients { IfOk result (λ _. AreClientsOf system 1 clients.items) }
    ensures mail { IfOk result (λ mail. IsMailOf clients.items mail) }
    ensures refused { IfErr result (IsRefused (AreClientsOf system 1 clients.items)) }
{
    let parts = parts_of(alloc, system, clients)?;
    let mail = ClientMail::of(alloc, parts)?;
    Ok(mail)
}

/// What the ledger actor and the clients come to.
#[derive(Drop)]
pub(crate) struct Books {
    /// The ledger, which is closed.
    pub(crate) ledger: Ledger,
    /// The client of each batch, in the order in which the ledger took the batches.
    pub(crate) order: Vec<u64>,
    /// The replies to each client, in its order.
    pub(crate) replies: Vec<Vec<Reply>>,
    /// The ledger's endpoint of the connector's link.
    pub(crate) connector: LinkOut<ToConnector>,
}

/// Puts the ledger actor and the clients together, with the connector's endpoint of the ledger's link.
/// `NotOneSystem`: one is of another system, isn't finished, or has met a fault, or there are more or fewer clients
/// than the ledger actor has, or in another order.
pub(crate) fn settle_books(
    alloc: Global,
    ledger: LedgerEnd,
    polls: LinkOut<ToLedger>,
    clients: Vec<ClientEnd>,
) -> Result<Books, RunFault>
    requires polls { ArePollsTo ledger polls }
    requires wired { AreClientsOf ledger.system 1 clients.items → AreWiredTo ledger clients.items }
    ensures books { IfOk result (λ books.
        AreBooks (order_of ledger.work.inbox.received) books.ledger
        (map (λ v. v.items) books.replies.items)) }
    ensures ledger { IfOk result (λ books. books.ledger ≡ ledger.work.ledger) }
    ensures order { IfOk result (λ books.
        books.order.items ≡ clients_in (order_of ledger.work.inbox.received)) }
    ensures replies { IfOk result (λ books.
        map (λ v. v.items) books.replies.items ≡ map (λ c. c.work.replies) clients.items) }
    ensures connector { IfOk result (λ books. books.connector ≡ ledger.work.connector) }
    ensures core { IfOk result (λ _. IsLedgerActor ledger.work) }
    ensures finished { IfOk result (λ _. HasFinishedWith ledger clients.items) }
    ensures refused { IfErr result (IsRefused (HasFinishedWith ledger clients.items)) }
{
    let system = ledger.system();
    let Some(parts) = ledger.into_parts() else {
        return Err(RunFault::NotOneSystem);
    };
    if clients.len() != parts.clients.len() {
        return Err(RunFault::NotOneSystem);
    }
    let mail = mail_of_clients(alloc, system, clients)?;
    settle_laws();
    settle_link(alloc, parts.inbox, polls, mail.requests)?;
    settle_each(alloc, mail.answers, parts.clients)?;
    Ok(Books {
        ledger: parts.ledger,
        order: parts.order,
        replies: mail.replies,
        connector: parts.connector,
    })
}
