//! The actors of a run, wired together before their first turns.

ghost use Rattle.std.specs.Prelude.{◌≡◌, IfErr, IfOk, All, length, map};
ghost use Rattle.cdc_actor_work.specs.declared.faults.RunFault.TheVariants.{OutOfMemory};
ghost use Rattle.cdc_links.specs.Links.{LinkId};
ghost use Rattle.cdc_run.specs.Configs.{Fits};
ghost use Rattle.cdc_run.specs.Made.{AreFreshSubscribers, AreMade, made_clients};
ghost use Rattle.cdc_run.specs.Wires.{IsFresh, fresh_from};
ghost use Rattle.cdc_traffic.specs.declared.messages.ToBroker.{ToBroker};
ghost use Rattle.cdc_traffic.specs.declared.messages.ToLedger.{ToLedger};

use crate::configs::Config;
use crate::ends::Ends;
use crate::wires::{Wires, make_wires};
use cdc_actors::{
    BrokerEnd, BrokerPlan, ClientEnd, ConnectorEnd, LedgerEnd, RunFault, SubscriberEnd,
};
use cdc_links::{LinkIn, LinkOut};
use cdc_plans::Faults;
use cdc_progress::ProgressStore;
use cdc_traffic::{Reply, ToBroker, ToLedger, ToSubscriber};
use std::alloc::{AllocError, Global};

// The client actors, which have sent nothing. Each has its endpoint of the ledger's link, and a link of its own.
fn make_clients(
    alloc: Global,
    system: u64,
    requests: Vec<LinkOut<ToLedger>>,
    answers: Vec<LinkIn<Reply>>,
) -> Result<Vec<ClientEnd>, AllocError>
    requires requests { (link : LinkId ToLedger)
        × (requests.items ≡ fresh_from link 1 (length answers.items)) }
    requires answers { All (IsFresh 1) answers.items }
    ensures { (link : LinkId ToLedger) → requests.items ≡ fresh_from link 1 (length answers.items)
        → IfOk result (λ clients. clients.items
        ≡ made_clients system link 1 (map (λ a. a.link) answers.items)) }
{
    let mut clients = Vec::new(alloc);
    for (request, answer) in requests.into_iter().zip(answers) {
        let number = clients.len() as u64 + 1;
        clients.push(ClientEnd::new(alloc, system, number, request, answer))?;
    }
    Ok(clients)
}

// The subscriber actors, to which nothing has come, with what they are to close after. Each has its endpoint of the
// broker's link, and a link of its own.
fn make_subscribers(
    alloc: Global,
    system: u64,
    acks: Vec<LinkOut<ToBroker>>,
    inboxes: Vec<LinkIn<ToSubscriber>>,
    faults: &Faults,
) -> Result<Vec<SubscriberEnd>, AllocError>
    requires acks { (link : LinkId ToBroker)
        × (acks.items ≡ fresh_from link 1 (length inboxes.items)) }
    requires inboxes { All (IsFresh 1) inboxes.items }
    ensures { (link : LinkId ToBroker) → acks.items ≡ fresh_from link 1 (length inboxes.items)
        → IfOk result (λ subscribers. AreFreshSubscribers system link faults.now.close.items
        (map (λ i. i.link) inboxes.items) subscribers.items) }
{
    let mut subscribers = Vec::new(alloc);
    for (ack, inbox) in acks.into_iter().zip(inboxes) {
        let number = subscribers.len() as u64 + 1;
        let close_after = faults.close_after(number);
        subscribers.push(SubscriberEnd::new(alloc, system, number, inbox, ack, close_after))?;
    }
    Ok(subscribers)
}

/// Makes the actors of a run and the links between them, over a store. The ledger is empty, and no actor has done
/// anything. The only fault is `OutOfMemory`.
pub fn wire_up<S: ProgressStore + Drop>(
    alloc: Global,
    config: Config,
    faults: Faults,
    store: S,
) -> Result<Ends<S>, RunFault>
    requires { Fits config }
    ensures made { IfOk result (AreMade config faults (S.held store) (S.is_honest store)
        (S.risks store)) }
    ensures refused { IfErr result (λ fault. fault ≡ OutOfMemory) }
{
    let wires = make_wires(alloc, &config)?;
    let Wires {
        to_ledger,
        polls,
        requests,
        replies,
        answers,
        to_connector,
        poll_replies,
        confirms,
        to_broker,
        packets,
        acks,
        deliveries,
        inboxes,
    } = wires;
    let system = config.system;
    let clients = make_clients(alloc, system, requests, answers)?;
    let subscribers = make_subscribers(alloc, system, acks, inboxes, &faults)?;
    let Faults {
        lose_confirm,
        lose_publish,
        restart_after,
        repeat,
        close: _,
    } = faults;
    let plan = BrokerPlan {
        lose_confirm,
        lose_publish,
        repeat,
    };
    let broker = BrokerEnd::new(
        alloc,
        system,
        to_broker,
        confirms,
        deliveries,
        config.bindings,
        config.prefetch,
        plan,
    )?;
    Ok(Ends {
        ledger: LedgerEnd::new(alloc, system, to_ledger, replies, poll_replies),
        clients,
        connector: ConnectorEnd::new(
            system,
            to_connector,
            polls,
            packets,
            store,
            config.start,
            config.window,
            restart_after,
        ),
        broker,
        subscribers,
    })
}
