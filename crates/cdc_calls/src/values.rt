//! The fixed values that the calls are made on.

use cdc_audit::Auditor;
use cdc_audit_state::push_state;
use cdc_broker::{Broker, Taken};
use cdc_follow::{Content, Entry, Follower, write_book};
use cdc_ledger::Ledger;
use cdc_match::Binding;
use cdc_message::{Item, Message};
use cdc_progress::MemoryStore;
use cdc_subscriber::Subscriber;
use cdc_types::{
    Batch, BatchResults, Event, EventAccount, EventKind, EventTransfer, Items, NewAccount,
    NewTransfer, TransferFlags, TransferResult,
};
use cdc_world::{Step, World};
use std::alloc::Global;

const DEBITED: EventAccount = EventAccount {
    id: 1,
    debits_pending: 0,
    debits_posted: 100,
    credits_pending: 0,
    credits_posted: 0,
    user_data_128: 0,
    user_data_64: 0,
    user_data_32: 0,
    code: 10,
    flags: 0,
    timestamp: 1000,
};

/// A ledger's first event: at 2000, account 1 is debited by 100 and account 2 is credited.
pub const FIRST: Event = Event {
    timestamp: 2000,
    kind: EventKind::SinglePhase,
    ledger: 700,
    transfer: EventTransfer {
        id: 1,
        amount: 100,
        pending_id: 0,
        user_data_128: 0,
        user_data_64: 0,
        user_data_32: 0,
        timeout: 0,
        code: 1,
        flags: 0,
        timestamp: 2000,
    },
    debit_account: DEBITED,
    credit_account: EventAccount {
        id: 2,
        debits_posted: 0,
        credits_posted: 100,
        timestamp: 1001,
        ..DEBITED
    },
};

const ACCOUNT: NewAccount = NewAccount {
    id: 1,
    user_data_128: 0,
    user_data_64: 0,
    user_data_32: 0,
    ledger: 700,
    code: 10,
    flags: 0,
};

/// A transfer from account 1 to account 2 that is kept for a second.
const PENDING: NewTransfer = NewTransfer {
    id: 1,
    debit_account_id: 1,
    credit_account_id: 2,
    amount: 100,
    pending_id: 0,
    user_data_128: 0,
    user_data_64: 0,
    user_data_32: 0,
    timeout: 1,
    ledger: 700,
    code: 1,
    flags: TransferFlags::PENDING,
};

pub const BINDING: [&str; 3] = ["any", "ledger=700", "transfer_code=1"];

pub const SCRIPT: &str = "subscriber all\naccounts 1\naccount id=1 ledger=700 code=10\n";

pub const STEPS: &str = "batch\nstart\npoll\n";

/// The first event, in a stream that isn't chained.
pub const ENTRY: Entry = Entry {
    content: Content::Event(FIRST),
    previous: None,
};

pub fn items(alloc: Global) -> Option<Items<u64>> {
    let numbers = vec![in alloc; 5, 6, 7].ok()?;
    Some(Items::from_vec(numbers))
}

pub fn batch(alloc: Global) -> Option<Batch> {
    let items = vec![in alloc; ACCOUNT, NewAccount { id: 2, ..ACCOUNT }].ok()?;
    Some(Batch::Accounts {
        now: 7,
        items: Items::from_vec(items),
    })
}

pub fn results(alloc: Global) -> Option<BatchResults> {
    let results = vec![in alloc; TransferResult::Accepted, TransferResult::Exists].ok()?;
    Some(BatchResults::Transfers(Items::from_vec(results)))
}

pub fn item(alloc: Global) -> Option<Item> {
    let message = Message::of(alloc, &FIRST).ok()?;
    Some(Item::Event(message))
}

/// The body of the first event, after a space that `encode` doesn't write, so that reading it takes memory.
pub fn body(alloc: Global) -> Option<String> {
    let message = Message::of(alloc, &FIRST).ok()?;
    let mut body = String::from_str(alloc, " ").ok()?;
    body.push_str(message.body()).ok()?;
    Some(body)
}

pub fn binding(alloc: Global) -> Option<Binding> {
    Binding::parse(alloc, &BINDING).ok()
}

/// The body of the first event as others may write it: other members first, blanks, and an escape in a text.
pub fn foreign_body(alloc: Global) -> Option<String> {
    let message = Message::of(alloc, &FIRST).ok()?;
    let own = message.body().strip_prefix("{")?;
    let mut body = String::from_str(
        alloc,
        "{ \"note\" : [\"\\u00e9\", {\"deep\": [1, 2.5, null]}],\n ",
    )
    .ok()?;
    body.push_str(own).ok()?;
    Some(body)
}

pub fn new_ledger(alloc: Global) -> Option<Ledger> {
    Some(Ledger::new(alloc))
}

/// A ledger with accounts 1 and 2.
pub fn ledger(alloc: Global) -> Option<Ledger> {
    let mut ledger = Ledger::new(alloc);
    submit(alloc, &mut ledger, &batch(alloc)?)?;
    Some(ledger)
}

/// One that also has four pending transfers, which expire a second later. It has no room for their expiries.
pub fn pending_ledger(alloc: Global) -> Option<Ledger> {
    let mut ledger = ledger(alloc)?;
    submit(alloc, &mut ledger, &transfers(alloc)?)?;
    Some(ledger)
}

fn submit(alloc: Global, ledger: &mut Ledger, batch: &Batch) -> Option<()> {
    let _results = ledger.submit(alloc, batch).ok()?;
    Some(())
}

pub fn transfers(alloc: Global) -> Option<Batch> {
    let second = NewTransfer { id: 2, ..PENDING };
    let third = NewTransfer { id: 3, ..PENDING };
    let fourth = NewTransfer { id: 4, ..PENDING };
    let items = vec![in alloc; PENDING, second, third, fourth].ok()?;
    Some(Batch::Transfers {
        now: 2000,
        items: Items::from_vec(items),
    })
}

/// An hour after the pending transfers.
pub fn pulse() -> Option<Batch> {
    Some(Batch::Pulse {
        now: 3_600_000_000_000,
    })
}

/// A broker with one queue, of all events, and a connection.
pub fn broker(alloc: Global) -> Option<Broker> {
    let mut bindings = Vec::new(alloc);
    bindings.push(Binding::parse(alloc, &["all"]).ok()?).ok()?;
    let mut broker = Broker::new(alloc, bindings).ok()?;
    broker.connect(1);
    Some(broker)
}

/// One that has accepted the first event.
pub fn full_broker(alloc: Global) -> Option<Broker> {
    let mut broker = broker(alloc)?;
    let item = item(alloc)?;
    match broker.publish(alloc, 1, 1, item) {
        Ok(Taken::Accepted) => Some(broker),
        _ => None,
    }
}

/// How many items the first queue has.
pub fn length_of(broker: &Broker) -> u64 {
    if broker.queue_count() == 0 {
        return 0;
    }
    broker.queue_len(1)
}

/// A ledger with the first event.
pub fn event_ledger(alloc: Global) -> Option<Ledger> {
    let mut ledger = ledger(alloc)?;
    submit(alloc, &mut ledger, &single(alloc)?)?;
    Some(ledger)
}

/// The transfer of the first event.
fn single(alloc: Global) -> Option<Batch> {
    let transfer = NewTransfer {
        timeout: 0,
        flags: 0,
        ..PENDING
    };
    let items = vec![in alloc; transfer].ok()?;
    Some(Batch::Transfers {
        now: 2000,
        items: Items::from_vec(items),
    })
}

/// A binding that takes all events, and another one.
pub fn bindings(alloc: Global) -> Option<Vec<Binding>> {
    let all = Binding::parse(alloc, &["all"]).ok()?;
    vec![in alloc; all, binding(alloc)?].ok()
}

/// The steps that take the first event from the ledger to a subscriber.
pub fn step(alloc: Global, place: usize) -> Option<Step> {
    match place {
        0 => Some(Step::Submit(batch(alloc)?)),
        1 => Some(Step::Submit(single(alloc)?)),
        2 => Some(Step::Start),
        3 => Some(Step::Poll),
        4 | 5 => Some(Step::Publish),
        6 => Some(Step::Arrive(1)),
        7 => Some(Step::Arrive(2)),
        8 => Some(Step::Send(1)),
        9 => Some(Step::Take(1)),
        _ => None,
    }
}

/// A world in which the steps before this one were taken.
pub fn world(alloc: Global, place: usize) -> Option<World<MemoryStore>> {
    let mut world = World::new(alloc, bindings(alloc)?, 64, MemoryStore::new()).ok()?;
    for before in 0..place {
        let _did = world.step(alloc, &step(alloc, before)?).ok()?;
    }
    Some(world)
}

/// The text of a book that has the first event.
pub fn book_text(alloc: Global) -> Option<Vec<u8>> {
    let mut follower = Follower::new(Subscriber::new(alloc), 0);
    let _outcome = follower.take(&binding(alloc)?, &ENTRY).ok()?;
    let mut text = Vec::new(alloc);
    write_book(&mut text, false, b"all", &follower).ok()?;
    Some(text)
}

pub fn new_auditor(alloc: Global) -> Auditor {
    Auditor::new(alloc, false)
}

/// An auditor that has taken the first event.
pub fn auditor(alloc: Global) -> Option<Auditor> {
    let mut auditor = new_auditor(alloc);
    let _refusal = auditor.take(&ENTRY.content).ok()?;
    Some(auditor)
}

/// The text of its state.
pub fn state_text(alloc: Global) -> Option<Vec<u8>> {
    let auditor = auditor(alloc)?;
    let mut text = Vec::new(alloc);
    push_state(alloc, &mut text, &auditor).ok()?;
    Some(text)
}
