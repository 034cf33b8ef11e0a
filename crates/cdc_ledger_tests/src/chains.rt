//! Linked chains, by the worked examples.

use crate::courses::{
    ACCOUNT, MAX, PULSE, SETTLING, TRANSFER, answer, answers, batches, emitted_by, open_two,
    sums_of,
};
use cdc_ledger::Ledger;
use cdc_types::{AccountResult, EventKind, NewAccount, NewTransfer};
use std::alloc::Global;
use std::process::Abort;
use std::test::Fail;

// A transfer with this id, this amount and these flags.
fn transfer(id: u128, amount: u128, flags: u16) -> NewTransfer {
    NewTransfer {
        id,
        amount,
        flags,
        ..TRANSFER
    }
}

// A post of the whole of the pending transfer 10.
fn post(id: u128, flags: u16) -> NewTransfer {
    NewTransfer {
        id,
        pending_id: 10,
        amount: MAX,
        flags,
        ..SETTLING
    }
}

// Plays chains that are accepted, that fail at each place, and that are open.
fn plays_chains(rt: &impl Abort, alloc: Global, ledger: &mut Ledger) -> Result<(), Fail> {
    open_two(alloc, ledger, 0)?;
    let nobody = NewTransfer {
        credit_account_id: 9,
        ..transfer(3, 1, 0)
    };
    let failing = [
        transfer(1, 5, 1),
        transfer(2, 7, 1),
        nobody,
        transfer(4, 9, 0),
    ];
    answers(rt, alloc, ledger, 2000, &failing, &[38, 38, 15, 0])?;
    assert_eq!(rt; ledger.last(), 2003);
    // The ids of a chain that failed are free.
    answers(
        rt,
        alloc,
        ledger,
        3000,
        &[transfer(1, 5, 1), transfer(2, 7, 0)],
        &[0, 0],
    )?;
    answers(
        rt,
        alloc,
        ledger,
        4000,
        &[transfer(5, 1, 1), transfer(6, 1, 1)],
        &[38, 39],
    )?;
    answers(
        rt,
        alloc,
        ledger,
        5000,
        &[transfer(0, 1, 1), transfer(6, 1, 1)],
        &[2, 39],
    )?;
    let pending = NewTransfer {
        timeout: 1,
        ..transfer(10, 100, 2)
    };
    answers(rt, alloc, ledger, 6000, &[pending], &[0])?;
    // What a chain posted before it failed is pending again, and expires.
    answers(
        rt,
        alloc,
        ledger,
        7000,
        &[post(11, 5), post(12, 4)],
        &[38, 26],
    )?;
    assert_eq!(rt; ledger.pulse(2_000_000_000)?, 1);
    // A pending transfer may be posted within its own chain.
    let pending = NewTransfer {
        timeout: 1,
        ..transfer(20, 100, 3)
    };
    let posted = NewTransfer {
        pending_id: 20,
        ..post(21, 4)
    };
    answers(
        rt,
        alloc,
        ledger,
        3_000_000_000,
        &[pending, posted],
        &[0, 0],
    )?;
    assert_eq!(rt; ledger.pulse(9_000_000_000)?, 0);
    let events = [
        (2003, EventKind::SinglePhase, 9, [0, 9, 0, 0]),
        (3000, EventKind::SinglePhase, 5, [0, 14, 0, 0]),
        (3001, EventKind::SinglePhase, 7, [0, 21, 0, 0]),
        (6000, EventKind::TwoPhasePending, 100, [100, 21, 0, 0]),
        (
            2_000_000_000,
            EventKind::TwoPhaseExpired,
            100,
            [0, 21, 0, 0],
        ),
        (
            3_000_000_000,
            EventKind::TwoPhasePending,
            100,
            [100, 21, 0, 0],
        ),
        (
            3_000_000_001,
            EventKind::TwoPhasePosted,
            100,
            [0, 121, 0, 0],
        ),
    ];
    assert_eq!(rt; ledger.log().len(), events.len());
    for (place, expected) in events.iter().enumerate() {
        assert_eq!(rt; ledger.log().get(place).map(emitted_by), Some(*expected));
    }
    Ok(())
}

// The items of a chain are accepted together or not at all.
#[test]
fn chains_are_taken_whole_or_not_at_all(rt: HostRuntime) -> Result<(), Fail> {
    let alloc = rt.alloc();
    let mut ledger = Ledger::new(alloc);
    plays_chains(&rt, alloc, &mut ledger)
}

// Opens accounts in chains.
fn opens_chains(rt: &impl Abort, alloc: Global, ledger: &mut Ledger) -> Result<(), Fail> {
    let linked = NewAccount {
        flags: 1,
        ..ACCOUNT
    };
    let other = NewAccount { id: 2, ..ACCOUNT };
    let wrong = NewAccount { ledger: 0, ..other };
    let results = ledger.create_accounts(alloc, 1000, &[linked, wrong])?;
    assert!(rt;
        results.as_slice()
            == [
                AccountResult::LinkedEventFailed,
                AccountResult::LedgerMustNotBeZero
            ]
            .as_slice()
    );
    assert_eq!(rt; ledger.accounts().len(), 0);
    let results = ledger.create_accounts(alloc, 2000, &[linked])?;
    assert!(rt; results.as_slice() == [AccountResult::LinkedEventChainOpen].as_slice());
    let results = ledger.create_accounts(alloc, 3000, &[linked, other])?;
    assert!(rt; results.as_slice() == [AccountResult::Accepted; 2].as_slice());
    assert_eq!(rt; ledger.accounts().len(), 2);
    Ok(())
}

// The same for chains of accounts.
#[test]
fn accounts_are_opened_in_chains(rt: HostRuntime) -> Result<(), Fail> {
    let alloc = rt.alloc();
    let mut ledger = Ledger::new(alloc);
    opens_chains(&rt, alloc, &mut ledger)
}

// A chain is accepted as a whole, and so is one next to it; between them and after them items are validated one by
// one.
#[test]
fn chains_of_transfers_are_taken(rt: HostRuntime) -> Result<(), Fail> {
    let first = [
        (1, 1, 0, 5, 0, 0),
        (1, 2, 0, 7, 0, 0),
        (0, 3, 0, 1, 0, 0),
        (0, 0, 0, 1, 0, 2),
        (0, 4, 0, 1, 0, 0),
    ];
    let second = [
        (3, 10, 0, 50, 1, 0),
        (4, 11, 10, MAX, 0, 0),
        (3, 12, 0, 6, 1, 0),
        (0, 13, 0, 2, 0, 0),
    ];
    let events = [
        (2000, EventKind::SinglePhase, 5, [0, 5, 0, 0]),
        (2001, EventKind::SinglePhase, 7, [0, 12, 0, 0]),
        (2002, EventKind::SinglePhase, 1, [0, 13, 0, 0]),
        (2004, EventKind::SinglePhase, 1, [0, 14, 0, 0]),
        (3000, EventKind::TwoPhasePending, 50, [50, 14, 0, 0]),
        (3001, EventKind::TwoPhasePosted, 50, [0, 64, 0, 0]),
        (3002, EventKind::TwoPhasePending, 6, [6, 64, 0, 0]),
        (3003, EventKind::SinglePhase, 2, [6, 66, 0, 0]),
        (PULSE, EventKind::TwoPhaseExpired, 6, [0, 66, 0, 0]),
    ];
    batches(
        &rt,
        rt.alloc(),
        &[(2000, &first), (3000, &second)],
        1,
        &events,
    )
}

// A chain that fails leaves nothing, and takes its timestamps; the chains next to it don't fail with it. An item
// after a refused one isn't validated: it would be refused for another reason. An open chain of one item is found to
// be open before anything else.
#[test]
fn a_chain_fails_whole(rt: HostRuntime) -> Result<(), Fail> {
    let at_its_last = [
        (1, 1, 0, 5, 0, 38),
        (3, 2, 0, 7, 1, 38),
        (0, 0, 0, 1, 0, 2),
        (0, 4, 0, 9, 0, 0),
    ];
    let at_its_second = [
        (1, 5, 0, 5, 0, 38),
        (1, 4, 0, 8, 0, 12),
        (1, 0, 0, 0, 0, 38),
        (0, 6, 0, 1, 0, 38),
    ];
    let between_two = [
        (1, 7, 0, 1, 0, 0),
        (0, 8, 0, 1, 0, 0),
        (1, 9, 0, 1, 0, 38),
        (0, 0, 0, 1, 0, 2),
        (1, 10, 0, 1, 0, 0),
        (0, 11, 0, 1, 0, 0),
    ];
    let open = [(1, 0, 0, 0, 0, 39)];
    let events = [
        (2003, EventKind::SinglePhase, 9, [0, 9, 0, 0]),
        (2008, EventKind::SinglePhase, 1, [0, 10, 0, 0]),
        (2009, EventKind::SinglePhase, 1, [0, 11, 0, 0]),
        (2012, EventKind::SinglePhase, 1, [0, 12, 0, 0]),
        (2013, EventKind::SinglePhase, 1, [0, 13, 0, 0]),
    ];
    batches(
        &rt,
        rt.alloc(),
        &[
            (2000, &at_its_last),
            (2000, &at_its_second),
            (2000, &between_two),
            (2000, &open),
        ],
        0,
        &events,
    )
}

// What a chain that failed asked for may be requested again: its ids are free.
#[test]
fn ids_of_a_failed_chain_are_free(rt: HostRuntime) -> Result<(), Fail> {
    let failed = [
        (1, 1, 0, 5, 0, 38),
        (3, 2, 0, 7, 1, 38),
        (1, 1, 0, 5, 0, 13),
        (0, 3, 0, 1, 0, 38),
    ];
    let again = [(0, 1, 0, 6, 0, 0), (3, 2, 0, 8, 1, 0), (0, 3, 0, 2, 0, 0)];
    let events = [
        (3000, EventKind::SinglePhase, 6, [0, 6, 0, 0]),
        (3001, EventKind::TwoPhasePending, 8, [8, 6, 0, 0]),
        (3002, EventKind::SinglePhase, 2, [8, 8, 0, 0]),
        (PULSE, EventKind::TwoPhaseExpired, 8, [0, 8, 0, 0]),
    ];
    batches(
        &rt,
        rt.alloc(),
        &[(2000, &failed), (3000, &again)],
        1,
        &events,
    )
}

// A void of a chain that fails is undone, and its pending transfer may be posted, which removes its expiry.
#[test]
fn a_void_is_undone_with_its_chain(rt: HostRuntime) -> Result<(), Fail> {
    let pending = [(2, 10, 0, 100, 1, 0)];
    let voided = [(9, 11, 10, 0, 0, 38), (0, 0, 0, 1, 0, 2)];
    let posted = [(4, 11, 10, 40, 0, 0)];
    let events = [
        (2000, EventKind::TwoPhasePending, 100, [100, 0, 0, 0]),
        (4000, EventKind::TwoPhasePosted, 40, [0, 40, 0, 0]),
    ];
    batches(
        &rt,
        rt.alloc(),
        &[(2000, &pending), (3000, &voided), (4000, &posted)],
        0,
        &events,
    )
}

// The numbers of the first and the last result of a chain of a thousand transfers, pending for a second. The last
// transfer has this id.
fn thousand_linked(
    alloc: Global,
    ledger: &mut Ledger,
    now: u64,
    last_id: u128,
) -> Result<(u8, u8), Fail> {
    let mut requests = Vec::with_capacity(alloc, 1000)?;
    for place in 1..1000u32 {
        requests.push(NewTransfer {
            id: u128::from(place),
            amount: 1,
            timeout: 1,
            flags: 3,
            ..TRANSFER
        })?;
    }
    requests.push(NewTransfer {
        id: last_id,
        amount: 1,
        timeout: 1,
        flags: 2,
        ..TRANSFER
    })?;
    let results = ledger.create_transfers(alloc, now, requests.as_slice())?;
    match results.as_slice() {
        [first, between @ .., last] if between.iter().all(|answer| *answer == *first) => Ok((
            first.number(),
            last.number(),
        )),
        _ => Err("results that differ".into()),
    }
}

// A chain of a thousand that fails at its last item leaves balances and log as they were; the same one with a good
// last item is then accepted.
fn takes_chain_of_thousand(
    rt: &impl Abort,
    alloc: Global,
    ledger: &mut Ledger,
) -> Result<(), Fail> {
    open_two(alloc, ledger, 0)?;
    assert_eq!(rt; thousand_linked(alloc, ledger, 2000, 0)?, (38, 2));
    assert_eq!(rt; (ledger.log().len(), ledger.entries().len()), (0, 0));
    assert_eq!(rt; ledger.last(), 2999);
    for id in [1, 2] {
        assert_eq!(rt; sums_of(ledger, id), Some([0, 0, 0, 0]));
    }
    assert_eq!(rt; ledger.pulse(2_000_000_000)?, 0);
    assert_eq!(rt; thousand_linked(alloc, ledger, 3000, 1000)?, (0, 0));
    assert_eq!(rt; (ledger.log().len(), ledger.last()), (1000, 3999));
    assert_eq!(rt; sums_of(ledger, 1), Some([1000, 0, 0, 0]));
    assert_eq!(rt; ledger.pulse(2_000_000_000)?, 1000);
    assert_eq!(rt; sums_of(ledger, 1), Some([0, 0, 0, 0]));
    Ok(())
}

#[test]
fn a_chain_of_a_thousand(rt: HostRuntime) -> Result<(), Fail> {
    let mut ledger = Ledger::new(rt.alloc());
    takes_chain_of_thousand(&rt, rt.alloc(), &mut ledger)
}
