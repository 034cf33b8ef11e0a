use cdc_match::{BindError, Binding, Mode, Pair};
use cdc_types::EventKind;
use std::alloc::Global;
use std::test::Fail;

// Ten pairs, the values of the first five at their greatest, with each key twice.
const TEN: [&str; 11] = [
    "all",
    "event_type=two_phase_expired",
    "ledger=4294967295",
    "transfer_code=65535",
    "debit_account_code=65535",
    "credit_account_code=65535",
    "event_type=single_phase",
    "ledger=0",
    "transfer_code=0",
    "debit_account_code=0000000000000000000000000000000000000000000000000000000000000007",
    "credit_account_code=0",
];

const TEN_PAIRS: [Pair; 10] = [
    Pair::EventType(EventKind::TwoPhaseExpired),
    Pair::Ledger(4_294_967_295),
    Pair::TransferCode(65_535),
    Pair::DebitAccountCode(65_535),
    Pair::CreditAccountCode(65_535),
    Pair::EventType(EventKind::SinglePhase),
    Pair::Ledger(0),
    Pair::TransferCode(0),
    Pair::DebitAccountCode(7),
    Pair::CreditAccountCode(0),
];

const ELEVEN: [&str; 12] = [
    "all", "ledger=1", "ledger=1", "ledger=1", "ledger=1", "ledger=1", "ledger=1", "ledger=1",
    "ledger=1", "ledger=1", "ledger=1", "ledger=1",
];

// The fault of the words, if they have one.
fn fault_of(alloc: Global, words: &[&str]) -> Option<BindError> {
    Binding::parse(alloc, words).err()
}

#[test]
fn words_are_taken_or_refused(rt: HostRuntime) {
    let rows: [(&[&str], Option<BindError>); 11] = [
        (&["all"], None),
        (&["any"], None),
        (&[], Some(BindError::BadMode)),
        (&["some"], Some(BindError::BadMode)),
        (&["all", "code=1"], Some(BindError::UnknownKey)),
        (&["all", "ledger"], Some(BindError::UnknownKey)),
        (&["all", "ledger=4294967296"], Some(BindError::BadValue)),
        (&["any", "event_type=posted"], Some(BindError::BadValue)),
        (&ELEVEN, Some(BindError::TooManyPairs)),
        (&ELEVEN[..11], None),
        (&TEN, None),
    ];
    for (words, fault) in rows {
        assert_eq!(rt; fault_of(rt.alloc(), words), fault);
    }
}

#[test]
fn bindings_are_kept_and_copied(rt: HostRuntime) -> Result<(), Fail> {
    let alloc = rt.alloc();
    let binding = Binding::parse(alloc, &TEN)?;
    let copy = binding.try_copy(alloc)?;
    for read in [&binding, &copy] {
        assert_eq!(rt; read.mode(), Mode::All);
        assert!(rt; read.pairs() == TEN_PAIRS.as_slice());
    }
    Ok(())
}
