//! Why an event is refused: it can't follow the events before it.

ghost use Rattle.std.specs.Prelude.{◌≡◌};
ghost use Rattle.cdc_audit.specs.Texts.{field_name, fixed_name, other_side_name, refusal_name, side_name};

use cdc_types::{AccountResult, TransferResult};

/// One of the four balances of an account.
#[derive(Clone, Copy, Debug, PartialEq, Eq)]
pub enum BalanceField {
    DebitsPending,
    DebitsPosted,
    CreditsPending,
    CreditsPosted,
}

/// A balance that doesn't follow from the one before it: `before` plus `added` less `released` isn't what is shown.
#[derive(Clone, Copy, Debug, PartialEq, Eq)]
pub struct Mismatch {
    /// The account's id.
    pub account: u128,
    pub field: BalanceField,
    /// The balance that the event shows.
    pub shown: u128,
    /// The balance that the account's last event shows; 0 before its first event.
    pub before: u128,
    /// How much the event's own transfer adds to it.
    pub added: u128,
    /// How much is released of it: the amount of the pending transfer that the event settles.
    pub released: u128,
}

/// A field of an account that never changes.
#[derive(Clone, Copy, Debug, PartialEq, Eq)]
pub enum FixedField {
    UserData128,
    UserData64,
    UserData32,
    Ledger,
    Code,
    Flags,
    Timestamp,
}

/// A field of an account that isn't as its first event showed it.
#[derive(Clone, Copy, Debug, PartialEq, Eq)]
pub struct FieldMismatch {
    /// The account's id.
    pub account: u128,
    pub field: FixedField,
    /// What the event shows.
    pub shown: u128,
    /// What the account's first event showed.
    pub before: u128,
}

/// A side of an account: what is pending and posted of it.
#[derive(Clone, Copy, Debug, PartialEq, Eq)]
pub enum Side {
    Debits,
    Credits,
}

/// A sum of an account that exceeds the limit that the account's flags set.
#[derive(Clone, Copy, Debug, PartialEq, Eq)]
pub struct Excess {
    /// The account's id.
    pub account: u128,
    pub side: Side,
    /// What is pending and posted on this side.
    pub sum: u128,
    /// What is posted on the other side.
    pub limit: u128,
}

/// Why an event is refused.
#[derive(Clone, Copy, Debug, PartialEq, Eq)]
pub enum Refusal {
    /// It follows the end of the stream. It has this timestamp.
    AfterEnd(u64),
    /// Its timestamp isn't later than that of the event before it, the second one; 0 before the first event.
    NotLater(u64, u64),
    /// Its timestamp, this one, is above the greatest one that a ledger gives.
    TooHigh(u64),
    /// It debits and credits one account, of this id.
    OneAccount(u128),
    /// It stores the transfer of this id, and a ledger refuses a request for it with this result.
    TransferShape(u128, TransferResult),
    /// It stores the transfer of this id, whose flags are those of another kind.
    OtherKind(u128),
    /// It stores the transfer of this id, whose timestamp, the second number, isn't that of the event, the third one.
    OtherTimestamp(u128, u64, u64),
    /// It shows the account of this id, and a ledger refuses a request for it with this result.
    AccountShape(u128, AccountResult),
    /// A field of an account isn't as its first event showed it.
    AccountField(FieldMismatch),
    /// It shows the account of this id, which was created at the second number, not before the event, the third one.
    CreatedLater(u128, u64, u64),
    /// It is the first one that shows the account of this id, which was created at this timestamp, that of an event
    /// before it.
    CreatedAtEvent(u128, u64),
    /// It is the first one that shows the account of the first id, which was created at this timestamp, as was that of
    /// the last id, which it shows too or an event before it.
    CreatedTogether(u128, u64, u128),
    /// It stores a transfer of this id, and an event before it did.
    KnownId(u128),
    /// It settles the pending transfer of this id, and no event before it stored a pending one of this id.
    NotPending(u128),
    /// It settles the pending transfer of this id, and an event before it did.
    Settled(u128),
    /// It settles the pending transfer of this id, and its accounts, its ledger or its code are other ones, or it has
    /// no user data and the pending transfer has. Or it is an expiry, and another field of the transfer is another one.
    OtherFields(u128),
    /// It has this amount of the pending transfer of this id, which holds another amount, the last one: a post has
    /// more, or a void or an expiry hasn't the whole.
    Amount(u128, u128, u128),
    /// It is the expiry of the pending transfer of this id, which has no timeout.
    NoTimeout(u128),
    /// It is the expiry of the pending transfer of this id, at the second number, before that one's time is up, at the
    /// last number.
    TooSoon(u128, u64, u128),
    /// It posts or voids the pending transfer of this id, at the second number, and that one's time was up by then, at
    /// the last number.
    TooLate(u128, u64, u128),
    /// It is the expiry of the pending transfer of the first id, and that of the second one is open and expires sooner.
    ExpiresLate(u128, u128),
    /// The pending transfer of the first id is open, and the last expiry before the event is that of the second one.
    /// The time of both was up at once, so the event has to be an expiry, one nanosecond after that one.
    ExpiresApart(u128, u128),
    /// It has the first timestamp, and the event before it, at the second one, stored a linked transfer: so it has to
    /// store a transfer, one nanosecond later.
    BrokenChain(u64, u64),
    /// The pending and posted sum of the account of this id exceeds 128 bits on this side.
    TooLarge(u128, Side),
    /// A sum exceeds the limit that the account's flags set.
    Limit(Excess),
    /// A balance doesn't follow.
    Balance(Mismatch),
    /// The account of this id, which it shows or an event before it, was created at the second number and is linked to
    /// the next one. It has the timestamp after that one, or an event before it does.
    NextIsEvent(u128, u64),
    /// It is the first one that shows the account of this id, which was created at the second number. As many accounts
    /// in a row are linked as a batch may have items, so a batch has no room for the one after them.
    LongAccountChain(u128, u64),
    /// It has this timestamp and stores a linked transfer, and a batch has no room for the next one of its chain.
    LongChain(u64),
    /// It has this timestamp, the greatest one, and stores a linked transfer.
    NoNext(u64),
}

impl BalanceField {
    /// The balance's name, as messages have it.
    pub fn name(self) -> &'static str
        ensures { result.now ≡ field_name self }
    {
        match self {
            BalanceField::DebitsPending => "debits_pending",
            BalanceField::DebitsPosted => "debits_posted",
            BalanceField::CreditsPending => "credits_pending",
            BalanceField::CreditsPosted => "credits_posted",
        }
    }
}

impl FixedField {
    /// The field's name, as messages have it.
    pub fn name(self) -> &'static str
        ensures { result.now ≡ fixed_name self }
    {
        match self {
            FixedField::UserData128 => "user_data_128",
            FixedField::UserData64 => "user_data_64",
            FixedField::UserData32 => "user_data_32",
            FixedField::Ledger => "ledger",
            FixedField::Code => "code",
            FixedField::Flags => "flags",
            FixedField::Timestamp => "timestamp",
        }
    }
}

impl Side {
    /// The side's name.
    pub fn name(self) -> &'static str
        ensures { result.now ≡ side_name self }
    {
        match self {
            Side::Debits => "debits",
            Side::Credits => "credits",
        }
    }

    /// The name of the other side.
    pub fn other_name(self) -> &'static str
        ensures { result.now ≡ other_side_name self }
    {
        match self {
            Side::Debits => "credits",
            Side::Credits => "debits",
        }
    }
}

impl Refusal {
    /// The name of the rule that the event breaks.
    pub fn name(self) -> &'static str
        ensures { result.now ≡ refusal_name self }
    {
        match self {
            Refusal::AfterEnd(_) => "end",
            Refusal::NotLater(_, _) => "timestamps",
            Refusal::TooHigh(_) => "timestamps",
            Refusal::OneAccount(_) => "accounts",
            Refusal::TransferShape(_, _) => "shape",
            Refusal::OtherKind(_) => "shape",
            Refusal::OtherTimestamp(_, _, _) => "shape",
            Refusal::AccountShape(_, _) => "shape",
            Refusal::AccountField(_) => "fields",
            Refusal::CreatedLater(_, _, _) => "created",
            Refusal::CreatedAtEvent(_, _) => "created",
            Refusal::CreatedTogether(_, _, _) => "created",
            Refusal::KnownId(_) => "id",
            Refusal::NotPending(_) => "pending",
            Refusal::Settled(_) => "ended",
            Refusal::OtherFields(_) => "settles",
            Refusal::Amount(_, _, _) => "amount",
            Refusal::NoTimeout(_) => "timeouts",
            Refusal::TooSoon(_, _, _) => "timeouts",
            Refusal::TooLate(_, _, _) => "timeouts",
            Refusal::ExpiresLate(_, _) => "expiries",
            Refusal::ExpiresApart(_, _) => "expiries",
            Refusal::BrokenChain(_, _) => "chains",
            Refusal::TooLarge(_, _) => "limits",
            Refusal::Limit(_) => "limits",
            Refusal::Balance(_) => "balances",
            Refusal::NextIsEvent(_, _) => "links",
            Refusal::LongAccountChain(_, _) => "links",
            Refusal::LongChain(_) => "links",
            Refusal::NoNext(_) => "links",
        }
    }
}
