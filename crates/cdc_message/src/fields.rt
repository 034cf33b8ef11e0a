//! The fields of a body, by part and name.

ghost use Rattle.std.specs.Prelude.{◌≡◌};
ghost use Rattle.cdc_message.specs.Fields.{key_of};

/// A part of a body, which is a JSON object.
#[derive(Clone, Copy, Debug, PartialEq, Eq)]
pub enum Part {
    /// The event itself.
    Top,
    Transfer,
    Debit,
    Credit,
}

/// The name of a field in any part.
#[derive(Clone, Copy, Debug, PartialEq, Eq)]
pub enum FieldName {
    /// When the event happened, the transfer was accepted, or the account was created.
    Timestamp,
    /// What happened to the transfer: the JSON member `type`.
    Kind,
    Ledger,
    /// The whole transfer, an object.
    TransferPart,
    /// The whole debited account, an object.
    DebitAccount,
    /// The whole credited account, an object.
    CreditAccount,
    Id,
    /// The amount that was moved, held back, posted or voided.
    Amount,
    /// The pending transfer that was posted or voided.
    PendingId,
    UserData128,
    UserData64,
    UserData32,
    /// The seconds after which a pending transfer expires; 0 if it never does.
    Timeout,
    Code,
    Flags,
    DebitsPending,
    DebitsPosted,
    CreditsPending,
    CreditsPosted,
}

#[derive(Clone, Copy, Debug, PartialEq, Eq)]
pub struct Field {
    pub part: Part,
    pub name: FieldName,
}

impl FieldName {
    /// The name of the JSON member that holds the field (TigerBeetle, Change Data Capture).
    pub fn key(self) -> &'static str
        ensures { result.now ≡ key_of self }
    {
        match self {
            FieldName::Timestamp => "timestamp",
            FieldName::Kind => "type",
            FieldName::Ledger => "ledger",
            FieldName::TransferPart => "transfer",
            FieldName::DebitAccount => "debit_account",
            FieldName::CreditAccount => "credit_account",
            FieldName::Id => "id",
            FieldName::Amount => "amount",
            FieldName::PendingId => "pending_id",
            FieldName::UserData128 => "user_data_128",
            FieldName::UserData64 => "user_data_64",
            FieldName::UserData32 => "user_data_32",
            FieldName::Timeout => "timeout",
            FieldName::Code => "code",
            FieldName::Flags => "flags",
            FieldName::DebitsPending => "debits_pending",
            FieldName::DebitsPosted => "debits_posted",
            FieldName::CreditsPending => "credits_pending",
            FieldName::CreditsPosted => "credits_posted",
        }
    }
}
