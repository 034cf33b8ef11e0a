//! Transfers: the client's request, and the transfer that the ledger keeps.

ghost use Rattle.std.specs.Prelude.{◌≡◌};
ghost use Rattle.cdc_types.specs.Flags.{is_linked_transfer, is_pending_request, is_post_request, is_void_request, is_plain_request};
ghost use Rattle.cdc_types.specs.Shapes.{transfer_refusal, asks_for_two_kinds};

use crate::results::TransferResult;

/// The bits of a transfer's flags (TigerBeetle, Transfer, `flags`).
pub struct TransferFlags;

impl TransferFlags {
    /// The item is chained to the next one of its batch.
    pub const LINKED: u16 = 1;

    /// The amount is held back until a later transfer posts or voids it.
    pub const PENDING: u16 = 2;

    /// Posts the pending transfer that `pending_id` names.
    pub const POST_PENDING_TRANSFER: u16 = 4;

    /// Voids the pending transfer that `pending_id` names.
    pub const VOID_PENDING_TRANSFER: u16 = 8;

    /// The bits that the ledger accepts. Any other bit is refused as `ReservedFlag`.
    pub const ACCEPTED: u16 = 15;
}

/// A client's request for a transfer (TigerBeetle, Transfer).
#[derive(Clone, Copy, Debug, PartialEq, Eq)]
pub struct NewTransfer {
    /// 0 and 2^128-1 are refused.
    pub id: u128,
    /// In a post or a void, 0 means the pending transfer's account.
    pub debit_account_id: u128,
    /// In a post or a void, 0 means the pending transfer's account.
    pub credit_account_id: u128,
    /// The amount to move or to hold back. In a post 2^128-1, and in a void 0, means the whole pending amount.
    pub amount: u128,
    /// The pending transfer to post or to void, or 0.
    pub pending_id: u128,
    /// Opaque to the ledger, as are the next two. In a post or a void, 0 means the pending transfer's own value.
    pub user_data_128: u128,
    /// Opaque to the ledger, as are the next two. In a post or a void, 0 means the pending transfer's own value.
    pub user_data_64: u64,
    /// Opaque to the ledger, as are the next two. In a post or a void, 0 means the pending transfer's own value.
    pub user_data_32: u32,
    /// The seconds after which a pending transfer expires; 0 if it never does.
    pub timeout: u32,
    /// The ledger of both accounts. In a post or a void, 0 means the pending transfer's.
    pub ledger: u32,
    /// The client chooses what it means. In a post or a void, 0 means the pending transfer's.
    pub code: u16,
    /// Bits of `TransferFlags`.
    pub flags: u16,
}

/// A transfer as the ledger stores it. A post or a void is filled in from its pending transfer.
#[derive(Clone, Copy, Debug, PartialEq, Eq)]
pub struct Transfer {
    pub id: u128,
    /// In a post or a void, 0 means the pending transfer's account.
    pub debit_account_id: u128,
    /// In a post or a void, 0 means the pending transfer's account.
    pub credit_account_id: u128,
    /// The amount that was moved, held back, posted or voided.
    pub amount: u128,
    /// The pending transfer that was posted or voided, or 0.
    pub pending_id: u128,
    /// Opaque to the ledger, as are the next two. In a post or a void, 0 means the pending transfer's own value.
    pub user_data_128: u128,
    /// Opaque to the ledger, as are the next two. In a post or a void, 0 means the pending transfer's own value.
    pub user_data_64: u64,
    /// Opaque to the ledger, as are the next two. In a post or a void, 0 means the pending transfer's own value.
    pub user_data_32: u32,
    /// The seconds after which a pending transfer expires; 0 if it never does.
    pub timeout: u32,
    /// The ledger of both accounts. In a post or a void, 0 means the pending transfer's.
    pub ledger: u32,
    /// The client chooses what it means. In a post or a void, 0 means the pending transfer's.
    pub code: u16,
    /// Bits of `TransferFlags`.
    pub flags: u16,
    /// When the transfer was accepted, in nanoseconds.
    pub timestamp: u64,
}

impl NewTransfer {
    /// Whether the transfer is chained to the next item of its batch.
    pub fn is_linked(&self) -> bool
        ensures { result ≡ is_linked_transfer self.now }
    {
        self.flags & TransferFlags::LINKED != 0
    }

    /// Whether the request holds back its amount until it is posted or voided.
    pub fn is_pending(&self) -> bool
        ensures { result ≡ is_pending_request self.now }
    {
        self.flags & TransferFlags::PENDING != 0
    }

    /// Whether the request posts a pending transfer.
    pub fn is_post(&self) -> bool
        ensures { result ≡ is_post_request self.now }
    {
        self.flags & TransferFlags::POST_PENDING_TRANSFER != 0
    }

    /// Whether the request voids a pending transfer.
    pub fn is_void(&self) -> bool
        ensures { result ≡ is_void_request self.now }
    {
        self.flags & TransferFlags::VOID_PENDING_TRANSFER != 0
    }

    /// Whether the request names its accounts itself: it is for a single-phase or a pending transfer.
    pub fn is_plain(&self) -> bool
        ensures { result ≡ is_plain_request self.now }
    {
        !(self.is_post() || self.is_void())
    }

    // Whether more than one of the flags pending, post and void is set.
    fn has_two_kinds(&self) -> bool
        ensures { result ≡ asks_for_two_kinds self.now }
    {
        let (pending, post, void) = (self.is_pending(), self.is_post(), self.is_void());
        pending && post || pending && void || post && void
    }

    /// The first reason to refuse the request that its own fields give, whatever the ledger holds. `None` if there is
    /// none.
    pub fn check_shape(&self) -> Option<TransferResult>
        ensures { result ≡ transfer_refusal self.now }
    {
        let pending = self.is_pending();
        let plain = self.is_plain();
        if self.flags & !TransferFlags::ACCEPTED != 0 {
            Some(TransferResult::ReservedFlag)
        } else if self.id == 0 {
            Some(TransferResult::IdMustNotBeZero)
        } else if self.id == u128::MAX {
            Some(TransferResult::IdMustNotBeIntMax)
        } else if self.has_two_kinds() {
            Some(TransferResult::FlagsAreMutuallyExclusive)
        } else if plain && self.pending_id != 0 {
            Some(TransferResult::PendingIdMustBeZero)
        } else if !plain && self.pending_id == 0 {
            Some(TransferResult::PendingIdMustNotBeZero)
        } else if !plain && self.pending_id == self.id {
            Some(TransferResult::PendingIdMustBeDifferent)
        } else if !pending && self.timeout != 0 {
            Some(TransferResult::TimeoutReservedForPendingTransfer)
        } else if plain && self.ledger == 0 {
            Some(TransferResult::LedgerMustNotBeZero)
        } else if plain && self.code == 0 {
            Some(TransferResult::CodeMustNotBeZero)
        } else if plain && self.debit_account_id == self.credit_account_id {
            Some(TransferResult::AccountsMustBeDifferent)
        } else {
            None
        }
    }
}
