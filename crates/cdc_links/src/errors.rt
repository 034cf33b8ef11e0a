//! Errors of a link.

ghost use Rattle.std.specs.Prelude.{◌≡◌};
ghost use Rattle.cdc_links.specs.Errors.{link_fault_number, link_fault_name};

use std::alloc::AllocError;
use thiserror::Error;

/// Why a link wasn't created, or nothing was received.
#[derive(Clone, Copy, Debug, PartialEq, Eq, Error)]
pub enum LinkFault {
    /// The senders are gone, one of them was aborted, or 2^64-1 messages were received.
    #[error("the other side of the link is gone")]
    PeerGone,
    /// There was no memory to create the link.
    #[error("out of memory")]
    OutOfMemory,
}

impl LinkFault {
    /// The fault's number, from 1 to 2.
    pub fn number(self) -> u8
        ensures { result ≡ link_fault_number self }
    {
        match self {
            LinkFault::PeerGone => 1,
            LinkFault::OutOfMemory => 2,
        }
    }

    pub fn name(self) -> &'static str
        ensures { result.now ≡ link_fault_name self }
    {
        match self {
            LinkFault::PeerGone => "peer_gone",
            LinkFault::OutOfMemory => "out_of_memory",
        }
    }
}

impl From<AllocError> for LinkFault {
    ghost use Rattle.cdc_links.specs.declared.errors.LinkFault.TheVariants.{OutOfMemory};

    ghost from_gives = { λ _ e. e ≡ OutOfMemory };

    fn from(_error: AllocError) -> LinkFault {
        LinkFault::OutOfMemory
    }
}

/// A message that wasn't sent: the receiver is gone, the endpoint was aborted, or 2^64-1 messages were sent.
#[derive(Drop)]
pub struct SendRefused<M> {
    /// The message, which its caller gets back.
    pub value: M,
}
