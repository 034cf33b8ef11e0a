//! The messages between a client and the ledger.

ghost use Rattle.std.specs.Prelude.{◌≡◌, IfErr, IfOk};
ghost use Rattle.cdc_ledger.specs.Submit.{IsLegal, history_or, submit};
ghost use Rattle.cdc_traffic.specs.Answering.{reply_to};

use crate::pasts::Past;
use cdc_ledger::{BatchError, Ledger};
use cdc_links::Message;
use cdc_types::{Batch, BatchResults};
use std::alloc::{AllocError, Global};

/// A client's request: a batch for the ledger.
#[derive(Drop)]
pub struct Request {
    /// The client's number, from 1.
    pub client: u64,
    /// The request's number among those of its client, from 1.
    pub number: u64,
    pub batch: Batch,
}

/// The ledger's reply to a request.
#[derive(Drop)]
pub struct Reply {
    /// The request's number among those of its client, from 1.
    pub number: u64,
    /// The batch of the request.
    pub batch: Batch,
    /// The ledger's answer: the results of the batch, or why it was refused as a whole. A ledger that runs out of
    /// memory sends no reply.
    pub answer: Result<BatchResults, BatchError>,
}

/// The messages of the link to a client.
impl Message for Reply {
    ghost use Rattle.cdc_traffic.specs.Following.{FollowsToClient};

    type Name = Past;

    ghost may_follow = { FollowsToClient };
}

impl Request {
    /// Submits the batch to the ledger, and replies with its answer. If memory runs out, it fails and the ledger is
    /// unchanged.
    pub fn answer(self, alloc: Global, ledger: &mut Ledger) -> Result<Reply, AllocError>
        ensures reply { IfOk result (λ reply. reply ≡ reply_to ledger.old self) }
        ensures after { IfOk result (λ _.
            ledger.new ≡ history_or ledger.old (submit ledger.old self.batch)) }
        ensures refused { IfErr result (λ _. ledger.new ≡ ledger.old) }
        ensures legal { IsLegal ledger.old }
    {
        let Request {
            client: _,
            number,
            batch,
        } = self;
        let _legal = ledger.last();
        let answer = match ledger.submit(alloc, &batch) {
            Ok(results) => Ok(results),
            Err(BatchError::LedgerClosed) => Err(BatchError::LedgerClosed),
            Err(BatchError::BatchTooLarge) => Err(BatchError::BatchTooLarge),
            Err(BatchError::TimestampsExhausted) => Err(BatchError::TimestampsExhausted),
            Err(BatchError::OutOfMemory) => return Err(AllocError),
        };
        Ok(Reply {
            number,
            batch,
            answer,
        })
    }
}

impl Reply {
    /// Copies the reply. Fails if there is no memory for the copy.
    pub fn try_copy(&self, alloc: Global) -> Result<Reply, AllocError>
        ensures { IfOk result (λ copy. copy ≡ self.now) }
    {
        let answer = match &self.answer {
            Ok(results) => Ok(results.try_copy(alloc)?),
            Err(why) => Err(*why),
        };
        Ok(Reply {
            number: self.number,
            batch: self.batch.try_copy(alloc)?,
            answer,
        })
    }
}
