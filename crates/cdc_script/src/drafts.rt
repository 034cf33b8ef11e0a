//! A script whose lines are being read.

ghost use Rattle.std.specs.Prelude.{◌≡◌, List, [], ◌∷◌, ◌++◌, IfOk};
ghost use Rattle.cdc_script.specs.declared.statements.Statement.{Statement as States};
ghost use Rattle.cdc_script.specs.declared.statements.Statement.TheVariants as states;
ghost use Rattle.cdc_script.specs.declared.drafts.OpenBatch.TheVariants as joined;
ghost use Rattle.cdc_script.specs.Private.Drafts.{context_of, open_kind, Takes};
ghost use Rattle.cdc_script.specs.Private.Drafts.{completed, completed_batch, completed_bindings};
ghost use Rattle.cdc_script.specs.Private.Drafts.{completed_lines};
ghost use Rattle.cdc_script.specs.Scripts.{Numbered, at_top, batches_of, bindings_of, lines_of};
ghost use Rattle.cdc_script.specs.Statements.{ended_in};
ghost use Rattle.cdc_script.specs.Private.Suited.{IsSuited, HasBatch};

use crate::faults::BatchEnd;
use crate::fields::ItemKind;
use crate::scripts::{ClientBatch, Script, ScriptLines};
use crate::statements::{Context, Statement};
use cdc_match::Binding;
use cdc_types::{Batch, Items, NewAccount, NewTransfer};
use std::alloc::{AllocError, Global};
use std::mem;

/// The batch to which the next items are added.
#[derive(Drop)]
pub enum OpenBatch {
    /// No batch is open.
    Closed,
    /// A batch of accounts. `now` is in nanoseconds.
    Accounts { now: u64, items: Vec<NewAccount> },
    /// A batch of transfers. `now` is in nanoseconds.
    Transfers { now: u64, items: Vec<NewTransfer> },
}

/// The statements of the lines read so far.
#[derive(Drop)]
pub struct Draft {
    pub bindings: Vec<Binding>,
    /// The client that submits the next batch.
    pub client: u64,
    /// The last batch, if items can still be added to it.
    pub open_batch: OpenBatch,
    /// The batches to which no item can be added any more.
    pub batches: Vec<ClientBatch>,
    /// The number of the line that began the open batch, or else ended the last one. 0 before the first batch.
    pub batch_line: u32,
    /// Which line ended the last batch; none before any did, and if one is open.
    pub ended_by: Option<BatchEnd>,
    /// The line of each batch, including the open one.
    pub batch_lines: Vec<u32>,
    pub request_lines: Vec<u32>,
}

impl Draft {
    /// A draft without any lines.
    pub fn new(alloc: Global) -> Draft
        ensures context { context_of result ≡ at_top }
        ensures batches { (rest : List States) → completed result rest ≡ batches_of 1 rest }
        ensures bindings { (rest : List States) → completed_bindings result rest ≡ bindings_of rest }
        ensures lines { (rest : List Numbered) → completed_lines result rest ≡ lines_of rest }
    {
        Draft {
            bindings: Vec::new(alloc),
            client: 1,
            open_batch: OpenBatch::Closed,
            batches: Vec::new(alloc),
            batch_line: 0,
            ended_by: None,
            batch_lines: Vec::new(alloc),
            request_lines: Vec::new(alloc),
        }
    }

    /// The part of the draft that the next line depends on.
    pub fn context(&self) -> Context
        ensures { result ≡ context_of self.now }
    {
        let open_batch = match &self.open_batch {
            OpenBatch::Closed => None,
            OpenBatch::Accounts { .. } => Some(ItemKind::Account),
            OpenBatch::Transfers { .. } => Some(ItemKind::Transfer),
        };
        Context {
            open_batch,
            subscribers: self.bindings.len(),
            batch_line: self.batch_line,
            ended_by: self.ended_by,
        }
    }

    /// Adds the statement of the line of this number.
    pub fn add(&mut self, alloc: Global, line: u32, statement: Statement) -> Result<(), AllocError>
        requires suited { IsSuited (context_of self.old) statement }
        ensures { IfOk result (λ u. Takes self.old self.new (record { line = line; states = statement })) }
    {
        match statement {
            Statement::Subscriber(binding) => self.add_subscriber(line, binding),
            Statement::Client(client) => self.set_client(line, client),
            Statement::Accounts(now) => self.open_accounts(alloc, line, now),
            Statement::Transfers(now) => self.open_transfers(alloc, line, now),
            Statement::Account(account) => self.add_account(line, account),
            Statement::Transfer(transfer) => self.add_transfer(line, transfer),
            Statement::Pulse(now) => self.add_pulse(line, now),
        }
    }

    /// The script of all lines that were added.
    pub fn finish(mut self) -> Result<Script, AllocError>
        ensures batches { IfOk result (λ script. script.batches ≡ completed self []) }
        ensures bindings { IfOk result (λ script. script.bindings ≡ completed_bindings self []) }
        ensures lines { IfOk result (λ script. script.lines ≡ completed_lines self []) }
    {
        self.close(0, None)?;
        let Draft {
            bindings,
            client: _,
            open_batch: _,
            batches,
            batch_line: _,
            ended_by: _,
            batch_lines,
            request_lines,
        } = self;
        Ok(Script {
            bindings: Items::from_vec(bindings),
            batches: Items::from_vec(batches),
            lines: ScriptLines {
                batches: Items::from_vec(batch_lines),
                requests: Items::from_vec(request_lines),
            },
        })
    }

    /// Adds a subscriber with this binding.
    fn add_subscriber(&mut self, line: u32, binding: Binding) -> Result<(), AllocError>
        ensures { IfOk result (λ u. Takes self.old self.new
            (record { line = line; states = states.Subscriber binding })) }
    {
        self.close(line, Some(BatchEnd::Subscriber))?;
        self.bindings.push(binding)?;
        Ok(())
    }

    /// Makes this client the one that submits the batches that follow.
    fn set_client(&mut self, line: u32, client: u64) -> Result<(), AllocError>
        ensures { IfOk result (λ u. Takes self.old self.new
            (record { line = line; states = states.Client client })) }
    {
        self.close(line, Some(BatchEnd::Client))?;
        self.client = client;
        Ok(())
    }

    /// Begins a batch of accounts.
    fn open_accounts(&mut self, alloc: Global, line: u32, now: u64) -> Result<(), AllocError>
        ensures { IfOk result (λ u. Takes self.old self.new
            (record { line = line; states = states.Accounts now })) }
    {
        self.begin(line)?;
        let items = Vec::new(alloc);
        self.open_batch = OpenBatch::Accounts { now, items };
        Ok(())
    }

    /// Begins a batch of transfers.
    fn open_transfers(&mut self, alloc: Global, line: u32, now: u64) -> Result<(), AllocError>
        ensures { IfOk result (λ u. Takes self.old self.new
            (record { line = line; states = states.Transfers now })) }
    {
        self.begin(line)?;
        let items = Vec::new(alloc);
        self.open_batch = OpenBatch::Transfers { now, items };
        Ok(())
    }

    /// Adds a pulse, which is a batch by itself.
    fn add_pulse(&mut self, line: u32, now: u64) -> Result<(), AllocError>
        ensures { IfOk result (λ u. Takes self.old self.new
            (record { line = line; states = states.Pulse now })) }
    {
        self.close(line, Some(BatchEnd::Pulse))?;
        self.batch_lines.push(line)?;
        self.push(Batch::Pulse { now })
    }

    /// Adds an account to the open batch of accounts.
    fn add_account(&mut self, line: u32, account: NewAccount) -> Result<(), AllocError>
        requires { HasBatch (open_kind self.old.open_batch) (states.Account account) }
        ensures { IfOk result (λ u. Takes self.old self.new
            (record { line = line; states = states.Account account })) }
    {
        if let OpenBatch::Accounts { items, .. } = &mut self.open_batch {
            items.push(account)?;
        }
        self.request_lines.push(line)?;
        Ok(())
    }

    /// Adds a transfer to the open batch of transfers.
    fn add_transfer(&mut self, line: u32, transfer: NewTransfer) -> Result<(), AllocError>
        requires { HasBatch (open_kind self.old.open_batch) (states.Transfer transfer) }
        ensures { IfOk result (λ u. Takes self.old self.new
            (record { line = line; states = states.Transfer transfer })) }
    {
        if let OpenBatch::Transfers { items, .. } = &mut self.open_batch {
            items.push(transfer)?;
        }
        self.request_lines.push(line)?;
        Ok(())
    }

    /// Ends the open batch, if there is one, at the line of a batch that takes items.
    fn begin(&mut self, line: u32) -> Result<(), AllocError>
        ensures others { IfOk result (λ u. self.new ≡ record self.old {
          open_batch = joined.Closed;
          batches = self.new.batches;
          batch_line = line;
          ended_by = None;
          batch_lines = self.new.batch_lines;
        }) }
        ensures batches { IfOk result (λ u. self.new.batches.items ≡
            self.old.batches.items ++ completed_batch self.old.client self.old.open_batch []) }
        ensures lines { IfOk result (λ u. self.new.batch_lines.items ≡
            self.old.batch_lines.items ++ line ∷ []) }
    {
        self.close(line, None)?;
        self.batch_line = line;
        self.ended_by = None;
        self.batch_lines.push(line)?;
        Ok(())
    }

    /// Ends the open batch, if there is one, at this line.
    pub fn close(&mut self, line: u32, end: Option<BatchEnd>) -> Result<(), AllocError>
        ensures others { IfOk result (λ u. self.new ≡ record self.old {
          open_batch = joined.Closed;
          batches = self.new.batches;
          batch_line = ended_in line (open_kind self.old.open_batch) self.old.batch_line;
          ended_by = ended_in end (open_kind self.old.open_batch) self.old.ended_by;
        }) }
        ensures batches { IfOk result (λ u. self.new.batches.items ≡
            self.old.batches.items ++ completed_batch self.old.client self.old.open_batch []) }
    {
        match mem::replace(&mut self.open_batch, OpenBatch::Closed) {
            OpenBatch::Closed => Ok(()),
            OpenBatch::Accounts { now, items } => {
                let items = Items::from_vec(items);
                self.batch_line = line;
                self.ended_by = end;
                self.push(Batch::Accounts { now, items })
            }
            OpenBatch::Transfers { now, items } => {
                let items = Items::from_vec(items);
                self.batch_line = line;
                self.ended_by = end;
                self.push(Batch::Transfers { now, items })
            }
        }
    }

    /// Adds a batch to which no item can be added.
    fn push(&mut self, batch: Batch) -> Result<(), AllocError>
        ensures others { IfOk result (λ u. self.new
            ≡ record self.old { batches = self.new.batches }) }
        ensures batches { IfOk result (λ u. self.new.batches.items ≡
            self.old.batches.items ++ record { client = self.old.client; batch = batch } ∷ []) }
    {
        let client = self.client;
        self.batches.push(ClientBatch { client, batch })?;
        Ok(())
    }
}
