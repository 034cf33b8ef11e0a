//! The batches of a script, divided by the clients that submit them.

ghost use Rattle.std.specs.Prelude.{◌≡◌, ◌==◌, IfOk, filter, map, not};
ghost use Rattle.cdc_run_command.specs.Runs.{client_count, entries_of as client_entries, own_of, owners_of, shares_from};

use cdc_script::ClientBatch;
use cdc_types::Batch;
use std::alloc::{AllocError, Global};

/// The batches of a script, divided by client.
#[derive(Drop)]
pub struct Parted {
    /// The greatest number of a client, at least 1.
    pub clients: u64,
    /// The client that submits each batch, in the order of the script.
    pub order: Vec<u64>,
    /// The batches of each client in their order, by the clients' numbers.
    pub scripts: Vec<Vec<Batch>>,
}

/// Divides the batches of a script by the clients that submit them. Fails if it is out of memory.
pub fn part_batches(alloc: Global, batches: Vec<ClientBatch>) -> Result<Parted, AllocError>
    ensures clients { IfOk result (λ parted. parted.clients ≡ client_count batches.items) }
    ensures order { IfOk result (λ parted. parted.order.items ≡ owners_of batches.items) }
    ensures scripts { IfOk result (λ parted. map (λ s. s.items) parted.scripts.items
        ≡ shares_from 1 (client_count batches.items) (client_entries batches.items)) }
{
    let clients = greatest_client(batches.as_slice());
    let order = owners(alloc, batches.as_slice())?;
    let entries = entries_of(alloc, batches)?;
    let scripts = part_entries(alloc, clients, entries)?;
    Ok(Parted {
        clients,
        order,
        scripts,
    })
}

/// The greatest number of a client that submits a batch, or 1 if there is none.
fn greatest_client(batches: &[ClientBatch]) -> u64
    ensures { result ≡ client_count batches.now }
{
    let mut greatest = 1;
    for item in batches {
        greatest = greatest.max(item.client);
    }
    greatest
}

/// The client that submits each batch.
fn owners(alloc: Global, batches: &[ClientBatch]) -> Result<Vec<u64>, AllocError>
    ensures { IfOk result (λ owners. owners.items ≡ owners_of batches.now) }
{
    let mut owners = Vec::with_capacity(alloc, batches.len())?;
    for item in batches {
        owners.push(item.client)?;
    }
    Ok(owners)
}

fn entries_of(alloc: Global, batches: Vec<ClientBatch>) -> Result<Vec<(u64, Batch)>, AllocError>
    ensures { IfOk result (λ entries. entries.items ≡ client_entries batches.items) }
{
    let mut entries = Vec::with_capacity(alloc, batches.len())?;
    for ClientBatch { client, batch } in batches {
        entries.push((client, batch))?;
    }
    Ok(entries)
}

/// The batches of each client, by the clients' numbers.
fn part_entries(
    alloc: Global,
    clients: u64,
    entries: Vec<(u64, Batch)>,
) -> Result<Vec<Vec<Batch>>, AllocError>
    ensures { IfOk result (λ scripts. map (λ s. s.items) scripts.items
        ≡ shares_from 1 clients entries.items) }
{
    let mut scripts = Vec::new(alloc);
    let mut left = entries;
    for place in 0..clients {
        let Share { own, others } = part_share(alloc, place + 1, left)?;
        scripts.push(own)?;
        left = others;
    }
    Ok(scripts)
}

/// A client's own batches, and the others' with their clients' numbers, each in the order given.
#[derive(Drop)]
struct Share {
    own: Vec<Batch>,
    others: Vec<(u64, Batch)>,
}

/// Separates a client's batches from those of the others.
fn part_share(alloc: Global, client: u64, entries: Vec<(u64, Batch)>) -> Result<Share, AllocError>
    ensures own { IfOk result (λ share. share.own.items ≡ own_of client entries.items) }
    ensures others { IfOk result (λ share. share.others.items
        ≡ filter (λ e. not (e.0 == client)) entries.items) }
{
    let mut own = Vec::new(alloc);
    let mut others = Vec::new(alloc);
    for (number, batch) in entries {
        if number == client {
            own.push(batch)?;
        } else {
            others.push((number, batch))?;
        }
    }
    Ok(Share { own, others })
}
