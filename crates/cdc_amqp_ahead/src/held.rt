//! Bytes that were received and not yet consumed.

ghost use Rattle.std.specs.Prelude.{◌≡◌, ◌+◌, ◌-◌, ◌≤◌, ◌++◌, [], OnOk, drop, length, min, take, vec_capacity, vec_len};

use std::alloc::{AllocError, Global};

/// Bytes that were received and not yet consumed: `bytes` without its first `taken`.
#[derive(Drop)]
pub struct Held {
    bytes: Vec<u8>,
    taken: usize,
    ghost within: { taken ≤ vec_len bytes },
}

/// Drops the first so many bytes.
fn remove_front(bytes: &mut Vec<u8>, count: usize)
    requires { count ≤ vec_len bytes.old }
    ensures items { bytes.new.items ≡ drop count bytes.old.items }
    ensures len { vec_len bytes.new ≡ vec_len bytes.old - count }
{
    let len = bytes.len();
    bytes.as_mut_slice().copy_within(count..len, 0);
    bytes.truncate(len - count);
}

impl Held {
    /// No bytes.
    pub(crate) fn new(alloc: Global) -> Held
        ensures { drop result.taken result.bytes.items ≡ [] }
    {
        Held {
            bytes: Vec::new(alloc),
            taken: 0,
        }
    }

    /// The bytes.
    pub(crate) fn unread(&self) -> &[u8]
        ensures { result.now ≡ drop self.now.taken self.now.bytes.items }
    {
        let taken = self.taken;
        let bytes = self.bytes.as_slice();
        &bytes[taken..]
    }

    /// Makes room for so many bytes more. What was consumed is dropped.
    pub(crate) fn make_room(&mut self, additional: usize) -> Result<(), AllocError>
        ensures unread { drop self.new.taken self.new.bytes.items ≡ drop self.old.taken self.old.bytes.items }
        ensures room { OnOk result (vec_len self.new.bytes + additional ≤ vec_capacity self.new.bytes) }
    {
        let taken = self.taken;
        self.taken = 0;
        remove_front(&mut self.bytes, taken);
        self.bytes.reserve(additional)
    }

    /// Adds these bytes, for which there is room.
    pub(crate) fn append(&mut self, bytes: &[u8])
        requires room { vec_len self.old.bytes + length bytes.now ≤ vec_capacity self.old.bytes }
        ensures { drop self.new.taken self.new.bytes.items ≡ drop self.old.taken self.old.bytes.items ++ bytes.now }
    {
        let Ok(()) = self.bytes.extend_from_slice(bytes) else {
            unreachable!()
        };
    }

    /// Consumes the first bytes: so many, or all if there are fewer.
    pub(crate) fn consume(&mut self, amount: usize)
        ensures { drop self.new.taken self.new.bytes.items
            ≡ drop amount (drop self.old.taken self.old.bytes.items) }
    {
        let left = self.bytes.len() - self.taken;
        self.taken += left.min(amount);
    }

    /// Moves as many bytes as both have from the front into `buf`, and returns how many.
    pub(crate) fn read_into(&mut self, buf: &mut [u8]) -> usize
        ensures count { result ≡ min (length (drop self.old.taken self.old.bytes.items)) (length buf.old) }
        ensures len { length buf.new ≡ length buf.old }
        ensures bytes { drop self.old.taken self.old.bytes.items
            ≡ take result buf.new ++ drop self.new.taken self.new.bytes.items }
    {
        let unread = self.unread();
        let count = unread.len().min(buf.len());
        buf[..count].copy_from_slice(&unread[..count]);
        self.consume(count);
        count
    }
}
