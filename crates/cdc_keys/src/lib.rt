//! Which key a map hashes with changes nothing that contracts see. A key is fixed, or random, so that nobody can choose
//! ids which collide.
#![tactic(auto)]

pub mod keys;

pub use keys::{HashKey, KeyedHasher, KeyedMap};
