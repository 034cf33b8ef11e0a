//! Keys of hashes, and the hashers that they make.

use indexmap::IndexMap;
use std::hash::{BuildHasher, DefaultHasher, FoldHasher, Hasher, RandomState};

/// With which key a map hashes.
#[derive(Clone, Copy)]
pub enum HashKey {
    /// One that is the same in each run. Who knows it can choose ids that collide, so a map of n ids then takes time as
    /// the square of n.
    Fixed,
    /// One of this run alone.
    Random(RandomState),
}

/// A map that hashes with such a key.
pub type KeyedMap<K, V> = IndexMap<K, V, HashKey>;

/// A hasher with such a key.
#[derive(Clone, Copy)]
pub enum KeyedHasher {
    Fixed(FoldHasher),
    Random(DefaultHasher),
}

impl BuildHasher for HashKey {
    ghost use Rattle.cdc_keys.specs.Hashing.{hasher_for};

    type Hasher = KeyedHasher;

    ghost build_hasher = { hasher_for };

    fn build_hasher(&self) -> KeyedHasher {
        match self {
            HashKey::Fixed => KeyedHasher::Fixed(FoldHasher::default()),
            HashKey::Random(state) => KeyedHasher::Random(state.build_hasher()),
        }
    }
}

impl Hasher for KeyedHasher {
    ghost use Rattle.cdc_keys.specs.Hashing.{finished, written};

    ghost write = { written };

    ghost finish = { finished };

    fn finish(&self) -> u64 {
        match self {
            KeyedHasher::Fixed(hasher) => hasher.finish(),
            KeyedHasher::Random(hasher) => hasher.finish(),
        }
    }

    fn write(&mut self, bytes: &[u8]) {
        match self {
            KeyedHasher::Fixed(hasher) => hasher.write(bytes),
            KeyedHasher::Random(hasher) => hasher.write(bytes),
        }
    }
}
