//! A client actor's work: it sends requests, one at a time, and keeps a copy of each reply.

mod cores;
mod same;

pub use cores::{ClientCore, ClientParts};
