//! Tests of links, of what goes over them, and of the actors of a run, for what no contract of these crates states.
#![tactic(auto)]

#[cfg(test)]
mod broker_actors;
#[cfg(test)]
mod connector_actors;
#[cfg(test)]
mod ends;
#[cfg(test)]
mod ledger_actors;
#[cfg(test)]
mod links;
#[cfg(test)]
mod names;
#[cfg(test)]
mod read_ahead;
#[cfg(test)]
mod receiving;
#[cfg(test)]
mod traffic;
