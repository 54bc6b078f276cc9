//! Trials of the crates below `lot_sync` but `lot_order` and `lot_permits`, of `lot_journal` and of `lot_draw`, through
//! public calls. It has tests and nothing else.
#![tactic(auto)]

#[cfg(test)]
mod asserts;
#[cfg(test)]
mod draw;
#[cfg(test)]
mod kinds;
#[cfg(test)]
mod park;
#[cfg(test)]
mod rights;
#[cfg(test)]
mod taking;
