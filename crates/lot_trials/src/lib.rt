//! Trials of a lot, and of what the programs do with lots, through public calls: rows with the words that they leave,
//! schedules made by hand, mostly with real threads, callers that prove what a user would conclude, and the programs'
//! texts and statuses. Beside tests it has the smallest caller, which the pages quote (`example.rt`).
//!
//! Those that `scripts/refused` at the top lists end well where any one request for memory, or any one start of a
//! thread, is refused: the call says so, nothing is lost, and the next call succeeds. It runs them with each request
//! refused in turn, and some with all from one on. A test in whose body `Memory::MayBeRefused` stands has to be in its
//! list.
#![tactic(auto)]

#[cfg(test)]
mod accounts;
#[cfg(test)]
mod asserts;
#[cfg(test)]
mod calls;
#[cfg(test)]
mod composed;
#[cfg(test)]
mod contention;
#[cfg(test)]
mod counts;
mod example;
#[cfg(test)]
mod gates;
#[cfg(test)]
mod history;
#[cfg(test)]
mod holding;
#[cfg(test)]
mod hottest;
#[cfg(test)]
mod ledger;
#[cfg(test)]
mod many;
#[cfg(test)]
mod measures;
#[cfg(test)]
mod pairs;
#[cfg(test)]
mod passes;
#[cfg(test)]
mod permits;
#[cfg(test)]
mod replays;
#[cfg(test)]
mod returned;
#[cfg(test)]
mod rows;
#[cfg(test)]
mod runs;
#[cfg(test)]
mod schedules;
#[cfg(test)]
mod shares;
#[cfg(test)]
mod standing;
#[cfg(test)]
mod steps;
#[cfg(test)]
mod texts;
#[cfg(test)]
mod values;
#[cfg(test)]
mod visits;
#[cfg(test)]
mod waits;
#[cfg(test)]
mod witnesses;
