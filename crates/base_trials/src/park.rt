//! Places to sleep, buckets and their table, and the parking lot.

pub(crate) mod askings;
mod buckets;
mod letters;
mod lots;
mod queues;
mod records;
mod rights;
mod seeking;
mod tables;
