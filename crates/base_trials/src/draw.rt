//! `lotview`: its pictures byte for byte, its texts and statuses, and its bars beside printed states.

mod pictures;
mod runs;
mod texts;
