//! What lies behind a lock is known by the name in its type alone.
ghost use Rattle.std.specs.Prelude.{◌≡◌};

use crate::asserts::equal;
use lot_rights::{Name, Named, OfOpening};
use std::marker::Brand;
use std::sync::Mutex;
use std::test::*;

/// Stands for a right: it tells how many words the table of its opening has.
#[derive(Drop)]
struct Ticket {
    words: u64,
}

impl OfOpening for Ticket {
    ghost is_of = { λ o t. t.words ≡ o.locks.words };
}

fn through_a_lock<N: Name>(ticket: Ticket) -> (u64, u64)
    requires { ticket.words ≡ N.opening.locks.words }
    ensures { (result.0 ≡ N.opening.locks.words) × (result.1 ≡ N.opening.locks.words) }
{
    let place: Mutex<Named<Ticket, N>> = Mutex::new(Named::new(ticket));
    let named = place.into_inner();
    let seen = named.inner().words;
    (seen, named.into_inner().words)
}

#[test]
fn a_name_is_picked_after_the_opening(rt: HostRuntime) -> Result<(), Fail> {
    let (seen, kept) = through_a_lock::<Brand>(Ticket { words: 40 });
    equal(&rt, seen, 40);
    equal(&rt, kept, 40);
    Ok(())
}
