//! A lot for the smallest caller, from its opening to its close.
ghost use Rattle.std.specs.Prelude.{◌≡◌, length};
ghost use Rattle.lot_sync.specs.Opened.{IsNamed};

use super::{Number, raise};
use lot_sync::{Lot, LotName, Opened};
use std::alloc::Global;
use std::marker::Brand;
use std::process::Abort;
use std::sync::Wait;

/// Starts the lot, raises its number twice, closes the lot, and answers the number.
fn raised<N: LotName<Number> + Send, W: Wait + Abort>(
    rt: &W,
    alloc: Global,
    opened: Opened<Number>,
) -> u64
    requires named { IsNamed N.LotName opened }
    requires sizes { (opened.threads ≡ 1) × (length opened.values ≡ 1) }
{
    let Ok(mut passes) = Vec::with_capacity(alloc, 1) else {
        panic!(rt; "no memory")
    };
    let Ok(lot) = opened.start::<N>(alloc) else {
        panic!(rt; "not started")
    };
    let Ok(pass) = lot.register(rt) else {
        panic!(rt; "no pass is in")
    };
    let pass = raise(rt, &lot, pass);
    let pass = raise(rt, &lot, pass);
    passes.push_reserved(pass);
    let (values, _) = lot.close(rt, passes);
    values[0].n
}

#[test]
fn a_small_caller(rt: HostRuntime) {
    let Ok(values) = vec![in rt.alloc(); Number { n: 0 }; 1] else {
        panic!(&rt; "no memory")
    };
    match Lot::<Number, Brand>::open(rt.alloc(), 1, values, 0) {
        Ok(opened) => assert_eq!(rt; raised::<Brand, HostRuntime>(&rt, rt.alloc(), opened), 2),
        Err(_) => panic!(&rt; "not opened"),
    }
}
