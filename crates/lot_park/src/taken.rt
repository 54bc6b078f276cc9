ghost use Rattle.std.specs.Prelude.{◌≤◌};
ghost use Rattle.lot_table.specs.declared.sizes.TheConstants.{MOST_THREADS};

use lot_table::MOST_THREADS;

/// The threads of a line that was taken, in order.
#[derive(Clone, Copy)]
pub struct TakenThreads {
    pub threads: [usize; MOST_THREADS],
    pub count: usize,
    ghost within: { count ≤ MOST_THREADS },
}
