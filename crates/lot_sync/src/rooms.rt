//! The memory of a lot that starts, and the pool of its passes.
ghost use Rattle.std.specs.Prelude.{◌≡◌, ◌+◌, ◌<◌, ◌≤◌, length, vec_len, vec_capacity, IfOk};
ghost use Rattle.std.specs.List.{All};
ghost use Rattle.lot_rights.specs.Shown.{RootShown};
ghost use Rattle.lot_whole.specs.declared.views.LotRootView.{LotRootView};
ghost use Rattle.lot_scheme.specs.Counts.{IsUnused};
ghost use Rattle.lot_scheme.specs.Roots.{IsInItsKind};
ghost use Rattle.lot_waits.specs.Ledger.{AreZeros};
ghost use Rattle.lot_sync.specs.Lot.{PassView, rested};
ghost use Rattle.lot_sync.specs.Starting.{IsNewPass, Starts};

use crate::pass::Pass;
use crate::pool::{ClosingRoom, Idle, Pool};
use lot_scheme::{LotName, NamedPass, NamedRoot, Tally};
use lot_waits::Tallies;
use lot_whole::{LotLyingRoot, LotPass};
use lot_words::Keeps;
use std::alloc::{AllocError, Global};

/// The memory of a lot, before anything lies in it.
pub(crate) struct Rooms<V: Keeps + Send, N: LotName<V> + Send, C: Tally + Send> {
    pub(crate) idle: Vec<Idle<V, N>>,
    pub(crate) named: Vec<NamedRoot<V, N, C>>,
    pub(crate) counts: Vec<C>,
    pub(crate) tallies: Vec<Box<Tallies>>,
    pub(crate) sums: Tallies,
    ghost empty: { (vec_len idle ≡ 0) × (vec_len named ≡ 0) × (vec_len counts ≡ 0) },
    ghost for_passes: { N.threads ≤ vec_capacity idle },
    ghost for_roots: { (N.first_sem + length N.permits ≤ vec_capacity named)
        × (N.first_sem + length N.permits ≤ vec_capacity counts) },
    ghost for_counts: { (vec_len tallies ≡ N.threads) × All (λ (t : _). AreZeros N.conds t.value) tallies.items },
    ghost zeros: { AreZeros N.conds sums },
}

impl<V: Keeps + Send, N: LotName<V> + Send, C: Tally + Send> Rooms<V, N, C> {
    /// Room for so many threads and keys, of which so many are conditions.
    pub(crate) fn new(
        alloc: Global,
        threads: usize,
        keys: usize,
        conds: usize,
    ) -> Result<Rooms<V, N, C>, AllocError>
        requires threads { threads ≡ N.threads }
        requires keys { (keys ≡ N.first_sem + length N.permits) × (conds ≡ N.conds) }
    {
        let sums = Tallies::new(alloc, conds)?;
        let tallies = tallies_for(alloc, threads, conds)?;
        let counts = Vec::with_capacity(alloc, keys)?;
        let idle = Vec::with_capacity(alloc, threads)?;
        match Vec::with_capacity(alloc, keys) {
            Ok(named) => Ok(Rooms {
                idle,
                named,
                counts,
                tallies,
                sums,
            }),
            Err(refused) => {
                idle.destroy_empty();
                Err(refused)
            }
        }
    }
}

fn tallies_for(alloc: Global, threads: usize, conds: usize) -> Result<Vec<Box<Tallies>>, AllocError>
    ensures long { IfOk result (λ t. vec_len t ≡ threads) }
    ensures zeros { IfOk result (λ ts. All (λ t. AreZeros conds t.value) ts.items) }
{
    let mut tallies = Vec::with_capacity(alloc, threads)?;
    for _ in 0..threads {
        let none = Tallies::new(alloc, conds)?;
        tallies.push_reserved(Box::new(alloc, none)?);
    }
    Ok(tallies)
}

/// Gives the roots the lot's name, in order: nobody has parked on their keys yet. Their own room stays.
pub(crate) fn name_roots<V: Keeps + Send, N: LotName<V> + Send, C: Tally + Send>(
    roots: &mut Vec<LotLyingRoot<V>>,
    named: &mut Vec<NamedRoot<V, N, C>>,
)
    requires own { All (λ (r : RootShown LotRootView). (r.table ≡ N.opening.locks)
        × IsInItsKind N.locks N.first_sem r.key r.own × IsUnused r) roots.old.items }
    requires room { (vec_len named.old ≡ 0) × (vec_len roots.old ≤ vec_capacity named.old) }
    ensures same { named.new.items ≡ roots.old.items }
    ensures empty { (vec_len roots.new ≡ 0) × (vec_capacity roots.new ≡ vec_capacity roots.old) }
    ensures room { vec_capacity named.new ≡ vec_capacity named.old }
{
    while let Some(root) = roots.pop() {
        named.push_reserved(NamedRoot::new(root));
    }
    named.reverse();
}

/// Puts all passes into the pool, each with what is kept of its counts. Their own room stays.
fn fill<V: Keeps + Send, N: LotName<V> + Send>(
    passes: &mut Vec<LotPass<V>>,
    tallies: &mut Vec<Box<Tallies>>,
    idle: &mut Vec<Idle<V, N>>,
)
    requires fresh { All (IsNewPass V.grows N.LotName) passes.old.items }
    requires long { vec_len tallies.old ≡ vec_len passes.old }
    requires none { All (λ (t : _). AreZeros N.conds t.value) tallies.old.items }
    requires rests { (p : PassView V) → Starts N.values N.threads p → V.rests (rested p) }
    requires room { (vec_len idle.old ≡ 0) × (vec_len passes.old ≤ vec_capacity idle.old) }
    ensures long { vec_len idle.new ≡ vec_len passes.old }
    ensures room { vec_capacity idle.new ≡ vec_capacity idle.old }
    ensures empty { (vec_len passes.new ≡ 0) × (vec_len tallies.new ≡ 0) }
    ensures rooms { vec_capacity passes.new ≡ vec_capacity passes.old }
{
    while let Some(right) = passes.pop() {
        idle.push_reserved(make_idle(right, tallies.take_last()));
    }
}

fn make_idle<V: Keeps + Send, N: LotName<V> + Send>(
    right: LotPass<V>,
    tallies: Box<Tallies>,
) -> Idle<V, N>
    requires fresh { IsNewPass V.grows N.LotName right }
    requires none { AreZeros N.conds tallies.value }
    requires rests { (p : PassView V) → Starts N.values N.threads p → V.rests (rested p) }
{
    let pass = Pass::at_rest(NamedPass::new(right), tallies);
    Idle::new(pass)
}

/// The pool of all passes, each with what is kept of its counts. The lists that are empty then are the room for
/// closing.
pub(crate) fn pool_of<V: Keeps + Send, N: LotName<V> + Send, C: Tally + Send>(
    mut passes: Vec<LotPass<V>>,
    mut tallies: Vec<Box<Tallies>>,
    mut idle: Vec<Idle<V, N>>,
    roots: Vec<LotLyingRoot<V>>,
    named: Vec<NamedRoot<V, N, C>>,
    counts: Vec<C>,
    sums: Tallies,
) -> Pool<V, N, C>
    requires fresh { All (IsNewPass V.grows N.LotName) passes.items }
    requires long { (vec_len tallies ≡ vec_len passes) × (vec_len passes ≤ N.threads) }
    requires none { All (λ (t : _). AreZeros N.conds t.value) tallies.items }
    requires rests { (p : PassView V) → Starts N.values N.threads p → V.rests (rested p) }
    requires empty { (vec_len idle ≡ 0) × (vec_len roots ≡ 0) × (vec_len named ≡ 0) × (vec_len counts ≡ 0) }
    requires for_passes { (N.threads ≤ vec_capacity idle) × (N.threads ≤ vec_capacity passes) }
    requires for_roots { (N.first_sem + length N.permits ≤ vec_capacity roots)
        × (N.first_sem + length N.permits ≤ vec_capacity named)
        × (N.first_sem + length N.permits ≤ vec_capacity counts) }
    requires zeros { AreZeros N.conds sums }
    ensures { result ≡ vec_len passes }
{
    fill(&mut passes, &mut tallies, &mut idle);
    tallies.destroy_empty();
    Pool::new(idle, ClosingRoom::new(passes, roots, named, counts, sums))
}
