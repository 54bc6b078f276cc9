//! A lot for three threads, its opening and its end. Most schedules are on one of two locks, whose numbers are 0 and 1,
//! and of one condition, whose number is 2.
ghost use Rattle.std.specs.Prelude.{◌≡◌, ◌+◌, ◌<◌, ◌≤◌, [], vec_len, vec_capacity, IfOk};
ghost use Rattle.std.specs.List.{All};
ghost use Rattle.lot_park.specs.Lots.{AreIdle, Appends};
ghost use Rattle.lot_scheme.specs.Roots.{root_view};
ghost use Rattle.base_trials.specs.Calm.{IsCalm};
ghost use Rattle.base_trials.specs.Opened.{AreDealt, AreFreshRoots, AreBack, AreRootsBack, IsUntouched, size_of};

use crate::asserts::failed;
use crate::rights::tally::Tally;
use crate::taking::take_three;
use lot_park::Moment;
use lot_rights::WordsFault;
use lot_scheme::{LotName, LotScheme, NamedPass, NamedRoot};
use lot_whole::{LotLyingRoot, LotPass, LotWords};
use std::alloc::{AllocError, Global};
use std::process::Abort;

pub(crate) const THREADS: usize = 3;

// At this moment no release is fair, unless it is asked to be.
pub(crate) const EARLY: Moment = Moment { now: 0, word: 7 };

pub(crate) type OneTable<N> = LotScheme<Tally, N>;

pub(crate) type Pass<N> = NamedPass<Tally, N>;

pub(crate) type Words = LotWords<Tally>;

pub(crate) type Passes = Vec<LotPass<Tally>>;

pub(crate) type Roots = Vec<LotLyingRoot<Tally>>;

/// The words with all their rights, as the opening answers them.
pub(crate) type Opened = (Words, Passes, Roots);

/// The passes of the three threads, each of which has no lock and wants none.
pub(crate) struct CalmThree<N: LotName<Tally>> {
    pub(crate) zero: Pass<N>,
    pub(crate) one: Pass<N>,
    pub(crate) two: Pass<N>,
    ghost calm: { IsCalm 0 zero × IsCalm 1 one × IsCalm 2 two },
}

// What so many locks guard, none of which is counted at.
fn tallies(alloc: Global, count: usize) -> Result<Vec<Tally>, AllocError>
    ensures len { IfOk result (λ values. vec_len values ≡ count) }
    ensures zero { IfOk result (λ values. All (λ (x : Tally). x.total ≡ 0) values.items) }
{
    let mut values = Vec::new(alloc);
    for _ in 0..count {
        values.push(Tally { total: 0 })?;
    }
    Ok(values)
}

/// Opens the words of a lot of so many locks and conditions.
pub(crate) fn open_words(alloc: Global, locks: usize, conds: usize) -> Result<Opened, WordsFault>
    requires { (0 < locks) × (locks + conds ≤ 3) }
    ensures size { IfOk result (λ r. r.0.size ≡ size_of locks conds) }
    ensures passes { IfOk result (λ r. AreDealt r.0.table locks conds r.1.items) }
    ensures roots { IfOk result (λ r. AreFreshRoots r.0.table locks conds r.2.items) }
{
    let Ok(values) = tallies(alloc, locks) else {
        return Err(WordsFault::NoMemory);
    };
    match LotWords::open(alloc, THREADS, values, conds, Vec::new(alloc)) {
        Ok(opened) => Ok(opened),
        Err((fault, _values)) => Err(fault),
    }
}

/// The passes of the three threads under the lot's name.
pub(crate) fn deal<N: LotName<Tally>>(passes: &mut Passes) -> (Pass<N>, Pass<N>, Pass<N>)
    requires { AreDealt N.opening.locks N.locks N.conds passes.old.items }
    ensures fresh { IsUntouched (N.locks + N.conds) 0 result.0 × IsUntouched (N.locks + N.conds) 1 result.1
        × IsUntouched (N.locks + N.conds) 2 result.2 }
    ensures room { (vec_len passes.new ≡ 0) × (3 ≤ vec_capacity passes.new) }
{
    let (zero, one, two) = take_three(passes);
    (
        NamedPass::new(zero),
        NamedPass::new(one),
        NamedPass::new(two),
    )
}

/// They come back.
pub(crate) fn gather<N: LotName<Tally>>(
    passes: &mut Passes,
    zero: Pass<N>,
    one: Pass<N>,
    two: Pass<N>,
)
    requires room { (vec_len passes.old ≡ 0) × (3 ≤ vec_capacity passes.old) }
    requires calm { IsCalm 0 zero × IsCalm 1 one × IsCalm 2 two }
    ensures { AreBack N.opening.locks passes.new.items }
{
    passes.push_reserved(zero.into_pass());
    passes.push_reserved(one.into_pass());
    passes.push_reserved(two.into_pass());
}

/// The roots of the two locks and of the condition under the lot's name, or the test fails.
pub(crate) fn name_roots<N: LotName<Tally>>(
    rt: &impl Abort,
    alloc: Global,
    roots: &mut Roots,
) -> Vec<NamedRoot<Tally, N>>
    requires keys { (N.locks ≡ 2) × (N.conds ≡ 1) × (N.first_sem ≡ 3) }
    requires fresh { AreFreshRoots N.opening.locks 2 1 roots.old.items }
    ensures idle { (vec_len result ≡ 3) × AreIdle root_view result.items }
    ensures room { (vec_len roots.new ≡ 0) × (3 ≤ vec_capacity roots.new) }
{
    let mut named = match Vec::with_capacity(alloc, 3) {
        Ok(named) => named,
        Err(_) => failed(rt, "no memory"),
    };
    let cond = roots.take_last();
    let second = roots.take_last();
    let first = roots.take_last();
    named.push_reserved(NamedRoot::new(first));
    named.push_reserved(NamedRoot::new(second));
    named.push_reserved(NamedRoot::new(cond));
    named
}

/// They come back.
pub(crate) fn unname_roots<N: LotName<Tally>>(
    roots: &mut Roots,
    mut named: Vec<NamedRoot<Tally, N>>,
)
    requires room { (vec_len roots.old ≡ 0) × (3 ≤ vec_capacity roots.old) }
    requires named { Appends root_view 3 [] named.items }
    ensures { AreRootsBack N.opening.locks 3 roots.new.items }
{
    let cond = named.take_last();
    let second = named.take_last();
    let first = named.take_last();
    named.destroy_empty();
    roots.push_reserved(first.into_root());
    roots.push_reserved(second.into_root());
    roots.push_reserved(cond.into_root());
}

/// Ends the words, whose rights are back, and counts the values that they give back.
pub(crate) fn close_words<N: LotName<Tally>>(words: Words, passes: Passes, roots: Roots) -> usize
    requires named { words.table ≡ N.opening.locks }
    requires size { words.size ≡ size_of N.locks N.conds }
    requires passes { AreBack N.opening.locks passes.items }
    requires roots { AreRootsBack N.opening.locks (N.locks + N.conds) roots.items }
{
    words.close(passes, roots).len()
}
