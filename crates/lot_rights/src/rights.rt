//! The rights: a pass for each thread, and a root for each key.
ghost use Rattle.std.specs.Prelude.{◌≡◌, ℕ, ◌^◌, ◌<◌, ◌∷◌, []};
ghost use Rattle.lot_rights.specs.Layout.{word_at, letter_at};
ghost use Rattle.lot_rights.specs.declared.views.Right.TheVariants.{Pass, Root};
ghost use Rattle.lot_rights.specs.Shown.{the_pass, the_root};

use crate::kind::{Kind, RightsSeat};
use crate::layout::{letter_of_thread, word_of_key};
use crate::named::OfOpening;
use std::marker::Model;

/// The right to act as one thread. Contracts see it as a `PassShown`.
///
/// It isn't `Drop`: spend it where the table is closed. Each call that takes it gives it back.
pub struct PassOf<K: Kind> {
    pub(crate) seat: RightsSeat<K>,
    pub(crate) thread: usize,
    pub(crate) ghost one: { seat.me ≡ (Pass (the_pass K.no_pass seat.me.0) ∷ [], []) },
    pub(crate) ghost thread_is: { thread ≡ (the_pass K.no_pass seat.me.0).thread },
    pub(crate) ghost near: { letter_at thread < seat.table_id.words },
    pub(crate) ghost small: { seat.table_id.words < 2 ^ 64 },
}

impl<K: Kind> Model for PassOf<K> {
    ghost use Rattle.lot_rights.specs.Shown.{PassShown, pass_at_table, the_pass};

    ghost Value = { PassShown K.Pass };

    ghost view = { λ s. pass_at_table s.seat.table_id (the_pass K.no_pass s.seat.me.0) };
}

impl<K: Kind> OfOpening for PassOf<K> {
    ghost use Rattle.std.specs.Prelude.{◌≡◌};

    ghost is_of = { λ o p. p.table ≡ K.table_in o };
}

impl<K: Kind> PassOf<K> {
    /// The number of its thread.
    pub fn thread(&self) -> usize
        ensures is { result ≡ self.now.thread }
        ensures near { letter_at result < self.now.table.words }
    {
        self.thread
    }

    /// The place of its thread's letter.
    #[inline(always)]
    pub fn letter(&self) -> usize
        ensures is { result ≡ letter_at self.now.thread }
        ensures near { result < self.now.table.words }
    {
        letter_of_thread(self.thread)
    }
}

/// What a root has with it of its key's number.
pub trait Numbering: Drop {
    ghost use Rattle.std.specs.Prelude.{ℕ};

    /// The number that it tells of a key whose number is this: `Lying` tells just this.
    ghost shown: { Self → ℕ → ℕ };

    fn of(key: usize) -> Self
        ensures { shown result key ≡ key };
}

/// The number: of a root that is in hand, so that an access can be made with it.
#[derive(Drop)]
pub struct Numbered {
    key: usize,
}

impl Numbering for Numbered {
    ghost shown = { λ n key. n.key };

    fn of(key: usize) -> Numbered {
        Numbered { key }
    }
}

/// Nothing: of a root that lies in a bucket or in a list, where its place tells the number. Such a root takes no bytes.
#[derive(Drop)]
pub struct Lying;

impl Numbering for Lying {
    ghost shown = { λ _ key. key };

    fn of(_key: usize) -> Lying {
        Lying
    }
}

/// The right to change what one key's root has. Contracts see it as a `RootShown`, whether it has its number with it
/// (`RootOf`) or lies where its place tells that (`LyingRootOf`).
///
/// It lies in the bucket of its key, and is only taken out while that bucket is locked. Spend it where the table is
/// closed.
#[derive(Drop)]
pub struct RootAt<K: Kind, A: Numbering> {
    pub(crate) seat: RightsSeat<K>,
    pub(crate) number: A,
    pub(crate) ghost one: { seat.me ≡ (Root (the_root K.no_root seat.me.0) ∷ [], []) },
    pub(crate) ghost number_is: { A.shown number (the_root K.no_root seat.me.0).key ≡ (the_root K.no_root seat.me.0).key },
    pub(crate) ghost near: { word_at (the_root K.no_root seat.me.0).key < seat.table_id.words },
    pub(crate) ghost small: { seat.table_id.words < 2 ^ 64 },
    pub(crate) ghost letters_near: { (u : ℕ) → K.names (the_root K.no_root seat.me.0).own u
        → letter_at u < seat.table_id.words },
}

/// A root in hand.
pub type RootOf<K> = RootAt<K, Numbered>;

/// A root that lies in a bucket or in a list.
pub type LyingRootOf<K> = RootAt<K, Lying>;

impl<K: Kind, A: Numbering> Model for RootAt<K, A> {
    ghost use Rattle.lot_rights.specs.Shown.{RootShown, root_at_table, the_root};

    ghost Value = { RootShown K.Root };

    ghost view = { λ s. root_at_table s.seat.table_id (the_root K.no_root s.seat.me.0) };
}

impl<K: Kind, A: Numbering> OfOpening for RootAt<K, A> {
    ghost use Rattle.std.specs.Prelude.{◌≡◌};

    ghost is_of = { λ o q. q.table ≡ K.table_in o };
}

impl<K: Kind, A: Numbering> RootAt<K, A> {
    /// The place of the letter of a thread that the root names.
    #[inline(always)]
    pub fn letter_of(&self, thread: usize) -> usize
        requires { K.names self.now.own thread }
        ensures is { result ≡ letter_at thread }
        ensures near { result < self.now.table.words }
    {
        let _seat = &self.seat;
        letter_of_thread(thread)
    }
}

impl<K: Kind> RootAt<K, Lying> {
    /// The root in hand, for accesses to its key.
    #[inline(always)]
    pub fn take_up(self, key: usize) -> RootOf<K>
        requires { key ≡ self.key }
        ensures { result ≡ self }
    {
        let RootAt { seat, number: _ } = self;
        RootAt {
            seat,
            number: Numbered { key },
        }
    }
}

impl<K: Kind> RootAt<K, Numbered> {
    /// The root as it lies where its place tells its number.
    #[inline(always)]
    pub fn lay_down(self) -> LyingRootOf<K>
        ensures { result ≡ self }
    {
        let RootAt { seat, number: _ } = self;
        RootAt {
            seat,
            number: Lying,
        }
    }

    /// The number of its key.
    pub fn key(&self) -> usize
        ensures is { result ≡ self.now.key }
        ensures near { word_at result < self.now.table.words }
        ensures letters { (u : ℕ) → K.names self.now.own u → letter_at u < self.now.table.words }
    {
        self.number.key
    }

    /// The place of its key's word.
    #[inline(always)]
    pub fn word(&self) -> usize
        ensures is { result ≡ word_at self.now.key }
        ensures near { result < self.now.table.words }
    {
        word_of_key(self.number.key)
    }
}
