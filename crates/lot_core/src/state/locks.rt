//! The locks of a state, where each of their events is allowed, and the events.
ghost use Rattle.std.specs.Prelude.{◌≡◌, ◌↔◌, ◌++◌, ◌∷◌, [], true, not, IsTrue, OnOk, OnErr, IfErr, drop};
ghost use Rattle.lot_events.specs.declared.events.Point.TheVariants.{Wants};
ghost use Rattle.lot_events.specs.declared.events.Event.TheVariants as Event;
ghost use Rattle.lot_core.specs.declared.state.CoreFault.TheVariants.{NoMemory};

use crate::state::{CoreFault, State};
use lot_events::{Point, Seen};

#[tactic(auto, using(crate::proofs::Rows::row_laws))]
impl State {
    ghost use Rattle.lot_core.specs.Steps.{IsLock, got, passed, first};
    ghost use Rattle.lot_core.specs.Printed.{owner_of};
    ghost use Rattle.lot_core.specs.State.{state_of, with_owner, with_parked, with_lock_line};

    pub(crate) fn is_lock(&self, key: usize) -> bool
        ensures { IsTrue result ↔ IsLock (state_of self.now) key }
    {
        key < self.locks
    }

    pub(crate) fn is_parked(&self, lock: usize) -> bool
        requires { IsLock (state_of self.now) lock }
        ensures { result ≡ (state_of self.now).locks.parked lock }
    {
        self.parked[lock]
    }

    pub(crate) fn is_held(&self, lock: usize) -> bool
        requires { IsLock (state_of self.now) lock }
        ensures { result ≡ (state_of self.now).locks.held lock }
    {
        self.owners[lock].is_some()
    }

    pub(super) fn has(&self, lock: usize, thread: usize) -> bool
        requires { IsLock (state_of self.now) lock }
        ensures { result ≡ (state_of self.now).locks.has lock thread }
    {
        match self.owners[lock] {
            None => false,
            Some(owner) => thread == owner,
        }
    }

    // The thread that has the lock, if it is one of the state's.
    pub(crate) fn owner(&self, lock: usize) -> Option<usize>
        requires { IsLock (state_of self.now) lock }
        ensures { result ≡ owner_of (state_of self.now) lock }
    {
        match self.owners[lock] {
            Some(owner) if owner < self.threads => Some(owner),
            _ => None,
        }
    }

    fn set_parked(&mut self, lock: usize, parked: bool)
        requires { IsLock (state_of self.old) lock }
        ensures { state_of self.new ≡ with_parked (state_of self.old) lock parked }
    {
        self.parked[lock] = parked;
    }

    fn set_owner(&mut self, lock: usize, owner: Option<usize>)
        requires { IsLock (state_of self.old) lock }
        ensures { state_of self.new ≡ with_owner (state_of self.old) lock owner }
    {
        self.owners[lock] = owner;
    }

    fn get(&mut self, thread: usize, lock: usize) -> bool
        requires { IsLock (state_of self.old) lock }
        ensures answer { result ≡ not ((state_of self.old).locks.held lock) }
        ensures state { state_of self.new ≡
            record (state_of self.old) { locks = got (state_of self.old).locks thread lock } }
    {
        if self.is_held(lock) {
            return false;
        }
        self.set_owner(lock, Some(thread));
        true
    }

    fn join_lock_line(&mut self, lock: usize, thread: usize) -> Result<(), CoreFault>
        requires { IsLock (state_of self.old) lock }
        ensures ok { let w = state_of self.old in
            let line = w.locks.line lock ++ thread ∷ [] in
            OnOk result (state_of self.new ≡ with_lock_line w lock line) }
        ensures err { IfErr result (λ e. e ≡ NoMemory) }
        ensures unchanged { OnErr result (state_of self.new ≡ state_of self.old) }
    {
        self.lock_lines
            .push(lock, thread)
            .map_err(|_| CoreFault::NoMemory)
    }

    fn leave_lock_line(&mut self, lock: usize) -> Option<usize>
        requires { IsLock (state_of self.old) lock }
        ensures first { result ≡ first ((state_of self.old).locks.line lock) }
        ensures rest { let w = state_of self.old in
            state_of self.new ≡ with_lock_line w lock (drop 1 (w.locks.line lock)) }
    {
        self.lock_lines.take_first(lock)
    }

    // Who has the lock passes it on: to the first of its line where the pass is fair.
    fn pass_on(&mut self, thread: usize, lock: usize, fair: bool, more: bool) -> Option<usize>
        requires lock { IsLock (state_of self.old) lock }
        requires owner { (state_of self.old).locks.has lock thread ≡ true }
        ensures first { result ≡ first ((state_of self.old).locks.line lock) }
        ensures state { let w = state_of self.old in
            state_of self.new ≡ record w { locks = passed w.locks thread lock fair more } }
    {
        let first = self.leave_lock_line(lock);
        if fair && first.is_some() {
            self.set_owner(lock, first);
            return first;
        }
        self.set_owner(lock, None);
        self.set_parked(lock, first.is_some() && more);
        first
    }
}

// Where each event is allowed.
#[tactic(auto)]
impl State {
    ghost use Rattle.lot_core.specs.Steps.{IsThread, IsLock, IsTrying, SaysMore, Allowed};
    ghost use Rattle.lot_core.specs.State.{state_of};

    fn is_at_lock(&self, thread: usize, lock: usize) -> bool
        ensures { IsTrue result ↔ (IsThread (state_of self.now) thread × IsLock (state_of self.now) lock) }
    {
        self.is_thread(thread) && self.is_lock(lock)
    }

    pub(crate) fn is_trying(&self, thread: usize, lock: usize) -> bool
        ensures { IsTrue result ↔ IsTrying (state_of self.now) thread lock }
    {
        match self.point(thread) {
            Point::Wants { lock: wanted } => {
                wanted == lock && !self.lock_lines.contains(lock, thread)
            }
            Point::Rest { cond, lock: wanted } => {
                wanted == lock && !self.cond_lines.contains(cond, thread)
            }
            _ => false,
        }
    }

    pub(crate) fn is_wanting(&self, thread: usize, lock: usize) -> bool
        ensures { IsTrue result ↔ ((state_of self.now).point thread ≡ Wants lock) }
    {
        match self.point(thread) {
            Point::Wants { lock: wanted } => wanted == lock,
            _ => false,
        }
    }

    // Others may wait behind the first, unless nobody does.
    fn lock_says_more(&self, lock: usize, more: bool) -> bool
        requires { IsLock (state_of self.now) lock }
        ensures { IsTrue result ↔ SaysMore ((state_of self.now).locks.line lock) more }
    {
        more || self.lock_lines.len(lock) < 2
    }

    fn may_take(&self, thread: usize, lock: usize) -> bool
        ensures { IsTrue result ↔ Allowed (state_of self.now) (Event.Take thread lock) }
    {
        self.is_at_lock(thread, lock) && (self.is_calm(thread) || self.is_trying(thread, lock))
    }

    fn may_mark(&self, thread: usize, lock: usize) -> bool
        ensures { IsTrue result ↔ Allowed (state_of self.now) (Event.Mark thread lock) }
    {
        self.is_at_lock(thread, lock) && self.is_trying(thread, lock) && self.is_held(lock)
    }

    fn may_park(&self, thread: usize, lock: usize) -> bool
        ensures { IsTrue result ↔ Allowed (state_of self.now) (Event.Park thread lock) }
    {
        self.is_at_lock(thread, lock)
            && self.is_wanting(thread, lock)
            && !self.lock_lines.contains(lock, thread)
    }

    fn may_free(&self, thread: usize, lock: usize) -> bool
        ensures { IsTrue result ↔ Allowed (state_of self.now) (Event.Free thread lock) }
    {
        self.is_at_lock(thread, lock) && self.has(lock, thread) && self.may_let_go(thread, lock)
    }

    fn may_pass(&self, thread: usize, lock: usize, fair: bool, more: bool) -> bool
        ensures { IsTrue result ↔ Allowed (state_of self.now) (Event.Pass thread lock fair more) }
    {
        if !self.may_free(thread, lock) || !self.is_parked(lock) {
            return false;
        }
        fair || self.lock_says_more(lock, more)
    }
}

// The events.
#[tactic(auto)]
impl State {
    ghost use Rattle.lot_core.specs.State.{state_of, Answers};

    pub(super) fn try_take(&mut self, thread: usize, lock: usize) -> Result<Seen, CoreFault>
        ensures { Answers (state_of self.old) (Event.Try thread lock) result (state_of self.new) }
    {
        if !self.is_at_lock(thread, lock) || !self.is_calm(thread) {
            return Err(CoreFault::NotEnabled);
        }
        Ok(Seen::Bool(self.get(thread, lock)))
    }

    pub(super) fn take(&mut self, thread: usize, lock: usize) -> Result<Seen, CoreFault>
        ensures { Answers (state_of self.old) (Event.Take thread lock) result (state_of self.new) }
    {
        if !self.may_take(thread, lock) {
            return Err(CoreFault::NotEnabled);
        }
        let got = self.get(thread, lock);
        let point = if got {
            Point::Calm
        } else {
            Point::Wants { lock }
        };
        self.set_point(thread, point);
        Ok(Seen::Bool(got))
    }

    pub(super) fn mark(&mut self, thread: usize, lock: usize) -> Result<Seen, CoreFault>
        ensures { Answers (state_of self.old) (Event.Mark thread lock) result (state_of self.new) }
    {
        if !self.may_mark(thread, lock) {
            return Err(CoreFault::NotEnabled);
        }
        self.set_parked(lock, true);
        Ok(Seen::Done)
    }

    pub(super) fn park(&mut self, thread: usize, lock: usize) -> Result<Seen, CoreFault>
        ensures { Answers (state_of self.old) (Event.Park thread lock) result (state_of self.new) }
    {
        if !self.may_park(thread, lock) {
            return Err(CoreFault::NotEnabled);
        }
        if !self.is_held(lock) || !self.is_parked(lock) {
            return Ok(Seen::Bool(false));
        }
        self.join_lock_line(lock, thread)?;
        Ok(Seen::Bool(true))
    }

    #[tactic(auto, using(crate::proofs::Passes::owns_left))]
    pub(super) fn free(&mut self, thread: usize, lock: usize) -> Result<Seen, CoreFault>
        ensures { Answers (state_of self.old) (Event.Free thread lock) result (state_of self.new) }
    {
        if !self.may_free(thread, lock) {
            return Err(CoreFault::NotEnabled);
        }
        if self.is_parked(lock) {
            return Ok(Seen::Bool(false));
        }
        self.set_owner(lock, None);
        self.let_go(thread);
        Ok(Seen::Bool(true))
    }

    pub(super) fn pass(
        &mut self,
        thread: usize,
        lock: usize,
        fair: bool,
        more: bool,
    ) -> Result<Seen, CoreFault>
        ensures { Answers (state_of self.old) (Event.Pass thread lock fair more) result (state_of self.new) }
    {
        if !self.may_pass(thread, lock, fair, more) {
            return Err(CoreFault::NotEnabled);
        }
        let first = self.pass_on(thread, lock, fair, more);
        self.let_go(thread);
        if fair && let Some(next) = first {
            self.calm(next);
        }
        Ok(Seen::Sleeper(first))
    }
}
