//! The conditions of a state, where each of their events is allowed, and the events.
ghost use Rattle.std.specs.Prelude.{◌≡◌, ◌↔◌, ◌++◌, ◌∷◌, [], IsTrue, OnOk, OnErr, IfErr};
ghost use Rattle.lot_events.specs.declared.events.Point.TheVariants.{Sweeps};
ghost use Rattle.lot_events.specs.declared.events.Event.TheVariants as Event;
ghost use Rattle.lot_core.specs.declared.state.CoreFault.TheVariants.{NoMemory};
ghost use Rattle.lot_core.specs.Steps.{IsCallCount};

use crate::state::{CoreFault, MAX_THREADS, State};
use lot_events::{Point, Seen};

#[tactic(auto, using(crate::proofs::Rows::row_laws))]
impl State {
    ghost use Rattle.lot_core.specs.Steps.{IsCond, called, dequeued, dequeued_count};
    ghost use Rattle.lot_core.specs.State.{state_of, with_flag, with_cond_line};

    pub(crate) fn is_cond(&self, key: usize) -> bool
        ensures { IsTrue result ↔ IsCond (state_of self.now) key }
    {
        key >= self.locks && key - self.locks < self.conds
    }

    pub(crate) fn flag(&self, cond: usize) -> bool
        requires { IsCond (state_of self.now) cond }
        ensures { result ≡ (state_of self.now).conds.flag cond }
    {
        self.flags[cond - self.locks]
    }

    fn set_flag(&mut self, cond: usize, flag: bool)
        requires { IsCond (state_of self.old) cond }
        ensures { state_of self.new ≡ with_flag (state_of self.old) cond flag }
    {
        self.flags[cond - self.locks] = flag;
    }

    fn join_cond_line(&mut self, cond: usize, thread: usize) -> Result<(), CoreFault>
        requires { IsCond (state_of self.old) cond }
        ensures ok { let w = state_of self.old in
            let line = w.conds.line cond ++ thread ∷ [] in
            OnOk result (state_of self.new ≡ with_cond_line w cond line) }
        ensures err { IfErr result (λ e. e ≡ NoMemory) }
        ensures unchanged { OnErr result (state_of self.new ≡ state_of self.old) }
    {
        self.cond_lines
            .push(cond, thread)
            .map_err(|_| CoreFault::NoMemory)
    }

    fn dequeue_waiting(&mut self, cond: usize, count: usize) -> usize
        requires { IsCond (state_of self.old) cond }
        ensures count { result ≡ dequeued_count count ((state_of self.old).conds.line cond) }
        ensures rest { state_of self.new ≡
            record (state_of self.old) { conds = dequeued (state_of self.old).conds cond count } }
    {
        self.cond_lines.dequeue(cond, count)
    }

    // The first `count` of the condition's line are called.
    fn call_first(&mut self, cond: usize, count: usize, more: bool) -> usize
        requires { IsCond (state_of self.old) cond }
        ensures count { result ≡ dequeued_count count ((state_of self.old).conds.line cond) }
        ensures state { state_of self.new ≡
            record (state_of self.old) { conds = called (state_of self.old).conds cond count more } }
    {
        if !more || self.cond_lines.is_empty(cond) {
            self.set_flag(cond, false);
        }
        self.dequeue_waiting(cond, count)
    }
}

fn is_call_count(count: usize) -> bool
    ensures { IsTrue result ↔ IsCallCount count }
{
    count >= 1 && count <= MAX_THREADS
}

// Where each event is allowed.
#[tactic(auto)]
impl State {
    ghost use Rattle.lot_core.specs.Steps.{IsThread, IsCond, SaysMoreBehind, Allowed};
    ghost use Rattle.lot_core.specs.State.{state_of};

    fn is_at_cond(&self, thread: usize, cond: usize) -> bool
        ensures { IsTrue result ↔ (IsThread (state_of self.now) thread × IsCond (state_of self.now) cond) }
    {
        self.is_thread(thread) && self.is_cond(cond)
    }

    pub(crate) fn is_sweeping(&self, thread: usize, cond: usize) -> bool
        ensures { IsTrue result ↔ ((state_of self.now).point thread ≡ Sweeps cond) }
    {
        match self.point(thread) {
            Point::Sweeps { cond: swept } => swept == cond,
            _ => false,
        }
    }

    fn cond_says_more(&self, cond: usize, count: usize, more: bool) -> bool
        requires { IsCond (state_of self.now) cond }
        ensures { IsTrue result ↔ SaysMoreBehind count ((state_of self.now).conds.line cond) more }
    {
        more || self.cond_lines.len(cond) <= count
    }

    fn may_enlist(&self, thread: usize, cond: usize, lock: usize) -> bool
        ensures { IsTrue result ↔ Allowed (state_of self.now) (Event.Enlist thread cond lock) }
    {
        if !self.is_at_cond(thread, cond) || !self.is_lock(lock) {
            return false;
        }
        self.is_calm(thread) && self.has(lock, thread)
    }

    fn may_call(&self, thread: usize, cond: usize, count: usize, more: bool) -> bool
        ensures { IsTrue result ↔ Allowed (state_of self.now) (Event.Call thread cond count more) }
    {
        if !self.is_at_cond(thread, cond) || !self.is_calm(thread) {
            return false;
        }
        is_call_count(count) && self.cond_says_more(cond, count, more)
    }
}

// The events.
#[tactic(auto)]
impl State {
    ghost use Rattle.lot_core.specs.State.{state_of, Answers};

    pub(super) fn enlist(
        &mut self,
        thread: usize,
        cond: usize,
        lock: usize,
    ) -> Result<Seen, CoreFault>
        ensures { Answers (state_of self.old) (Event.Enlist thread cond lock) result (state_of self.new) }
    {
        if !self.may_enlist(thread, cond, lock) {
            return Err(CoreFault::NotEnabled);
        }
        self.join_cond_line(cond, thread)?;
        self.set_flag(cond, true);
        self.set_point(thread, Point::Bed { cond, lock });
        Ok(Seen::Done)
    }

    pub(super) fn look(&self, thread: usize, cond: usize) -> Result<Seen, CoreFault>
        ensures { Answers (state_of self.now) (Event.Look thread cond) result (state_of self.now) }
    {
        if !self.is_at_cond(thread, cond) || !self.is_calm(thread) {
            return Err(CoreFault::NotEnabled);
        }
        Ok(Seen::Bool(self.flag(cond)))
    }

    pub(super) fn call(
        &mut self,
        thread: usize,
        cond: usize,
        count: usize,
        more: bool,
    ) -> Result<Seen, CoreFault>
        ensures { Answers (state_of self.old) (Event.Call thread cond count more) result (state_of self.new) }
    {
        if !self.may_call(thread, cond, count, more) {
            return Err(CoreFault::NotEnabled);
        }
        Ok(Seen::Count(self.call_first(cond, count, more)))
    }

    pub(super) fn lower(&mut self, thread: usize, cond: usize) -> Result<Seen, CoreFault>
        ensures { Answers (state_of self.old) (Event.Lower thread cond) result (state_of self.new) }
    {
        if !self.is_at_cond(thread, cond) || !self.is_calm(thread) {
            return Err(CoreFault::NotEnabled);
        }
        self.set_flag(cond, false);
        self.set_point(thread, Point::Sweeps { cond });
        Ok(Seen::Done)
    }

    pub(super) fn sweep(&mut self, thread: usize, cond: usize) -> Result<Seen, CoreFault>
        ensures { Answers (state_of self.old) (Event.Sweep thread cond) result (state_of self.new) }
    {
        if !self.is_at_cond(thread, cond) || !self.is_sweeping(thread, cond) {
            return Err(CoreFault::NotEnabled);
        }
        let length = self.cond_lines.len(cond);
        let count = self.dequeue_waiting(cond, length);
        self.set_point(thread, Point::Calm);
        Ok(Seen::Count(count))
    }
}
