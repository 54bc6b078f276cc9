//! A state as text: a line for each lock, then each condition, each semaphore and each thread.
ghost use Rattle.std.specs.Prelude.{◌≡◌, ◌+◌, ◌++◌, ◌<◌, OnOk, IfOk, IfErr, string_bytes, flat_map};
ghost use Rattle.std.specs.List.{range_with_len};
ghost use Rattle.lot_core.specs.declared.state.CoreFault.TheVariants.{NoMemory};
ghost use Rattle.lot_core.specs.Lines.{line_of, HasKey};
ghost use Rattle.lot_core.specs.Steps.{IsLock, IsCond, IsSemaphore};
ghost use Rattle.lot_core.specs.State.{state_of};
ghost use Rattle.lot_core.specs.Printed.{line_text, owner_text, point_text, lock_line, cond_line, sem_line};
ghost use Rattle.lot_core.specs.Printed.{thread_line, printed};

use crate::lines::Lines;
use crate::state::{CoreFault, State};
use lot_events::Point;
use std::alloc::{AllocError, Global};

// The threads of a key's line, in order, or `-`.
fn push_queue(out: &mut String, lines: &Lines, key: usize) -> Result<(), AllocError>
    requires { HasKey lines.now key }
    ensures { OnOk result (string_bytes out.new ≡
        string_bytes out.old ++ line_text (line_of lines.now key)) }
{
    if lines.is_empty(key) {
        return out.push_str("-");
    }
    let first = lines.at(key, 0);
    write!(out, "{first}")?;
    for place in 1..lines.len(key) {
        let thread = lines.at(key, place);
        write!(out, ",{thread}")?;
    }
    Ok(())
}

fn push_owner(out: &mut String, owner: Option<usize>) -> Result<(), AllocError>
    ensures { OnOk result (string_bytes out.new ≡ string_bytes out.old ++ owner_text owner) }
{
    match owner {
        None => out.push_str("-"),
        Some(thread) => write!(out, "{thread}"),
    }
}

fn push_point(out: &mut String, point: Point) -> Result<(), AllocError>
    ensures { OnOk result (string_bytes out.new ≡ string_bytes out.old ++ point_text point) }
{
    match point {
        Point::Calm => out.push_str("calm"),
        Point::Wants { lock } => write!(out, "wants {lock}"),
        Point::Bed { cond, lock } => write!(out, "bed {cond} {lock}"),
        Point::Rest { cond, lock } => write!(out, "rest {cond} {lock}"),
        Point::Sweeps { cond } => write!(out, "sweeps {cond}"),
        Point::Seeks { sem } => write!(out, "seeks {sem}"),
    }
}

// Held is 1, parked is 2.
#[tactic(auto, unfolding(crate::specs::Printed::lock_line))]
fn push_lock(out: &mut String, state: &State, lock: usize) -> Result<(), AllocError>
    requires { IsLock (state_of state.now) lock }
    ensures { OnOk result (string_bytes out.new ≡
        string_bytes out.old ++ lock_line (state_of state.now) lock) }
{
    let word = u8::from(state.is_held(lock)) + 2 * u8::from(state.is_parked(lock));
    write!(out, "lock {lock} word {word} owner ")?;
    push_owner(out, state.owner(lock))?;
    out.push_str(" line ")?;
    push_queue(out, &state.lock_lines, lock)?;
    out.push_str("\n")
}

#[tactic(auto, unfolding(crate::specs::Printed::cond_line))]
fn push_cond(out: &mut String, state: &State, cond: usize) -> Result<(), AllocError>
    requires { IsCond (state_of state.now) cond }
    ensures { OnOk result (string_bytes out.new ≡
        string_bytes out.old ++ cond_line (state_of state.now) cond) }
{
    let flag = u8::from(state.flag(cond));
    write!(out, "cond {cond} flag {flag} line ")?;
    push_queue(out, &state.cond_lines, cond)?;
    out.push_str("\n")
}

#[tactic(auto, unfolding(crate::specs::Printed::sem_line))]
fn push_sem(out: &mut String, state: &State, sem: usize) -> Result<(), AllocError>
    requires { IsSemaphore (state_of state.now) sem }
    ensures { OnOk result (string_bytes out.new ≡
        string_bytes out.old ++ sem_line (state_of state.now) sem) }
{
    let left = state.sems.left(sem);
    let taken = state.sems.all_out(sem);
    write!(out, "sem {sem} left {left} out {taken}")?;
    let parked = u8::from(state.sems.is_parked(sem));
    write!(out, " parked {parked} line ")?;
    push_queue(out, &state.sems.lines, sem)?;
    out.push_str("\n")
}

#[tactic(auto, unfolding(crate::specs::Printed::thread_line))]
fn push_thread(out: &mut String, state: &State, thread: usize) -> Result<(), AllocError>
    ensures { OnOk result (string_bytes out.new ≡
        string_bytes out.old ++ thread_line (state_of state.now) thread) }
{
    write!(out, "thread {thread} ")?;
    push_point(out, state.point(thread))?;
    out.push_str("\n")
}

#[tactic(auto, using(crate::proofs::Texts::text_more))]
fn push_locks(out: &mut String, state: &State) -> Result<(), AllocError>
    ensures { let w = state_of state.now in
        let text = flat_map (lock_line w) (range_with_len 0 w.lock_count) in
        OnOk result (string_bytes out.new ≡ string_bytes out.old ++ text) }
{
    for lock in 0..state.locks {
        push_lock(out, state, lock)?;
    }
    Ok(())
}

#[tactic(auto, using(crate::proofs::Texts::text_more))]
fn push_conds(out: &mut String, state: &State) -> Result<(), AllocError>
    ensures { let w = state_of state.now in
        let text = flat_map (cond_line w) (range_with_len w.lock_count w.cond_count) in
        OnOk result (string_bytes out.new ≡ string_bytes out.old ++ text) }
{
    for i in 0..state.conds {
        push_cond(out, state, state.locks + i)?;
    }
    Ok(())
}

#[tactic(auto, using(crate::proofs::Texts::text_more))]
fn push_sems(out: &mut String, state: &State) -> Result<(), AllocError>
    ensures { let w = state_of state.now in
        let text = flat_map (sem_line w) (range_with_len (w.lock_count + w.cond_count) w.sem_count) in
        OnOk result (string_bytes out.new ≡ string_bytes out.old ++ text) }
{
    for i in 0..state.sems.len() {
        push_sem(out, state, state.sems.key(i))?;
    }
    Ok(())
}

#[tactic(auto, using(crate::proofs::Texts::text_more))]
fn push_threads(out: &mut String, state: &State) -> Result<(), AllocError>
    ensures { let w = state_of state.now in
        let text = flat_map (thread_line w) (range_with_len 0 w.threads) in
        OnOk result (string_bytes out.new ≡ string_bytes out.old ++ text) }
{
    for thread in 0..state.threads {
        push_thread(out, state, thread)?;
    }
    Ok(())
}

fn text_of(alloc: Global, state: &State) -> Result<String, AllocError>
    ensures { IfOk result (λ text. string_bytes text ≡ printed (state_of state.now)) }
{
    let mut out = String::new(alloc);
    push_locks(&mut out, state)?;
    push_conds(&mut out, state)?;
    push_sems(&mut out, state)?;
    push_threads(&mut out, state)?;
    Ok(out)
}

/// The state as text.
///
/// A lock's line is `lock K word W owner O line Q`, a condition's `cond K flag F line Q`, a
/// semaphore's `sem K left P out O parked B line Q` and a thread's `thread T P`, each ended by LF. W
/// is 0 to 3 (held 1, parked 2), O is the owner or `-`, of a semaphore the permits that are out, Q is
/// the sleepers joined by commas or `-`, and P of a thread is its point in words.
pub fn print_state(alloc: Global, state: &State) -> Result<String, CoreFault>
    ensures ok { IfOk result (λ text. string_bytes text ≡ printed (state_of state.now)) }
    ensures err { IfErr result (λ e. e ≡ NoMemory) }
{
    text_of(alloc, state).map_err(|_| CoreFault::NoMemory)
}
