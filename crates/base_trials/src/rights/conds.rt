//! Schedules of several threads' calls on one condition, made by hand in one thread, with the words that they leave.
//! The condition's number is 1, since there is one lock.
ghost use Rattle.std.specs.Prelude.{◌≡◌, None};
ghost use Rattle.lot_conds.specs.Calls.{called_more, one_wait_more};
ghost use Rattle.base_trials.specs.CondSchedules.{IsFree, AreFree};

use crate::asserts::{bits_are, equal, is_so, letter_is};
use crate::taking::take_three;
use lot_conds::{CondPass, CondRoot, CondWords};
use std::process::Abort;
use std::test::*;

/// The passes of three threads, and the root of the condition.
type Rights = (CondPass, CondPass, CondPass, CondRoot);

/// The condition, on which three threads make their calls.
#[derive(Drop)]
struct OneCond<'a, R> {
    rt: &'a R,
    words: &'a CondWords,
    ghost one: { (words.now.size.locks ≡ 1) × (words.now.size.conds ≡ 1) },
}

impl<R: Abort> OneCond<'_, R> {
    // The word of the condition is this.
    fn word_is(&self, bits: u64) {
        bits_are(self.rt, self.words.bits(1), bits);
    }

    // Collects a letter, which lies there.
    fn collect(&self, pass: CondPass) -> CondPass
        requires { (pass.table ≡ self.now.words.now.table) × (pass.own.sweeps ≡ None) }
        ensures { IsFree self.now.words.now.table pass.thread result }
    {
        let (pass, letter) = self.words.collect(pass);
        letter_is(self.rt, letter, Some(0));
        pass
    }

    // All schedules, one after the other.
    fn in_turn(&self, rights: Rights) -> Rights
        requires { AreFree self.now.words.now.table rights.0 rights.1 rights.2 rights.3 }
        ensures { AreFree self.now.words.now.table result.0 result.1 result.2 result.3 }
    {
        let rights = self.one_wait(rights);
        let rights = self.late_wait(rights);
        let rights = self.two_waits(rights);
        self.two_at_once(rights)
    }

    // One wait, which one notification ends: it is counted with both threads.
    fn one_wait(&self, rights: Rights) -> Rights
        requires { AreFree self.now.words.now.table rights.0 rights.1 rights.2 rights.3 }
        ensures free { AreFree self.now.words.now.table result.0 result.1 result.2 result.3 }
        ensures counted { (result.0.own ≡ one_wait_more rights.0.own 1) × (result.1.own ≡ called_more rights.1.own 1 1) }
    {
        let (zero, one, two, root) = rights;
        self.word_is(0);
        let (zero, root) = self.words.enlist(zero, root);
        self.word_is(1);
        let (one, set) = self.words.look(one, 1);
        is_so(self.rt, set, "the flag is set");
        let (one, root) = self.words.call(one, root, 1, 1, false);
        self.word_is(0);
        let (zero, letter) = self.words.collect(zero);
        letter_is(self.rt, letter, None);
        let root = self.words.post(root, 0);
        let (zero, letter) = self.words.collect(zero);
        letter_is(self.rt, letter, Some(0));
        (zero, one, two, root)
    }

    // One thread lowers the flag, another comes to wait, and the first sweeps it. The flag stays set, and the next
    // call, which finds nobody, clears it.
    fn late_wait(&self, rights: Rights) -> Rights
        requires { AreFree self.now.words.now.table rights.0 rights.1 rights.2 rights.3 }
        ensures { AreFree self.now.words.now.table result.0 result.1 result.2 result.3 }
    {
        let (zero, one, two, root) = rights;
        let zero = self.words.lower(zero, 1);
        self.word_is(0);
        let (one, root) = self.words.enlist(one, root);
        self.word_is(1);
        let (zero, root) = self.words.sweep(zero, root, 1);
        self.word_is(1);
        let root = self.words.post(root, 1);
        let (zero, root) = self.words.call(zero, root, 1, 0, true);
        self.word_is(0);
        (zero, self.collect(one), two, root)
    }

    // Two wait, and a third thread notifies. Its first call takes one and leaves the flag, since one is left; the
    // second asks for four, takes the other, and leaves the flag because another key of the bucket has sleepers. The
    // letters are posted in the other order.
    fn two_waits(&self, rights: Rights) -> Rights
        requires { AreFree self.now.words.now.table rights.0 rights.1 rights.2 rights.3 }
        ensures { AreFree self.now.words.now.table result.0 result.1 result.2 result.3 }
    {
        let (zero, one, two, root) = rights;
        let (zero, root) = self.words.enlist(zero, root);
        let (one, root) = self.words.enlist(one, root);
        let (two, root) = self.words.call(two, root, 1, 1, true);
        self.word_is(1);
        let (two, root) = self.words.call(two, root, 4, 1, true);
        self.word_is(1);
        let root = self.words.post(root, 1);
        let root = self.words.post(root, 0);
        (self.collect(zero), self.collect(one), two, root)
    }

    // The same two, whom one call takes together.
    fn two_at_once(&self, rights: Rights) -> Rights
        requires { AreFree self.now.words.now.table rights.0 rights.1 rights.2 rights.3 }
        ensures free { AreFree self.now.words.now.table result.0 result.1 result.2 result.3 }
        ensures counted { result.2.own ≡ called_more rights.2.own 1 2 }
    {
        let (zero, one, two, root) = rights;
        let (zero, root) = self.words.enlist(zero, root);
        let (one, root) = self.words.enlist(one, root);
        let (two, root) = self.words.call(two, root, 2, 2, false);
        self.word_is(0);
        let root = self.words.post(root, 0);
        let root = self.words.post(root, 1);
        (self.collect(zero), self.collect(one), two, root)
    }
}

#[test]
fn waits_and_notifications(rt: HostRuntime) -> Result<(), Fail> {
    let (words, mut passes, mut roots) = CondWords::open(rt.alloc(), 3, 1, 1)?;
    let (zero, one, two) = take_three(&mut passes);
    let root = roots.take_last();
    let cond = OneCond {
        rt: &rt,
        words: &words,
    };
    let (zero, one, two, root) = cond.in_turn((zero, one, two, root));
    passes.push_reserved(zero);
    passes.push_reserved(one);
    passes.push_reserved(two);
    roots.push_reserved(root);
    words.close(passes, roots);
    Ok(())
}

#[test]
fn no_conditions(rt: HostRuntime) -> Result<(), Fail> {
    let (words, mut passes, roots) = CondWords::open(rt.alloc(), 1, 1, 0)?;
    let zero = passes.take_last();
    equal(&rt, (passes.len(), roots.len(), zero.thread()), (0, 0, 0));
    passes.push_reserved(zero);
    words.close(passes, roots);
    Ok(())
}
