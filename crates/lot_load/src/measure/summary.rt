//! What a crew has done, and the line that tells it.
use super::plan::{Job, Plan};
use super::shares::Shares;
use super::times::Times;
use lot_command::Failure;
use std::alloc::{AllocError, Global};
use std::fmt::Write as _;

/// What one thread has done: when it began and ended, in nanoseconds, and how many rounds it made.
#[derive(Drop)]
pub struct Done {
    pub begin: u64,
    pub end: u64,
    pub rounds: u64,
    pub times: Times,
}

/// What all have done.
#[derive(Drop)]
pub struct Summary {
    /// The sum of the locks' numbers.
    pub sum: u64,
    /// From the first thread's begin to the last one's end, in nanoseconds.
    pub nanos: u64,
    /// From before the opening to after the closing.
    pub life: u64,
    /// The rounds of the thread that made least, of the one that made most, and of all.
    pub least: u64,
    pub most: u64,
    pub all: u64,
    pub times: Times,
    /// How they shared the rounds.
    pub shares: Shares,
}

/// The words of a command, with which its line begins.
pub fn begin_line(alloc: Global, words: &[&str]) -> Result<String, Failure> {
    let mut text = String::new(alloc);
    write!(text, "lot")?;
    for word in words.iter() {
        write!(text, " {word}")?;
    }
    Ok(text)
}

/// Figures, each behind its name.
pub fn push_figures(text: &mut String, figures: &[(&str, u64)]) -> Result<(), Failure> {
    for (name, figure) in figures.iter() {
        write!(text, " {name}={figure}")?;
    }
    Ok(())
}

impl Summary {
    /// What the threads have done together, in a lot that was opened and closed at these moments.
    pub fn new(
        alloc: Global,
        done: Vec<Option<Done>>,
        opened: u64,
        closed: u64,
    ) -> Result<Summary, AllocError> {
        let mut begin = u64::MAX;
        let mut end = 0;
        let mut summary = Summary {
            sum: 0,
            nanos: 0,
            life: closed.wrapping_sub(opened),
            least: u64::MAX,
            most: 0,
            all: 0,
            times: Times::new(alloc)?,
            shares: Shares::new(),
        };
        for one in done.iter() {
            if let Some(one) = one {
                begin = begin.min(one.begin);
                end = one.end.max(end);
                summary.least = summary.least.min(one.rounds);
                summary.most = summary.most.max(one.rounds);
                summary.all = summary.all.wrapping_add(one.rounds);
                summary.times.add(&one.times);
            }
        }
        summary.nanos = end.saturating_sub(begin);
        summary.note_shares(&done);
        Ok(summary)
    }

    /// Notes what each thread made of all rounds.
    fn note_shares(&mut self, done: &Vec<Option<Done>>) {
        let all = self.all;
        for one in done.iter() {
            if let Some(one) = one {
                self.shares.note(one.rounds, all);
            }
        }
    }

    /// The line, after the words of the command.
    pub fn line(&self, alloc: Global, plan: &Plan, words: &[&str]) -> Result<String, Failure> {
        let mut text = begin_line(alloc, words)?;
        self.push_told(&plan.job, &mut text)?;
        text.push('\n')?;
        Ok(text)
    }

    /// What is told of this work.
    fn push_told(&self, job: &Job, text: &mut String) -> Result<(), Failure> {
        if let Job::Start = job {
            return push_figures(text, &[("ns", self.life)]);
        }
        let work = [("sum", self.sum), ("rounds", self.all), ("ns", self.nanos)];
        push_figures(text, &work)?;
        match job {
            Job::Share(_) => push_figures(text, &[("least", self.least), ("most", self.most)]),
            Job::Wait(..) => self.push_times(text),
            Job::Fair(_) => self.push_fairness(text),
            _ => Ok(()),
        }
    }

    fn push_times(&self, text: &mut String) -> Result<(), Failure> {
        let times = [
            ("p50", self.times.part(500)),
            ("p99", self.times.part(990)),
            ("p999", self.times.part(999)),
            ("most", self.times.most()),
        ];
        push_figures(text, &times)
    }

    fn push_fairness(&self, text: &mut String) -> Result<(), Failure> {
        let fairness = [
            ("longest", self.times.most()),
            ("weighed50", self.times.part(500)),
            ("weighed99", self.times.part(990)),
            ("least", self.shares.least()),
            ("most", self.shares.most()),
            ("jain", self.shares.jain()),
        ];
        push_figures(text, &fairness)
    }
}
