//! The words of the command line.
ghost use Rattle.std.specs.Prelude.{◌≡◌, ◌≤◌, ◌⊎◌, map, string_bytes, IfOk, IfErr};
ghost use Rattle.lot_command.specs.declared.failure.Failure.TheVariants.{NoMemory};

use crate::failure::Failure;
use crate::outcome::fail;
use std::alloc::Global;
use std::env::{self, Env, FillError};
use std::io::{self, Write};

/// The arguments after the program's own name, which need not be text.
#[derive(Drop)]
struct WithoutName<'a, E: Env> {
    rt: &'a E,
}

impl<E: Env> Env for WithoutName<'_, E> {
    fn arg(&self, i: usize, buf: &mut [u8]) -> Result<usize, FillError> {
        match i.checked_add(1) {
            Some(next) => self.rt.arg(next, buf),
            None => Err(FillError::NotPresent),
        }
    }

    fn var(&self, name: &str, buf: &mut [u8]) -> Result<usize, FillError> {
        self.rt.var(name, buf)
    }

    fn var_at(&self, i: usize, buf: &mut [u8]) -> Result<usize, FillError> {
        self.rt.var_at(i, buf)
    }
}

/// The words that follow the program's name. Words that are not text are a bad command line.
pub fn words<E: Env>(rt: &E, alloc: Global) -> Result<Vec<String>, Failure> {
    match env::args(&(WithoutName { rt }, alloc)) {
        Ok(arguments) => Ok(arguments.collect::<Vec<String>>(alloc)?),
        Err(error) => Err(match error.kind() {
            io::ErrorKind::OutOfMemory => Failure::NoMemory,
            _ => Failure::BadCommandLine,
        }),
    }
}

/// The words as texts, each as it is, to be matched; `NoMemory` where room for them is refused.
pub fn texts_of(alloc: Global, words: &[String]) -> Result<Vec<&str>, Failure>
    ensures each { IfOk result (λ texts. map (λ t. t.now) texts.items ≡ map string_bytes words.now) }
    ensures refused { IfErr result (λ failure. failure ≡ NoMemory) }
{
    let Ok(mut texts) = Vec::with_capacity(alloc, words.len()) else {
        return Err(Failure::NoMemory);
    };
    for i in 0..words.len() {
        texts.push_reserved(words[i].as_str());
    }
    Ok(texts)
}

/// Runs what the words spell, and answers the exit status: that of the run, or, where the words or room for their texts
/// can't be had, that of the failure, whose text is written to `faults`.
/// `with_words(alloc, words(&rt, alloc), &mut rt.stderr(), |words| run_command(alloc, words, &mut rt.stdout()))`.
pub fn with_words<W: Write, F: FnOnce(&[&str]) -> u8>(
    alloc: Global,
    words: Result<Vec<String>, Failure>,
    faults: &mut W,
    run: F,
) -> u8
    requires callable { F.IsAlwaysCallable run }
    ensures ran { IfOk words (λ w. ((texts : _) × (map (λ t. t.now) texts.now ≡ map string_bytes w.items)
        × F.post run texts result) ⊎ (result ≡ 3)) }
    ensures failed { IfErr words (λ _. 1 ≤ result) }
{
    let words = match words {
        Ok(words) => words,
        Err(failure) => return fail(failure, faults),
    };
    match texts_of(alloc, words.as_slice()) {
        Ok(texts) => run(texts.as_slice()),
        Err(failure) => fail(failure, faults),
    }
}
