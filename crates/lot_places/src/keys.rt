ghost use Rattle.std.specs.Prelude.{◌≡◌, ◌≢◌, ℕ, ◌+◌, ◌*◌, ◌<◌, length, slice_index, IfOk, IfSome, MatchOption};
ghost use Rattle.lot_places.specs.Places.{keys_of, spaced, IsFirst, IsMissing};

use std::alloc::{AllocError, Global};

/// The keys of a row, each at its place.
#[derive(Drop)]
pub enum Keys {
    /// So many: `first`, and then each is the one before and `step`. None of them is stored.
    Spaced {
        first: usize,
        step: usize,
        count: usize,
    },
    /// These.
    Listed(Vec<usize>),
}

impl Keys {
    /// It takes memory only where they are not evenly spaced.
    pub fn new(alloc: Global, keys: &[usize]) -> Result<Keys, AllocError>
        ensures { IfOk result (λ made. keys_of made ≡ keys.now) }
    {
        let Some(step) = spacing(keys) else {
            return Ok(Keys::Listed(keys.to_vec(alloc)?));
        };
        Ok(Keys::Spaced {
            first: first_of(keys),
            step,
            count: keys.len(),
        })
    }

    pub fn len(&self) -> usize
        ensures { result ≡ length (keys_of self.now) }
    {
        match self {
            Keys::Spaced { count, .. } => *count,
            Keys::Listed(keys) => keys.len(),
        }
    }

    /// The first place of the key: by one division where they are evenly spaced.
    pub fn place_of(&self, key: usize) -> Option<usize>
        ensures { MatchOption result (IsMissing key (keys_of self.now)) (IsFirst key (keys_of self.now)) }
    {
        match self {
            Keys::Spaced { first, step, count } => place_by_division(*first, *step, *count, key),
            Keys::Listed(keys) => place_by_search(keys.as_slice(), key),
        }
    }
}

// By step 0 nothing can be divided: then all keys are the first, whose place is 0.
fn place_by_division(first: usize, step: usize, count: usize, key: usize) -> Option<usize>
    ensures { MatchOption result (IsMissing key (spaced first step count)) (IsFirst key (spaced first step count)) }
{
    let distance = key.checked_sub(first)?;
    let place = distance.checked_div(step).unwrap_or(0);
    if place < count && place * step == distance {
        Some(place)
    } else {
        None
    }
}

fn place_by_search(keys: &[usize], key: usize) -> Option<usize>
    ensures { MatchOption result (IsMissing key keys.now) (IsFirst key keys.now) }
{
    for (place, other) in keys.iter().enumerate() {
        if *other == key {
            return Some(place);
        }
    }
    None
}

fn first_of(keys: &[usize]) -> usize
    ensures { result ≡ slice_index keys.now 0 }
{
    keys.first().copied().unwrap_or(0)
}

// How far it is from each key to the next, where that is the same and they don't fall.
fn spacing(keys: &[usize]) -> Option<usize>
    ensures { IfSome result (λ step. keys.now ≡ spaced (slice_index keys.now 0) step (length keys.now)) }
{
    if keys.len() < 2 {
        return Some(1);
    }
    let step = keys[1].checked_sub(keys[0])?;
    for place in 1..keys.len() {
        if keys[place].checked_sub(keys[place - 1]) != Some(step) {
            return None;
        }
    }
    Some(step)
}
