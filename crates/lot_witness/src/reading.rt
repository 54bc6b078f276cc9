//! The lines of a witness behind its first.
ghost use Rattle.std.specs.Prelude.{◌≡◌, ◌≢◌, ℕ, ◌<◌, ◌+◌, List, ◌++◌, ◌∷◌, [], None, IfSome, IfNone};
ghost use Rattle.lot_events.specs.declared.events.Event.{Event};
ghost use Rattle.lot_events.specs.declared.events.Seen.{Seen};
ghost use Rattle.lot_events.specs.Spelling.{field, Spells};
ghost use Rattle.lot_witness.specs.declared.witness.Sighting.{Sighting};
ghost use Rattle.lot_witness.specs.Spelling.{IsSightOf, TellsTruth, TellsNothing, TellsSleeper, TellsNumber, told};
ghost use Rattle.lot_witness.specs.Spelling.{SpellsSighting, BeginsWith, NoSighting};

use crate::witness::Sighting;
use lot_events::reading::{event_of, field};
use lot_events::{Event, Seen};

// The number that is all that stands there, behind a space.
fn number(text: &[u8]) -> Option<usize>
    ensures some { IfSome result (λ n. (n < 10000) × (text.now ≡ field n)) }
    ensures none { IfNone result ((n : ℕ) → n < 10000 → text.now ≢ field n) }
{
    match field(text) {
        Some((number, [])) => Some(number),
        _ => None,
    }
}

fn truth(text: &[u8]) -> Option<Seen>
    ensures some { IfSome result (λ saw. TellsTruth saw × (text.now ≡ told saw)) }
    ensures none { IfNone result ((saw : Seen) → TellsTruth saw → text.now ≢ told saw) }
{
    if text == b" true".as_slice() {
        return Some(Seen::Bool(true));
    }
    if text == b" false".as_slice() {
        return Some(Seen::Bool(false));
    }
    None
}

fn nothing(text: &[u8]) -> Option<Seen>
    ensures some { IfSome result (λ saw. TellsNothing saw × (text.now ≡ told saw)) }
    ensures none { IfNone result ((saw : Seen) → TellsNothing saw → text.now ≢ told saw) }
{
    if text == b" done".as_slice() {
        return Some(Seen::Done);
    }
    None
}

fn sleeper(text: &[u8]) -> Option<Seen>
    ensures some { IfSome result (λ saw. TellsSleeper saw × (text.now ≡ told saw)) }
    ensures none { IfNone result ((saw : Seen) → TellsSleeper saw → text.now ≢ told saw) }
{
    if text == b" -".as_slice() {
        return Some(Seen::Sleeper(None));
    }
    let thread = number(text)?;
    Some(Seen::Sleeper(Some(thread)))
}

fn count(text: &[u8]) -> Option<Seen>
    ensures some { IfSome result (λ saw. TellsNumber saw × (text.now ≡ told saw)) }
    ensures none { IfNone result ((saw : Seen) → TellsNumber saw → text.now ≢ told saw) }
{
    let count = number(text)?;
    Some(Seen::Count(count))
}

// What an event of this kind sees, as the end of its line tells it.
fn seen_of(event: Event, text: &[u8]) -> Option<Seen>
    ensures some { IfSome result (λ saw. IsSightOf event saw × (text.now ≡ told saw)) }
    ensures none { IfNone result ((saw : Seen) → IsSightOf event saw → text.now ≢ told saw) }
{
    match event {
        Event::Try { .. }
        | Event::Take { .. }
        | Event::Park { .. }
        | Event::Free { .. }
        | Event::Look { .. }
        | Event::SemTake { .. }
        | Event::SemPark { .. }
        | Event::SemFree { .. } => truth(text),
        Event::Mark { .. }
        | Event::Enlist { .. }
        | Event::Lower { .. }
        | Event::SemMark { .. }
        | Event::SemClear { .. } => nothing(text),
        Event::Pass { .. } | Event::SemPass { .. } => sleeper(text),
        Event::Call { .. } | Event::Sweep { .. } => count(text),
    }
}

// The event that this line spells, where it is all that stands there.
fn only_event(line: &[u8]) -> Option<Event>
    ensures some { IfSome result (Spells line.now) }
    ensures none { IfNone result ((e : Event) → ¬ Spells line.now e) }
{
    let Some((event, rest)) = event_of(line) else {
        return None;
    };
    if !rest.is_empty() {
        return None;
    }
    Some(event)
}

// The most bytes that the line of an event has, its end too: a word of six letters, and four numbers of four digits.
const LONGEST: usize = 27;

// The same of a line without its end. It is read from an array, where the end stands behind it: no memory is wanted.
fn event_in(front: &[u8]) -> Option<Event>
    ensures some { IfSome result (Spells (front.now ++ 10 ∷ [])) }
    ensures none { IfNone result ((e : Event) → ¬ Spells (front.now ++ 10 ∷ []) e) }
{
    let end = front.len();
    let mut line = [b'\n'; LONGEST];
    if end >= line.len() {
        return None;
    }
    line[..end].copy_from_slice(front);
    only_event(&line[..end + 1])
}

// What the line tells, of which the end is left out: what was seen stands behind its last space.
fn sighting_of(line: &str) -> Option<Sighting>
    ensures some { IfSome result (λ x. SpellsSighting (line.now ++ 10 ∷ []) x) }
    ensures none { IfNone result ((x : Sighting) → ¬ SpellsSighting (line.now ++ 10 ∷ []) x) }
{
    let Some(space) = line.rfind(' ') else {
        return None;
    };
    let bytes = line.as_bytes();
    let front = &bytes[..space];
    let told = &bytes[space..];
    let Some(event) = event_in(front) else {
        return None;
    };
    let Some(saw) = seen_of(event, told) else {
        return None;
    };
    Some(Sighting { event, saw })
}

/// What the first line tells, and what stands behind that line.
pub(crate) fn first_sighting(text: &str) -> Option<(Sighting, &str)>
    ensures some { IfSome result (λ x. BeginsWith text.now x.0 x.1.now) }
    ensures none { IfNone result (NoSighting text.now) }
{
    let Some((line, rest)) = text.split_once('\n') else {
        return None;
    };
    let Some(sighting) = sighting_of(line) else {
        return None;
    };
    Some((sighting, rest))
}
