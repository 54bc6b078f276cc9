//! The lines of a script, read from left to right.
ghost use Rattle.std.specs.Prelude.{◌≡◌, ◌+◌, ◌*◌, ◌<◌, IfSome, IfNone};
ghost use Rattle.std.specs.Option.{option_map};

use crate::events::Event;

// The words of events. Two are of a Call: `call` takes one thread, `some` says how many.
#[derive(Clone, Copy)]
enum Kind {
    Try,
    Take,
    Mark,
    Park,
    Free,
    Pass,
    Enlist,
    Look,
    Call,
    CallSome,
    Lower,
    Sweep,
    SemTake,
    SemMark,
    SemPark,
    SemFree,
    SemPass,
    SemClear,
}

const KINDS: [Kind; 18] = [
    Kind::Try,
    Kind::Take,
    Kind::Mark,
    Kind::Park,
    Kind::Free,
    Kind::Pass,
    Kind::Enlist,
    Kind::Look,
    Kind::Call,
    Kind::CallSome,
    Kind::Lower,
    Kind::Sweep,
    Kind::SemTake,
    Kind::SemMark,
    Kind::SemPark,
    Kind::SemFree,
    Kind::SemPass,
    Kind::SemClear,
];

ghost use Rattle.lot_events.specs.declared.reading.Kind.TheVariants as Kind;
ghost use Rattle.lot_events.specs.Reading.{kind_word, rest_behind, one_more, number_at, field_at, flag_at, end_at};
ghost use Rattle.lot_events.specs.Reading.{first_of, kinds, last_at, event_at, open_at};
ghost use Rattle.lot_events.specs.Spelling.{BeginsWith, NoEvent};

fn word_of(kind: Kind) -> &'static [u8]
    ensures { result.now ≡ kind_word kind }
{
    match kind {
        Kind::Try => b"try",
        Kind::Take => b"take",
        Kind::Mark => b"mark",
        Kind::Park => b"park",
        Kind::Free => b"free",
        Kind::Pass => b"pass",
        Kind::Enlist => b"enlist",
        Kind::Look => b"look",
        Kind::Call => b"call",
        Kind::CallSome => b"some",
        Kind::Lower => b"lower",
        Kind::Sweep => b"sweep",
        Kind::SemTake => b"stake",
        Kind::SemMark => b"smark",
        Kind::SemPark => b"spark",
        Kind::SemFree => b"sfree",
        Kind::SemPass => b"spass",
        Kind::SemClear => b"sclear",
    }
}

// What stands behind the word, if the text begins with it.
#[tactic(auto, unfolding(crate::specs::Reading::rest_behind))]
fn behind<'a>(word: &[u8], text: &'a [u8]) -> Option<&'a [u8]>
    ensures { option_map (λ x. x.now) result ≡ rest_behind word.now text.now }
{
    text.strip_prefix(word)
}

// One more digit of a number, if there is one.
#[tactic(auto, unfolding(crate::specs::Reading::one_more))]
fn one_digit(number: usize, text: &[u8]) -> (usize, &[u8])
    requires { number < 1000 }
    ensures value { (result.0, result.1.now) ≡ one_more number text.now }
    ensures small { result.0 < 10 * number + 10 }
{
    match text {
        [digit @ b'0'..=b'9', rest @ ..] => (10 * number + (*digit - b'0') as usize, rest),
        _ => (number, text),
    }
}

#[tactic(auto, unfolding(crate::specs::Reading::number_at, crate::specs::Reading::three_more))]
fn number_of(text: &[u8]) -> Option<(usize, &[u8])>
    ensures { option_map (λ x. (x.0, x.1.now)) result ≡ number_at text.now }
{
    match text {
        [b'0', rest @ ..] => Some((0, rest)),
        [digit @ b'1'..=b'9', rest @ ..] => {
            let one = one_digit((*digit - b'0') as usize, rest);
            let two = one_digit(one.0, one.1);
            Some(one_digit(two.0, two.1))
        }
        _ => None,
    }
}

/// The number that stands at the front behind a space, and what stands behind it.
#[tactic(auto, unfolding(crate::specs::Reading::field_at))]
pub fn field(text: &[u8]) -> Option<(usize, &[u8])>
    ensures { option_map (λ x. (x.0, x.1.now)) result ≡ field_at text.now }
{
    match text {
        [b' ', rest @ ..] => number_of(rest),
        _ => None,
    }
}

#[tactic(auto, unfolding(crate::specs::Reading::flag_at))]
fn flag(text: &[u8]) -> Option<(bool, &[u8])>
    ensures { option_map (λ x. (x.0, x.1.now)) result ≡ flag_at text.now }
{
    let (number, rest) = field(text)?;
    if number > 1 {
        return None;
    }
    Some((number == 1, rest))
}

/// What stands behind the end of the line, if that is here.
#[tactic(auto, unfolding(crate::specs::Reading::end_at))]
pub fn end(text: &[u8]) -> Option<&[u8]>
    ensures { option_map (λ x. x.now) result ≡ end_at text.now }
{
    match text {
        [b'\n', rest @ ..] => Some(rest),
        _ => None,
    }
}

// The first of these kinds whose word the text begins with. No word begins another.
#[tactic(auto, using(crate::proofs::Words::kind_laws))]
fn first_kind<'a>(kinds: &[Kind], text: &'a [u8]) -> Option<(Kind, &'a [u8])>
    ensures { option_map (λ x. (x.0, x.1.now)) result ≡ first_of kinds.now text.now }
{
    for kind in kinds {
        if let Some(rest) = behind(word_of(*kind), text) {
            return Some((*kind, rest));
        }
    }
    None
}

fn kind_at(text: &[u8]) -> Option<(Kind, &[u8])>
    ensures { option_map (λ x. (x.0, x.1.now)) result ≡ first_of kinds text.now }
{
    first_kind(&KINDS, text)
}

#[tactic(auto, unfolding(crate::specs::Reading::last_at))]
fn pass(thread: usize, key: usize, text: &[u8]) -> Option<(Event, &[u8])>
    ensures { option_map (λ x. (x.0, x.1.now)) result ≡ last_at Kind.Pass thread key text.now }
{
    let (fair, text) = flag(text)?;
    let (more, text) = flag(text)?;
    let event = Event::Pass {
        thread,
        key,
        fair,
        more,
    };
    Some((event, text))
}

#[tactic(auto, unfolding(crate::specs::Reading::last_at))]
fn enlist(thread: usize, key: usize, text: &[u8]) -> Option<(Event, &[u8])>
    ensures { option_map (λ x. (x.0, x.1.now)) result ≡ last_at Kind.Enlist thread key text.now }
{
    let (lock, text) = field(text)?;
    Some((Event::Enlist { thread, key, lock }, text))
}

#[tactic(auto, unfolding(crate::specs::Reading::last_at))]
fn call_one(thread: usize, key: usize, text: &[u8]) -> Option<(Event, &[u8])>
    ensures { option_map (λ x. (x.0, x.1.now)) result ≡ last_at Kind.Call thread key text.now }
{
    let (more, text) = flag(text)?;
    let event = Event::Call {
        thread,
        key,
        count: 1,
        more,
    };
    Some((event, text))
}

#[tactic(auto, unfolding(crate::specs::Reading::last_at))]
fn call_some(thread: usize, key: usize, text: &[u8]) -> Option<(Event, &[u8])>
    ensures { option_map (λ x. (x.0, x.1.now)) result ≡ last_at Kind.CallSome thread key text.now }
{
    let (count, text) = field(text)?;
    let (more, text) = flag(text)?;
    let event = Event::Call {
        thread,
        key,
        count,
        more,
    };
    Some((event, text))
}

#[tactic(auto, unfolding(crate::specs::Reading::last_at))]
fn sem_pass(thread: usize, key: usize, text: &[u8]) -> Option<(Event, &[u8])>
    ensures { option_map (λ x. (x.0, x.1.now)) result ≡ last_at Kind.SemPass thread key text.now }
{
    let (more, text) = flag(text)?;
    Some((Event::SemPass { thread, key, more }, text))
}

// The event of this kind, thread and key, with the numbers that its kind has beyond these.
#[tactic(auto, unfolding(crate::specs::Reading::last_at))]
fn last(kind: Kind, thread: usize, key: usize, text: &[u8]) -> Option<(Event, &[u8])>
    ensures { option_map (λ x. (x.0, x.1.now)) result ≡ last_at kind thread key text.now }
{
    match kind {
        Kind::Try => Some((Event::Try { thread, key }, text)),
        Kind::Take => Some((Event::Take { thread, key }, text)),
        Kind::Mark => Some((Event::Mark { thread, key }, text)),
        Kind::Park => Some((Event::Park { thread, key }, text)),
        Kind::Free => Some((Event::Free { thread, key }, text)),
        Kind::Pass => pass(thread, key, text),
        Kind::Enlist => enlist(thread, key, text),
        Kind::Look => Some((Event::Look { thread, key }, text)),
        Kind::Call => call_one(thread, key, text),
        Kind::CallSome => call_some(thread, key, text),
        Kind::Lower => Some((Event::Lower { thread, key }, text)),
        Kind::Sweep => Some((Event::Sweep { thread, key }, text)),
        Kind::SemTake => Some((Event::SemTake { thread, key }, text)),
        Kind::SemMark => Some((Event::SemMark { thread, key }, text)),
        Kind::SemPark => Some((Event::SemPark { thread, key }, text)),
        Kind::SemFree => Some((Event::SemFree { thread, key }, text)),
        Kind::SemPass => sem_pass(thread, key, text),
        Kind::SemClear => Some((Event::SemClear { thread, key }, text)),
    }
}

// The word, the numbers and the end of the first line, each read from the front of what is left.
#[tactic(auto, unfolding(crate::specs::Reading::event_at))]
fn event_read(text: &[u8]) -> Option<(Event, &[u8])>
    ensures { option_map (λ x. (x.0, x.1.now)) result ≡ event_at text.now }
{
    let (kind, text) = kind_at(text)?;
    let (thread, text) = field(text)?;
    let (key, text) = field(text)?;
    let (event, text) = last(kind, thread, key, text)?;
    let text = end(text)?;
    Some((event, text))
}

/// The event that the first line spells, and what stands behind that line.
#[tactic(auto, using(crate::proofs::Spelled::event_takes, crate::proofs::Spelled::no_event))]
pub fn event_of(text: &[u8]) -> Option<(Event, &[u8])>
    ensures some { IfSome result (λ x. BeginsWith text.now x.0 x.1.now) }
    ensures none { IfNone result (NoEvent text.now) }
{
    event_read(text)
}

/// The numbers of threads, locks and conditions that open a script, and what stands behind them.
#[tactic(auto, unfolding(crate::specs::Reading::open_at))]
pub fn opening(text: &[u8]) -> Option<(usize, usize, usize, &[u8])>
    ensures { option_map (λ x. (x.0, x.1, x.2, x.3.now)) result ≡ open_at text.now }
{
    let text = behind(b"open", text)?;
    let (threads, text) = field(text)?;
    let (locks, text) = field(text)?;
    let (conds, text) = field(text)?;
    Some((threads, locks, conds, text))
}
