//! The picture of a run as SVG: plain ASCII, and the same bytes for the same script.

use crate::labels::{label, push_numbers, word};
use crate::layout::{BAR, Layout};
use crate::marks::{Arrow, Bar, Dot, Told};
use crate::run::Run;
use lot_core::{Event, Script};
use std::alloc::{AllocError, Global};

/// The colours of the keys, in turn.
const COLOURS: [&str; 8] = [
    "#7fb2e5", "#f2b872", "#8fd19e", "#e59ab5", "#b9a3e3", "#dccb60", "#7fd1cf", "#d0a890",
];

/// The colour of this key.
fn colour(key: usize) -> &'static str {
    COLOURS[key % 8]
}

/// The picture, from the first lane to the words below the last one.
pub fn draw(alloc: Global, script: &Script, run: &Run) -> Result<String, AllocError> {
    let layout = Layout::new(alloc, script, run)?;
    let mut out = String::new(alloc);
    push_head(&mut out, &layout, script)?;
    push_lanes(&mut out, &layout, script.threads)?;
    push_columns(&mut out, &layout, script.events.as_slice())?;
    push_bars(&mut out, &layout, run.bars.as_slice())?;
    push_arrows(&mut out, &layout, run.arrows.as_slice())?;
    push_dots(&mut out, &layout, run.dots.as_slice())?;
    push_key(&mut out, &layout)?;
    out.push_str("</svg>\n")?;
    Ok(out)
}

fn push_head(out: &mut String, layout: &Layout, script: &Script) -> Result<(), AllocError> {
    let width = layout.width;
    let height = layout.height;
    let threads = script.threads;
    let events = script.events.len();
    write!(
        out,
        "<svg xmlns='http://www.w3.org/2000/svg' viewBox='0 0 {width} {height}'"
    )?;
    write!(out, " width='{width}' height='{height}' role='img'")?;
    out.push_str(" font-family='monospace' font-size='11' fill='#222'>\n")?;
    write!(
        out,
        "<title>A run (threads: {threads}, events: {events})</title>\n"
    )?;
    write!(out, "<defs>\n{LINE}\n{HEAD}\n</defs>\n")?;
    write!(
        out,
        "<rect width='{width}' height='{height}' fill='#fff'/>\n"
    )
}

/// Stripes for who is in a line.
const LINE: &str =
    "<pattern id='line' width='6' height='6' patternUnits='userSpaceOnUse' patternTransform='rotate(45)'>\
     <path d='M1.5 0V6' stroke='#fff' stroke-width='3'/></pattern>";

/// The head of an arrow.
const HEAD: &str =
    "<marker id='head' viewBox='0 0 8 8' refX='8' refY='4' markerWidth='8' markerHeight='8' \
     markerUnits='userSpaceOnUse' orient='auto'><path d='M0 0L8 4L0 8z'/></marker>";

/// The stripes, as a colour.
const STRIPES: &str = "url(#line)";

/// A pale band for every other lane, and the lanes' names.
fn push_lanes(out: &mut String, layout: &Layout, threads: usize) -> Result<(), AllocError> {
    let width = layout.width;
    out.push_str("<g font-weight='bold'>\n")?;
    for thread in 0..threads {
        let top = layout.lane(thread);
        let height = layout.lane(thread.saturating_add(1)).saturating_sub(top);
        let fill = if thread % 2 == 0 { "#f3f4f6" } else { "#fff" };
        write!(
            out,
            "<rect y='{top}' width='{width}' height='{height}' fill='{fill}'/>"
        )?;
        let base = layout.dot(thread).saturating_add(4);
        write!(out, "<text x='10' y='{base}'>T{thread}</text>\n")?;
    }
    out.push_str("</g>\n")
}

/// The number of each event, its line in the script, and a thin line down to the last lane.
fn push_columns(out: &mut String, layout: &Layout, events: &[Event]) -> Result<(), AllocError> {
    let floor = layout.floor;
    out.push_str("<g text-anchor='middle'>\n")?;
    for (before, event) in events.iter().enumerate() {
        let x = layout.middle(before);
        let number = before + 1;
        let word = word(*event);
        write!(out, "<path d='M{x} 52V{floor}' stroke='#d5d8dc'/>")?;
        write!(
            out,
            "<text x='{x}' y='14' font-size='9' fill='#888'>{number}</text>"
        )?;
        write!(out, "<text x='{x}' y='31' font-weight='bold'>{word}</text>")?;
        write!(out, "<text x='{x}' y='45' font-size='10'>")?;
        push_numbers(out, *event)?;
        out.push_str("</text>\n")?;
    }
    out.push_str("</g>\n")
}

fn push_bars(out: &mut String, layout: &Layout, bars: &[Bar]) -> Result<(), AllocError> {
    out.push_str("<g font-size='10'>\n")?;
    for bar in bars {
        push_bar(out, layout, *bar)?;
    }
    out.push_str("</g>\n")
}

/// Whether it is the bar of a thread that is in a line.
fn is_striped(told: Told) -> bool {
    match told {
        Told::Stands(stand) => stand.is_queued,
        Told::Has(_) => false,
    }
}

/// What a thread has is drawn in its key's full colour, where it stands in a pale one.
fn push_bar(out: &mut String, layout: &Layout, bar: Bar) -> Result<(), AllocError> {
    let (left, width) = layout.span(bar.from, bar.to);
    let top = layout.row(bar.thread, bar.row);
    let (word, key) = label(bar.told);
    let opacity = match bar.told {
        Told::Stands(stand) if stand.is_queued => "0.7",
        Told::Stands(_) => "0.4",
        Told::Has(_) => "1",
    };
    push_box(out, (left, top, width), colour(key), opacity)?;
    if is_striped(bar.told) {
        push_box(out, (left, top, width), STRIPES, "0.7")?;
    }
    let x = left.saturating_add(8);
    let base = top.saturating_add(12);
    write!(out, "<text x='{x}' y='{base}'>{word} {key}</text>\n")
}

fn push_box(
    out: &mut String,
    place: (usize, usize, usize),
    fill: &str,
    opacity: &str,
) -> Result<(), AllocError> {
    let (left, top, width) = place;
    write!(
        out,
        "<rect x='{left}' y='{top}' width='{width}' height='{BAR}' rx='3'"
    )?;
    write!(out, " fill='{fill}' fill-opacity='{opacity}'/>")
}

fn push_arrows(out: &mut String, layout: &Layout, arrows: &[Arrow]) -> Result<(), AllocError> {
    out.push_str("<g stroke='#222' stroke-width='1.5' marker-end='url(#head)'>\n")?;
    for arrow in arrows {
        let x = layout.middle(arrow.event);
        let from = layout.dot(arrow.from);
        let to = layout.dot(arrow.to);
        write!(out, "<path d='M{x} {from}V{to}'/>\n")?;
    }
    out.push_str("</g>\n")
}

fn push_dots(out: &mut String, layout: &Layout, dots: &[Dot]) -> Result<(), AllocError> {
    for (event, dot) in dots.iter().enumerate() {
        let x = layout.middle(event);
        let y = layout.dot(dot.thread);
        let fill = if dot.is_hollow { "#fff" } else { "#222" };
        push_circle(out, x, y, fill)?;
    }
    Ok(())
}

fn push_circle(out: &mut String, x: usize, y: usize, fill: &str) -> Result<(), AllocError> {
    write!(out, "<circle cx='{x}' cy='{y}' r='4' fill='{fill}'")?;
    out.push_str(" stroke='#222' stroke-width='1.5'/>\n")
}

/// Says below the lanes what the marks mean.
fn push_key(out: &mut String, layout: &Layout) -> Result<(), AllocError> {
    let first = layout.floor.saturating_add(12);
    let second = layout.floor.saturating_add(36);
    push_box(out, (12, first, 24), colour(0), "1")?;
    push_box(out, (130, first, 24), colour(0), "0.7")?;
    push_box(out, (130, first, 24), STRIPES, "0.7")?;
    push_box(out, (332, first, 24), colour(0), "0.4")?;
    push_words(out, first, ("has it", "in its line", "in no line"))?;
    let y = second.saturating_add(8);
    push_circle(out, 24, y, "#222")?;
    push_circle(out, 142, y, "#fff")?;
    write!(
        out,
        "<path d='M332 {y}H356' stroke='#222' stroke-width='1.5' marker-end='url(#head)'/>"
    )?;
    push_words(
        out,
        second,
        (
            "an event",
            "one that saw false",
            "takes a thread from its line",
        ),
    )
}

fn push_words(out: &mut String, top: usize, words: (&str, &str, &str)) -> Result<(), AllocError> {
    let base = top.saturating_add(12);
    let (first, second, third) = words;
    write!(out, "<text x='44' y='{base}'>{first}</text>")?;
    write!(out, "<text x='162' y='{base}'>{second}</text>")?;
    write!(out, "<text x='364' y='{base}'>{third}</text>\n")
}
