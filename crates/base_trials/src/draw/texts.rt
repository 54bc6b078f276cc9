//! The pictures, and each fault with its status.

use super::pictures::{BARGING, HANDOFF, SEMAPHORE, WAIT};
use crate::asserts::{bytes_are, equal, equal_in, is_so};
use lot_draw::run_command;
use std::alloc::{AllocError, Global};
use std::io;
use std::io::Write;
use std::process::Abort;
use std::test::Fail;

/// Runs the words, with the file, and compares what is written and the status.
fn check<R: Abort>(
    rt: &R,
    alloc: Global,
    name: &str,
    words: &[&str],
    file: Option<&[u8]>,
    want: (&str, &str, u8),
) {
    let mut out = Vec::new(alloc);
    let mut faults = Vec::new(alloc);
    let status = run_command(alloc, words, file, &mut out, &mut faults);
    bytes_are(rt, out.as_slice(), want.0, "output", name);
    bytes_are(rt, faults.as_slice(), want.1, "faults", name);
    equal_in(rt, status, want.2, name);
}

fn is_drawn<R: Abort>(rt: &R, alloc: Global, name: &str, drawn: (&str, &str)) {
    let (script, picture) = drawn;
    let file = Some(script.as_bytes());
    check(rt, alloc, name, &["f"], file, (picture, "", 0));
}

#[test]
fn scripts_are_drawn(rt: HostRuntime) {
    is_drawn(&rt, rt.alloc(), "barging", BARGING);
    is_drawn(&rt, rt.alloc(), "handoff", HANDOFF);
    is_drawn(&rt, rt.alloc(), "wait", WAIT);
    is_drawn(&rt, rt.alloc(), "semaphore", SEMAPHORE);
}

/// A script, the fault, and the status.
static REFUSED: [(&str, &str, u8); 9] = [
    ("", "bad script line 1\n", 1),
    ("open 1 1 0", "bad script line 1\n", 1),
    ("open 1 1 0\ntry 0  0\n", "bad script line 2\n", 1),
    ("open 257 1 0\nzzz\n", "bad script line 2\n", 1),
    ("open 257 1 0\n", "bad limits\n", 1),
    ("open 64 1 0 1 2\ntry 64 0\n", "event 1 refused\n", 2),
    ("open 1 1 0\nfree 0 0\n", "event 1 refused\n", 2),
    (
        "open 2 1 0 1\nstake 0 1\nstake 1 1\nspass 1 1 0\n",
        "event 3 refused\n",
        2,
    ),
    ("open 1 1 1024\n", "bad limits\n", 1),
];

#[test]
fn wrong_scripts_are_refused(rt: HostRuntime) {
    for (script, fault, status) in &REFUSED {
        let file = Some(script.as_bytes());
        check(&rt, rt.alloc(), script, &["f"], file, ("", *fault, *status));
    }
}

#[test]
fn wrong_words_are_refused(rt: HostRuntime) {
    let fault = ("", "bad command line\n", 1);
    let wrong: [&[&str]; 4] = [&[], &["a", "b"], &["replay", "a", "b"], &["--help", "a"]];
    for words in wrong {
        check(&rt, rt.alloc(), "wrong words", words, None, fault);
    }
}

/// Checks a file of so many empty lines.
fn check_empty_lines<R: Abort>(
    rt: &R,
    alloc: Global,
    lines: usize,
    name: &str,
    want: (&str, &str, u8),
) -> Result<(), AllocError> {
    let bytes = vec![in alloc; b'\n'; lines]?;
    let file = Some(bytes.as_slice());
    check(rt, alloc, name, &["f"], file, want);
    Ok(())
}

#[test]
fn unreadable_files(rt: HostRuntime) -> Result<(), Fail> {
    let alloc = rt.alloc();
    let fault = ("", "cannot read file\n", 1);
    check(&rt, alloc, "no such file", &["f"], None, fault);
    let not_text = Some(b"open 1 1 0\n\xff\n".as_slice());
    check(&rt, alloc, "not UTF-8", &["f"], not_text, fault);
    check_empty_lines(&rt, alloc, 4_000_001, "4,000,001 bytes", fault)?;
    let bad = ("", "bad script line 1\n", 1);
    check_empty_lines(&rt, alloc, 4_000_000, "4,000,000 bytes", bad)?;
    Ok(())
}

/// A writer that takes nothing.
#[derive(Drop)]
struct Full;

impl Write for Full {
    fn write(&mut self, _buf: &[u8]) -> io::Result<usize> {
        Ok(0)
    }

    fn flush(&mut self) -> io::Result<()> {
        Ok(())
    }
}

/// Takes all bytes, and counts the writes.
#[derive(Drop)]
struct Counted {
    bytes: Vec<u8>,
    writes: u64,
}

impl Write for Counted {
    fn write(&mut self, buf: &[u8]) -> io::Result<usize> {
        self.writes = self.writes.saturating_add(1);
        self.bytes.write(buf)
    }

    fn flush(&mut self) -> io::Result<()> {
        Ok(())
    }
}

#[test]
fn output_that_cannot_be_written(rt: HostRuntime) {
    let mut faults = Counted {
        bytes: Vec::new(rt.alloc()),
        writes: 0,
    };
    let file = Some(WAIT.0.as_bytes());
    let status = run_command(rt.alloc(), &["f"], file, &mut Full, &mut faults);
    bytes_are(
        &rt,
        faults.bytes.as_slice(),
        "cannot write\n",
        "faults",
        "a full output",
    );
    equal(&rt, faults.writes, 1);
    equal(&rt, status, 1);
}

/// A script of so many lines after the first.
fn long_script(alloc: Global, lines: u32) -> Result<String, AllocError> {
    let mut script = String::from_str(alloc, "open 64 1 0\n")?;
    for _ in 0..lines {
        script.push_str("try 0 0\n")?;
    }
    Ok(script)
}

/// The longest picture is written to its end.
fn is_drawn_to_its_end<R: Abort>(rt: &R, alloc: Global, script: &str) {
    let mut out = Vec::new(alloc);
    let mut faults = Vec::new(alloc);
    let file = Some(script.as_bytes());
    let status = run_command(alloc, &["f"], file, &mut out, &mut faults);
    is_so(
        rt,
        out.as_slice().ends_with(b"</svg>\n"),
        "it is drawn to its end",
    );
    is_so(rt, faults.is_empty(), "no fault is told");
    equal(rt, status, 0);
}

#[test]
fn longest_scripts(rt: HostRuntime) -> Result<(), Fail> {
    let alloc = rt.alloc();
    let longest = long_script(alloc, 99_999)?;
    is_drawn_to_its_end(&rt, alloc, longest.as_str());
    let longer = long_script(alloc, 100_000)?;
    let file = Some(longer.as_bytes());
    let fault = ("", "bad script line 100001\n", 1);
    check(&rt, alloc, "a line too many", &["f"], file, fault);
    Ok(())
}
