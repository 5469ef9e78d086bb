// Turns a metrics export (document 02, W3) into the `tell` lines of a campaign script (docs/SCRIPTS.md), so that
// `(cat setup calls; tells <export.csv) | replay` runs an export through a campaign. Standard input is the export.
// Standard output gets a line `tell NUMBER PATTERN` for each entry, in the file's order. A refused export gives one
// line alone, `refused 14 LINE` or `refused 15`. More than 2,555,904 bytes, 65,536 lines of the longest form, give
// `too long`: they are never read well into 65,536 places (proofs/Longest), and which refusal applies is not looked at.
// A read that fails gives `unread`. `replay` answers each of these with `malformed`, so that none passes unseen in a pipe.
// What a row holds is proved (rows.rt), and that a script reads it back as its entry (proofs/ToldBack). That standard
// output then receives it is no contract: nothing is promised of what its writer writes. A read or a write that
// failed is also said on standard error. The program needs 3.6 MB of stack.
#![tactic(auto)]

use filled::Filled;
use metrics::ExportRefusal;
use std::io;
use std::io::{Read, Write};

mod input;
mod rows;

// A `tell` line for each entry, written in blocks, each filled up with rows of whatever length, so that the writes are few.
fn write_tells<W: Write>(to: &mut W, numbers: &[u64], values: &[f64]) -> io::Result<()> {
    let mut block: Filled<u8, 8192> = Filled::new(0);
    let mut numbers = numbers;
    let mut values = values;
    loop {
        let rows = rows::fill_up(&mut block, numbers, values);
        if rows == 0 {
            return Ok(());
        }
        to.write_all(block.as_slice())?;
        numbers = &numbers[rows..];
        values = &values[rows..];
    }
}

fn write_refusal<W: Write>(to: &mut W, why: ExportRefusal) -> io::Result<()> {
    to.write_all(rows::refused_row(why).as_slice())
}

// The export read, and what it gives written.
#[tactic(auto, using(metrics::proofs::Writes::writes))]
fn answer<W: Write>(
    to: &mut W,
    export: &[u8],
    numbers: &mut [u64],
    values: &mut [f64],
) -> io::Result<()> {
    match metrics::read_history_slices(export, numbers, values) {
        Ok(n) => write_tells(to, &numbers[..n], &values[..n]),
        Err(why) => write_refusal(to, why),
    }
}

// An input that cannot be read is a line on standard output too, so that it does not pass for an empty export.
fn write_unread<W: Write, E: Write>(to: &mut W, errors: &mut E) -> io::Result<()> {
    let _ = errors.write_all(b"tells: standard input cannot be read\n");
    to.write_all(b"unread\n")
}

// The text is one byte longer than the input may be, so that a full text is an input that is too long.
fn run<R: Read, W: Write, E: Write>(
    from: &mut R,
    to: &mut W,
    errors: &mut E,
    text: &mut [u8; 2555905],
    numbers: &mut [u64; 65536],
    values: &mut [f64; 65536],
) {
    let written = match input::read_input(from, text) {
        Ok(Some(n)) => answer(to, &text[..n], numbers, values),
        Ok(None) => to.write_all(b"too long\n"),
        Err(_) => write_unread(to, errors),
    };
    if written.is_err() {
        let _ = errors.write_all(b"tells: standard output cannot be written\n");
    }
}

fn main(rt: HostRuntime) {
    let mut from = rt.stdin();
    let mut to = rt.stdout();
    let mut errors = rt.stderr();
    let mut text = [0u8; 2555905];
    let mut numbers = [0u64; 65536];
    let mut values = [0.0f64; 65536];
    run(
        &mut from,
        &mut to,
        &mut errors,
        &mut text,
        &mut numbers,
        &mut values,
    );
}
