// Runs a campaign script: reads it from standard input, and writes a line for each line that asks something.
// A program has no exit status of its own here: a malformed script shows in the last line, and a read or a write that
// failed on standard error.
#![tactic(auto)]

use asked::session::Session;
use lines::Stop;
use lines::reader::Reader;
use lines::told::Told;
use std::io::{Read, Write};

// Answers question after question, up to the script's end.
fn run<R: Read, W: Write>(
    from: &mut Reader<R>,
    told: &mut Told,
    session: &mut Session<W>,
) -> Result<(), Stop> {
    for _ in 0..u64::MAX {
        let Some(question) = told.next_question(from)? else {
            break;
        };
        session.obey(question, told)?;
    }
    Ok(())
}

fn main(rt: HostRuntime) {
    let mut errors = rt.stderr();
    let mut from = Reader::new(rt.stdin());
    let mut told = Told::new();
    let mut session = Session::new(rt.stdout());
    let ended = match run(&mut from, &mut told, &mut session) {
        Err(Stop::Malformed) => session.malformed(from.line),
        Err(Stop::Unread) => {
            let _ = errors.write_all(b"replay: standard input cannot be read\n");
            Ok(())
        }
        ended => ended,
    };
    if ended.is_err() || session.sink.flush().is_err() {
        let _ = errors.write_all(b"replay: standard output cannot be written\n");
    }
}
