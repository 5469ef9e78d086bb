// A reader, a line at a time. A `BufReader` has its buffer on the heap, and there may be no room for it: `new` here cannot fail.
ghost use Rattle.std.specs.Prelude.{◌≡◌, ◌≤◌, IfOk, IfSome, length};

use crate::Stop;
use std::io::{self, Read};

// The longest line, its line feed left out.
const LONGEST: usize = 512;

// The bytes of the input from `at` to `end` are still to be taken.
#[derive(Drop)]
pub struct Reader<R> {
    from: R,
    input: [u8; 65536],
    at: usize,
    end: usize,
    // No `Filled`: tried, and `returns-in-Some-eq10`, that the line that it lends has at most 512 bytes, stays open.
    text: [u8; LONGEST],
    // So many lines have begun.
    pub line: u64,
    ghost in_order: { at ≤ end },
    ghost in_bounds: { end ≤ 65536 },
}

impl<R: Read> Reader<R> {
    pub fn new(from: R) -> Self
        ensures { result.line ≡ 0 }
    {
        Reader {
            from,
            input: [0; 65536],
            at: 0,
            end: 0,
            text: [0; LONGEST],
            line: 0,
        }
    }

    // The next byte, after a read where the input is used up; none where it has ended.
    fn next_byte(&mut self) -> io::Result<Option<u8>> {
        if self.at == self.end {
            self.at = 0;
            self.end = 0;
            self.end = self.from.read(&mut self.input)?;
        }
        let byte = self.input[self.at..self.end].first().copied();
        if byte.is_some() {
            self.at += 1;
        }
        Ok(byte)
    }

    // The next line; none where the input has ended. A last line with no line feed is malformed.
    pub fn next_line(&mut self) -> Result<Option<&[u8]>, Stop>
        ensures { IfOk result (λ next. IfSome next (λ line. length line.now ≤ 512)) }
    {
        self.line = self.line.saturating_add(1);
        for n in 0..=LONGEST {
            match self.next_byte().map_err(|_| Stop::Unread)? {
                Some(b'\n') => return Ok(Some(&self.text[..n])),
                Some(byte) if n < LONGEST => self.text[n] = byte,
                None if n == 0 => return Ok(None),
                _ => break,
            }
        }
        Err(Stop::Malformed)
    }
}
