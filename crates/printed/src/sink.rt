// A writer through one buffer. A `BufWriter` has its buffer on the heap, and there may be no room for it: `new` here cannot fail.
ghost use Rattle.std.specs.Prelude.{OnOk, ◌≡◌, ⊤};
ghost use Rattle.std.specs.Io.KnownBytes.{Appends, Keeps};

use filled::padded::Padded;
use std::alloc::AllocError;
use std::fmt;
use std::io::{self, Write};
use std::marker::Model;

// What waits is still to be written.
#[derive(Drop)]
pub struct Sink<W: Write> {
    to: W,
    waiting: Padded<u8, 8192>,
}

// Clauses speak of what was written to it. The rest is seen too, so that a sink whose writer is `Copy` is.
impl<W: Write> Model for Sink<W> {
    ghost use Rattle.std.specs.Io.KnownBytes.{append_known};
    ghost use Rattle.printed.specs.Sunk.{Sunk};

    ghost Value = { Sunk W };

    ghost view = { λ s. record { to = s.to; waiting = s.waiting; written = append_known (W.contents s.to) s.waiting } };

    ghost inverse = { λ v. record { to = v.to; waiting = v.waiting } };
}

impl<W: Write + Copy> Copy for Sink<W> {}

impl<W: Write + Copy> Clone for Sink<W> {
    ghost is_clone = { λ x y. y ≡ x };

    ghost is_infallible = { λ _. ⊤ };

    fn clone(&self) -> Result<Self, AllocError> {
        Ok(*self)
    }
}

impl<W: Write> Sink<W> {
    pub fn new(to: W) -> Self
        ensures { Keeps (W.contents to) result.written }
    {
        Sink {
            to,
            waiting: Padded::new(),
        }
    }

    // Writes what waits.
    pub fn flush(&mut self) -> io::Result<()>
        ensures { OnOk result (Keeps self.old.written self.new.written) }
    {
        self.to.write_all(self.waiting.as_slice())?;
        self.waiting.clear();
        Ok(())
    }
}

impl<W: Write> fmt::Write for Sink<W> {
    ghost write_str_gives = { λ old text new. Appends old.written new.written text };

    // Appends text, after a write of what waits where there is no room. No text is longer than the buffer.
    fn write_str(&mut self, text: &str) -> fmt::Result {
        let text = text.as_bytes();
        if self.waiting.room() < text.len() {
            self.flush().map_err(|_| fmt::Error)?;
        }
        if self.waiting.room() < text.len() {
            return Err(fmt::Error);
        }
        self.waiting.extend_from_slice(text);
        Ok(())
    }
}
