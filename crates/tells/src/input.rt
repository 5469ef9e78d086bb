// A reader, read whole.
ghost use Rattle.std.specs.Prelude.{◌<◌, length, IfOk, IfSome};

use std::io;
use std::io::Read;

// Reads until the input ends, which is where a read brings nothing, and answers how many bytes it is; or until the text is full, with
// as many bytes as it has places, or more.
pub fn read_input<R: Read>(from: &mut R, text: &mut [u8]) -> io::Result<Option<usize>>
    ensures { IfOk result (λ size. IfSome size (λ n. n < length text.new)) }
{
    // No index is counted: a place grows by what each read brought.
    let mut at: usize = 0;
    while at < text.len() {
        let n = from.read(&mut text[at..])?;
        if n == 0 {
            return Ok(Some(at));
        }
        at += n;
    }
    Ok(None)
}
