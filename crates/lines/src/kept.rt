// The kept file: the first bytes of an array.
ghost use Rattle.std.specs.Prelude.{◌≡◌};
ghost use Rattle.script.specs.Hex.{put_bytes, put_into};
ghost use Rattle.lines.specs.Kept.{made_to, put_to, file_made};

use crate::Stop;
use filled::Filled;
use script::put_bytes;

pub type Kept = Filled<u8, 81920>;

// Makes the kept file so many zero bytes, where there is a place for them.
pub fn make<const N: usize>(file: &mut Filled<u8, N>, length: u64) -> Result<(), Stop>
    ensures value { result ≡ made_to N length }
    ensures after { file.new ≡ file_made N length file.old }
{
    let n = length as usize;
    if n > file.items.len() {
        return Err(Stop::Malformed);
    }
    file.items[..n].fill(0);
    file.length = n;
    Ok(())
}

// Overwrites bytes of the kept file by those of the line, where they end within it.
pub fn put<const N: usize>(file: &mut Filled<u8, N>, line: &[u8], at: u64) -> Result<(), Stop>
    ensures value { result ≡ put_to at (put_bytes line.now) file.old }
    ensures after { file.new ≡ put_into at (put_bytes line.now) file.old }
{
    put_bytes(line, &mut file.items[..file.length], at).ok_or(Stop::Malformed)
}
