// The save call and the restore call (document 02, W2).
ghost use Rattle.std.specs.Prelude.{◌≡◌, length};
ghost use Rattle.files.specs.File.{refused_file, saved_answer, save_answer, save_file, restored_file};

use edge::flat::{DeState, Opened, open};
use saved::{FileRefusal, save};

// kind: 0 refused, by check 12 or 13; 1 saved, in a file of `length` bytes; 2 restored. Fields that a kind does not use are 0.
// Kind and refusal are numbers, since no enum can cross to C.
#[repr(C)]
#[derive(Clone, Copy)]
pub struct DeFile {
    pub kind: u64,
    pub refusal: u64,
    pub length: u64,
}

impl DeFile {
    // The answer to a restore call whose file is taken.
    pub fn restored() -> Self
        ensures { result ≡ restored_file }
    {
        DeFile {
            kind: 2,
            refusal: 0,
            length: 0,
        }
    }
}

impl From<FileRefusal> for DeFile {
    ghost from_gives = { λ why file. file ≡ refused_file why };

    fn from(why: FileRefusal) -> Self {
        DeFile {
            kind: 0,
            refusal: why.number(),
            length: 0,
        }
    }
}

// What a save call answers.
impl From<Result<usize, FileRefusal>> for DeFile {
    ghost from_gives = { λ answer file. file ≡ saved_answer answer };

    fn from(answer: Result<usize, FileRefusal>) -> Self {
        match answer {
            Ok(n) => DeFile {
                kind: 1,
                refusal: 0,
                length: n as u64,
            },
            Err(why) => DeFile::from(why),
        }
    }
}

// A state with a number that names no case is not sound, and that is told before the room is judged.
#[tactic(auto, unfolding(edge::specs::Known::opened_in, crate::specs::File::save_answer, crate::specs::File::save_file))]
pub fn save_at(s: &DeState, file: &mut [u8]) -> DeFile
    ensures { (result ≡ save_answer s.now (length file.old)) × (file.new ≡ save_file s.now file.old) }
{
    match Opened::try_from(s) {
        Ok(opened) => {
            let state = open(s, opened);
            DeFile::from(save(&state, file))
        }
        Err(_) => DeFile::from(FileRefusal::BadContent),
    }
}
