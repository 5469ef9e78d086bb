// The kinds of records, each by its number in a file.
#[derive(Clone, Copy, Debug, PartialEq, Eq)]
pub enum Kind {
    Setup = 1,
    Counts = 2,
    Dimensions = 3,
    Trials = 4,
    Parents = 5,
    Candidates = 6,
}

impl Kind {
    ghost use Rattle.std.specs.Prelude.{◌≡◌};
    ghost use Rattle.kinds.specs.Kinds.{kind_number};

    // In the writer's order.
    pub const ALL: [Kind; 6] = [
        Kind::Setup,
        Kind::Counts,
        Kind::Dimensions,
        Kind::Trials,
        Kind::Parents,
        Kind::Candidates,
    ];

    // Its number, which each case has beside it.
    pub fn number(self) -> u64
        ensures { result ≡ kind_number self }
    {
        self as u64
    }
}
