// The history: a lent list of completed trials, read and never written (CompletedTrial of sampler/mod.rs).
// A call says which trial numbers it wants; one scan finds them and says whether refusal 8 applies.
#![tactic(auto)]

ghost use Rattle.std.specs.Prelude.{List, ◌≡◌, Some};
ghost use Rattle.std.specs.Iterator.{Drains, IsFinite};
ghost use Rattle.history.specs.Entry.{state_number, state_from, is_complete, is_bad, counted_value};
ghost use Rattle.history.specs.Scan.{wanting, put_where, nothing, absorbed, may_matter, gathered, trials_of};
ghost use Rattle.history.specs.declared.CompletedTrial.{CompletedTrial};

// How a trial ended (`TrialState` of types.rs, whose Running is no entry of a history). A trial that was pruned or that failed may have a
// last figure, or NaN; neither counts.
#[derive(Clone, Copy)]
pub enum TrialState {
    Complete,
    Pruned,
    Failed,
}

#[derive(Clone, Copy)]
pub struct CompletedTrial {
    pub number: u64,
    pub value: f64,
    pub state: TrialState,
}

// What the entries so far say: whether refusal 8 applies, and the value of each wanted number that one of them has. `nan` says
// nothing of the values beside it: both go on to the last entry.
#[derive(Clone, Copy)]
pub struct Gathered {
    pub nan: bool,
    pub values: [Option<f64>; 160],
}

impl TrialState {
    // The number that C knows a state by: the cases stand in their order.
    pub fn number(self) -> u64
        ensures { result ≡ state_number self }
    {
        self as u64
    }

    // The state that a number stands for; any other number stands for none.
    pub fn from_number(number: u64) -> Option<TrialState>
        ensures { result ≡ state_from number }
    {
        match number {
            0 => Some(TrialState::Complete),
            1 => Some(TrialState::Pruned),
            2 => Some(TrialState::Failed),
            _ => None,
        }
    }

    pub fn is_complete(self) -> bool
        ensures { result ≡ is_complete self }
    {
        match self {
            TrialState::Complete => true,
            TrialState::Pruned | TrialState::Failed => false,
        }
    }
}

impl CompletedTrial {
    // Refusal 8: the value of a complete entry is NaN.
    #[tactic(auto, unfolding(crate::specs::Entry::is_bad))]
    pub fn is_bad(self) -> bool
        ensures { result ≡ is_bad self }
    {
        self.state.is_complete() && self.value.is_nan()
    }

    // What the entry counts as for its trial.
    #[tactic(auto, unfolding(crate::specs::Entry::counted_value))]
    pub fn counted_value(self) -> f64
        ensures { result ≡ counted_value self }
    {
        if self.state.is_complete() {
            self.value
        } else {
            f64::INFINITY
        }
    }
}

impl Gathered {
    // Before the first entry.
    pub fn new() -> Gathered
        ensures { result ≡ nothing }
    {
        Gathered {
            nan: false,
            values: [None; 160],
        }
    }

    // One entry more: its value takes the place of what an earlier entry gave.
    pub fn absorb(&mut self, wanted: &[u64], entry: CompletedTrial)
        ensures { self.new ≡ absorbed wanted.now self.old entry }
    {
        self.absorb_parts(wanted, entry.number, entry.value, entry.state);
    }

    // The same by the entry's parts. Out of line, so that the scan's loop over entries that do not matter stays small, and by parts, since a
    // struct of three would be written to memory at each turn: a third of the time.
    #[inline(never)]
    #[tactic(auto, unfolding(crate::specs::Scan::absorbed))]
    fn absorb_parts(&mut self, wanted: &[u64], number: u64, value: f64, state: TrialState)
        ensures { self.new ≡ absorbed wanted.now self.old (record { number = number; value = value; state = state }) }
    {
        let entry = CompletedTrial {
            number,
            value,
            state,
        };
        self.nan |= entry.is_bad();
        put(&mut self.values, wanted, number, entry.counted_value());
    }
}

// A value at each place that wants the number. It is not a `zip` with `values.iter_mut()`: what is written through an adapter of
// `iter_mut` is not known behind a loop (docs/DECISIONS.md, "Limits of the toolchain met").
#[tactic(auto, using(crate::proofs::Putting::putting))]
fn put(values: &mut [Option<f64>; 160], wanted: &[u64], number: u64, value: f64)
    ensures { values.new ≡ put_where (wanting wanted.now number) (Some value) values.old }
{
    let wanted = &wanted[..wanted.len().min(160)];
    for (j, wanted_number) in wanted.iter().enumerate() {
        if *wanted_number == number {
            values[j] = Some(value);
        }
    }
}

// Whether an entry can change anything where all wanted numbers lie in lo..=hi. A long history is cheap by this test.
#[tactic(auto, unfolding(crate::specs::Scan::may_matter))]
pub fn may_matter(lo: u64, hi: u64, entry: CompletedTrial) -> bool
    ensures { result ≡ may_matter lo hi entry }
{
    (lo..=hi).contains(&entry.number) || entry.is_bad()
}

// The scan: every entry that may matter, in turn. The range, the wanted numbers and what was gathered before stay three parameters:
// the last goes on from entry to entry, and the first is looked at far more often than the second. `lo` and `hi` are no
// `RangeInclusive`: one that an iterator has spent holds no number, so the definitions would speak of three things in place of two.
// `from` is a parameter although callers begin with `Gathered::new()`: what a scan makes of any start is promised too.
#[tactic(auto, using(crate::proofs::Scans::scans))]
pub fn scan<I: Iterator<Item = CompletedTrial> + Drop>(
    entries: I,
    lo: u64,
    hi: u64,
    wanted: &[u64],
    from: Gathered,
) -> Gathered
    requires can { I.can_next entries }
    requires ends { IsFinite (I.remaining entries) }
    ensures { (es : List CompletedTrial) × Drains I.next_gives entries es × (result ≡ gathered lo hi wanted.now es from) }
{
    let mut g = from;
    for entry in entries {
        if may_matter(lo, hi, entry) {
            g.absorb(wanted, entry);
        }
    }
    g
}

// The scan over plain slices, a number, a value and a state for each entry: where one is longer its rest is no entry. The sample calls go
// by `scan` itself; this and the next stand for what they promise.
pub fn gather_slices(
    numbers: &[u64],
    values: &[f64],
    states: &[TrialState],
    lo: u64,
    hi: u64,
    wanted: &[u64],
    from: Gathered,
) -> Gathered
    ensures { result ≡ gathered lo hi wanted.now (trials_of numbers.now values.now states.now) from }
{
    let parts = numbers.iter().zip(values).zip(states);
    let entries = parts.map(|((number, value), state)| CompletedTrial {
        number: *number,
        value: *value,
        state: *state,
    });
    scan(entries, lo, hi, wanted, from)
}

// The same scan over a slice of entries.
pub fn gather(
    history: &[CompletedTrial],
    lo: u64,
    hi: u64,
    wanted: &[u64],
    from: Gathered,
) -> Gathered
    ensures { result ≡ gathered lo hi wanted.now history.now from }
{
    scan(history.iter().copied(), lo, hi, wanted, from)
}
