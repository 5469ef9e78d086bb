// What is tuned: distributions, dimensions and settings (distribution.rs, param.rs).
#![tactic(auto)]

ghost use Rattle.std.specs.Prelude.{◌≡◌};
ghost use Rattle.distribution.specs.Dims.{continuous, is_ladder, choices, blank_dim};
ghost use Rattle.distribution.specs.Refusals.{refusal_number};

pub mod validate;

// This struct and the next are two, as in the Rust: what is proved of doubles and of whole numbers has nothing in common.
#[derive(Clone, Copy)]
pub struct FloatDistribution {
    pub low: f64,
    pub high: f64,
    pub log_scale: bool,
    pub step: Option<f64>,
}

#[derive(Clone, Copy)]
pub struct IntDistribution {
    pub low: i64,
    pub high: i64,
    pub log_scale: bool,
    pub step: Option<i64>,
}

#[derive(Clone, Copy)]
pub struct CategoricalDistribution {
    pub n_choices: u64,
}

#[derive(Clone, Copy)]
pub enum Distribution {
    Float(FloatDistribution),
    Int(IntDistribution),
    Categorical(CategoricalDistribution),
}

// A setting: a double, a signed whole number, or a choice index from 0.
#[derive(Clone, Copy)]
pub enum ParamValue {
    Float(f64),
    Int(i64),
    Categorical(u64),
}

// A discovered dimension keeps its distribution inside it.
#[derive(Clone, Copy)]
pub struct DimensionInfo {
    pub distribution: Distribution,
}

impl DimensionInfo {
    // No dimension: it has no choices.
    pub fn blank() -> Self
        ensures { result ≡ blank_dim }
    {
        DimensionInfo {
            distribution: Distribution::Categorical(CategoricalDistribution { n_choices: 0 }),
        }
    }
}

// The place among all dimensions.
#[derive(Clone, Copy)]
pub struct DimIdx(pub usize);

// The place among the continuous dimensions: a vector has entries for these only.
#[derive(Clone, Copy)]
pub struct Ci(pub usize);

// The refusals, in the order of their numbers 0 to 10. No call gives 11: document 02 took it out (W8).
#[derive(Clone, Copy, PartialEq, Eq)]
pub enum Refusal {
    StateNotSound,
    MutationFactor,
    CrossoverRate,
    PopulationSize,
    Bounds,
    LogScale,
    Step,
    Choices,
    HistoryNan,
    Dimensions,
    ExtraTrials,
}

impl Refusal {
    // The number that callers know a refusal by: document 01's table, name by name.
    pub fn number(self) -> u64
        ensures { result ≡ refusal_number self }
    {
        match self {
            Refusal::StateNotSound => 0,
            Refusal::MutationFactor => 1,
            Refusal::CrossoverRate => 2,
            Refusal::PopulationSize => 3,
            Refusal::Bounds => 4,
            Refusal::LogScale => 5,
            Refusal::Step => 6,
            Refusal::Choices => 7,
            Refusal::HistoryNan => 8,
            Refusal::Dimensions => 9,
            Refusal::ExtraTrials => 10,
        }
    }
}

impl Distribution {
    // Float and Int are continuous.
    pub fn is_continuous(self) -> bool
        ensures { result ≡ continuous self }
    {
        !matches!(self, Distribution::Categorical(_))
    }

    // An Int with the log flag: where `validate` passes it, a ladder.
    pub fn is_ladder(self) -> bool
        ensures { result ≡ is_ladder self }
    {
        matches!(self, Distribution::Int(i) if i.log_scale)
    }

    // The number of choices; 0 where there are none.
    pub fn choices(self) -> u64
        ensures { result ≡ choices self }
    {
        match self {
            Distribution::Float(_) | Distribution::Int(_) => 0,
            Distribution::Categorical(c) => c.n_choices,
        }
    }
}
