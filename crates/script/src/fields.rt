// The words that are neither keywords nor numbers.
ghost use Rattle.std.specs.Prelude.{◌≡◌};
ghost use Rattle.script.specs.Fields.{rule_of, scale_of, state_of, strategy_of, OptionalBy};

use evolution::{BoundsRule, DEStrategy};
use history::TrialState;

// SCALE.
#[tactic(auto, unfolding(crate::specs::Fields::scale_of))]
pub fn scale(word: &[u8]) -> Option<bool>
    ensures { result ≡ scale_of word.now }
{
    match word {
        b"lin" => Some(false),
        b"log" => Some(true),
        _ => None,
    }
}

// STATE.
#[tactic(auto, unfolding(crate::specs::Fields::state_of))]
pub fn state(word: &[u8]) -> Option<TrialState>
    ensures { result ≡ state_of word.now }
{
    match word {
        b"complete" => Some(TrialState::Complete),
        b"pruned" => Some(TrialState::Pruned),
        b"failed" => Some(TrialState::Failed),
        _ => None,
    }
}

// STRATEGY.
#[tactic(auto, unfolding(crate::specs::Fields::strategy_of))]
pub fn strategy(word: &[u8]) -> Option<DEStrategy>
    ensures { result ≡ strategy_of word.now }
{
    match word {
        b"rand1" => Some(DEStrategy::Rand1),
        b"best1" => Some(DEStrategy::Best1),
        b"current-to-best1" => Some(DEStrategy::CurrentToBest1),
        _ => None,
    }
}

// RULE.
#[tactic(auto, unfolding(crate::specs::Fields::rule_of))]
pub fn bounds_rule(word: &[u8]) -> Option<BoundsRule>
    ensures { result ≡ rule_of word.now }
{
    match word {
        b"clamp" => Some(BoundsRule::Clamp),
        b"midpoint" => Some(BoundsRule::Midpoint),
        _ => None,
    }
}

// STEP and SIZE, which may be unset.
pub fn optional<T, F: FnOnce(&[u8]) -> Option<T>>(word: &[u8], read: F) -> Option<Option<T>>
    requires { F.IsAlwaysCallable read }
    ensures { OptionalBy (F.post read word.entry) word.now result }
{
    match word {
        b"-" => Some(None),
        _ => read(word).map(Some),
    }
}
