// The entries of a text, one after another: public beside `judge`, for a caller that keeps entries in a form of its own.
use crate::line::next_line;
use history::CompletedTrial;

// What is left of a text: its entries come up to its end, or to its first malformed line.
#[derive(Drop)]
pub struct Entries<'a>(pub &'a [u8]);

impl<'a> Iterator for Entries<'a> {
    ghost use Rattle.std.specs.Iterator.{YieldsFirst, item_count};
    ghost use Rattle.metrics.specs.Steps.{entries_of};

    type Item = CompletedTrial;

    ghost next_gives = { YieldsFirst (λ s. entries_of s.0.now) };

    ghost remaining = { item_count (λ s. entries_of s.0.now) };

    #[tactic(auto, using(crate::proofs::Lines::yielded))]
    fn next(&mut self) -> Option<CompletedTrial> {
        let (entry, rest) = next_line(self.0)?;
        self.0 = rest;
        Some(entry)
    }
}
