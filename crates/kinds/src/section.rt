// The words of a kind: a list with room for 3,600 of them.
use filled::padded::Padded;

pub type Section = Padded<u64, 3600>;
