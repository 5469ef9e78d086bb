// A candidate's and a parent's words, and each from its words. The bound on the dimensions is asked at each function: they are a slice
// lent of a state, and a type with the bound would be made at each call.
ghost use Rattle.std.specs.Prelude.{◌≡◌, ◌+◌, ◌<◌, ◌≤◌, ◌++◌, length};
ghost use Rattle.kinds.specs.Rows.{candidate_words, candidate_in, member_words, member_in};

use crate::section::Section;
use candidates::Candidate;
use distribution::DimensionInfo;
use evolution::Member;
use numbers::{bits_of, real};

// A word for each dimension in order: its entry where it is continuous, its choice where it is not. `ci` is the next entry's place: it goes
// on at a continuous dimension alone.
pub fn put_candidate(section: &mut Section, c: &Candidate, dims: &[DimensionInfo])
    requires { (length dims.now ≤ 16) × (length section.old + length dims.now ≤ 3600) }
    ensures { section.new ≡ section.old ++ candidate_words dims.now c.now }
{
    let mut ci: usize = 0;
    for (i, d) in dims.iter().enumerate() {
        if d.distribution.is_continuous() {
            section.push(bits_of(c.x[ci]));
            ci += 1;
        } else {
            section.push(u64::from(c.choices[i]));
        }
    }
}

// The value stands after the candidate's words.
pub fn put_member(section: &mut Section, m: &Member, dims: &[DimensionInfo])
    requires { (length dims.now ≤ 16) × (length section.old + length dims.now < 3600) }
    ensures { section.new ≡ section.old ++ member_words dims.now m.now }
{
    put_candidate(section, &m.candidate, dims);
    section.push(bits_of(m.value));
}

pub fn candidate_in(row: &[u64], dims: &[DimensionInfo]) -> Candidate
    requires { (length dims.now ≤ 16) × (length dims.now ≤ length row.now) }
    ensures { result ≡ candidate_in dims.now row.now }
{
    let mut x = [0.0; 16];
    let mut choices = [0; 16];
    let mut ci: usize = 0;
    for (i, d) in dims.iter().enumerate() {
        if d.distribution.is_continuous() {
            x[ci] = real(row[i]);
            ci += 1;
        } else {
            choices[i] = (row[i] % 65536) as u16;
        }
    }
    Candidate { x, choices }
}

pub fn member_in(row: &[u64], dims: &[DimensionInfo]) -> Member
    requires { (length dims.now ≤ 16) × (length dims.now < length row.now) }
    ensures { result ≡ member_in dims.now row.now }
{
    Member {
        candidate: candidate_in(row, dims),
        value: real(row[dims.len()]),
    }
}
