// Sets of claims: a bit for each of the 256.
ghost use Rattle.std.specs.Prelude.{◌≡◌, ℕ, true, false, ◌||◌, MatchBool, ◌==◌};
ghost use Rattle.tableau.specs.Claims.{member, Same};

use program::masks;

#[derive(Clone, Copy, Default, Debug)]
pub struct ClaimSet {
    words: [u64; 4],
}

impl ClaimSet {
    pub fn empty() -> ClaimSet
        ensures { (x : ℕ) → member result.words x ≡ false }
    {
        ClaimSet::default()
    }

    pub fn contains(&self, c: u8) -> bool
        ensures { result ≡ member self.now.words c }
    {
        masks::has(self.words[(c / 64) as usize], (c % 64) as usize)
    }

    pub fn with(self, c: u8) -> ClaimSet
        ensures { (x : ℕ) → member result.words x ≡ (member self.words x || c == x) }
    {
        let mut words = self.words;
        words[(c / 64) as usize] |= 1 << (c % 64);
        ClaimSet { words }
    }

    // Whether the two have the same claims.
    // Kept: a loop over the words. That sets with different words differ rests on each word being below 2^64. The loop reads
    // each word and so knows it; what a `==` says (derived, or of the arrays: tried) leaves it open.
    pub fn same(&self, other: &ClaimSet) -> bool
        ensures { MatchBool result (Same (member self.now.words) (member other.now.words)) (Same (member self.now.words) (member other.now.words) → ⊥) }
    {
        for (k, word) in self.words.iter().enumerate() {
            if *word != other.words[k] {
                return false;
            }
        }
        true
    }
}
