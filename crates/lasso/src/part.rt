// The two parts of a lasso, as its text names them.
ghost use Rattle.std.specs.Prelude.{◌≡◌, cond, codes, nat_lt, MatchResult, ◌≢◌};
ghost use Rattle.document.specs.declared.fault.LineFault.TheVariants.{Shape};

use document::fault::LineFault;

#[derive(Clone, Copy, PartialEq, Eq, Debug)]
pub(crate) enum Part {
    Stem,
    Loop,
}

impl Part {
    ghost use Rattle.lasso.specs.Parts.{is_stem};

    // The part that step i belongs to.
    pub(crate) fn at(i: usize, stem: usize) -> Part
        ensures { is_stem result ≡ nat_lt i stem }
    {
        if i < stem { Part::Stem } else { Part::Loop }
    }
}

impl TryFrom<&[u8]> for Part {
    ghost use Rattle.lasso.specs.Parts.{is_stem};

    type Error = LineFault;

    ghost try_from_gives = { λ w r. MatchResult r (λ p. w.now ≡ cond (is_stem p) (codes "stem") (codes "loop")) (λ f. (f ≡ Shape) × (w.now ≢ codes "stem") × (w.now ≢ codes "loop")) };

    fn try_from(word: &[u8]) -> Result<Part, LineFault> {
        match word {
            b"stem" => Ok(Part::Stem),
            b"loop" => Ok(Part::Loop),
            _ => Err(LineFault::Shape),
        }
    }
}
