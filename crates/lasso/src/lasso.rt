// Lassos: the steps of a session that runs into a loop.
ghost use Rattle.std.specs.Prelude.{◌≡◌, ◌<◌, length, MatchOption};

use crate::step::Step;
use crate::until::after;
use crate::valid::is_lasso;
use document::document::Document;

// Steps, of which the last is followed by step `stem` again.
#[derive(Clone, Copy, PartialEq, Eq, Debug)]
pub struct Lasso<'a> {
    pub steps: &'a [Step],
    pub stem: usize,
    pub ghost inside: { stem < length steps.now },
}

impl<'a> Lasso<'a> {
    ghost use Rattle.lasso.specs.Lassos.{IsLasso};
    ghost use Rattle.lasso.specs.Rounds.{next_place};

    // The lasso of the document that the steps make with this stem, if they make one that calls take.
    pub fn of(document: &Document, steps: &'a [Step], stem: usize) -> Option<Lasso<'a>>
        ensures { MatchOption result (IsLasso document.now.declared.acts.count document.now.declared.props.count steps.now stem → ⊥) (λ l. (l.steps.now ≡ steps.now) × (l.stem ≡ stem) × IsLasso document.now.declared.acts.count document.now.declared.props.count steps.now stem) }
    {
        // Kept: an `if` and not `then`, whose closure does not know of the test that `inside` rests on.
        if is_lasso(document, steps, stem) {
            Some(Lasso { steps, stem })
        } else {
            None
        }
    }

    // The step after step i.
    pub fn after(self, i: usize) -> usize
        requires { i < length self.steps.now }
        ensures is { result ≡ next_place (length self.entry.steps.now) self.entry.stem i }
        ensures inside { result < length self.entry.steps.now }
    {
        after(i, self.steps.len(), self.stem)
    }
}
