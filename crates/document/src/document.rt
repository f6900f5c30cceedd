// A document that was taken: what it declares, and its goal.
ghost use Rattle.std.specs.Prelude.{◌≡◌, ℕ, ◌+◌, ◌<◌, ◌≤◌};

use crate::declared::Declared;

#[derive(Clone, Copy)]
pub struct Document {
    declared: Declared,
    goal: usize,
    ghost aimed: { goal < declared.forms.count },
    ghost active: { 0 < declared.acts.count },
}

impl Document {
    pub fn new(declared: Declared, goal: usize) -> Document
        requires aimed { goal < declared.forms.count }
        requires active { 0 < declared.acts.count }
        ensures declared { result.declared ≡ declared }
        ensures goal { result.goal ≡ goal }
    {
        Document { declared, goal }
    }

    pub fn declared(&self) -> Declared
        ensures { result ≡ self.now.declared }
    {
        self.declared
    }

    // The number of the goal's form.
    pub fn goal(&self) -> usize
        ensures is { result ≡ self.now.goal }
        ensures aimed { result < self.now.declared.forms.count }
    {
        self.goal
    }
}
