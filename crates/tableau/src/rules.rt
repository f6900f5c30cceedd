// What claims give, and which of them clash.
ghost use Rattle.std.specs.Prelude.{◌≡◌, ℕ, ◌-◌, ◌<◌, length, if◌then◌else◌, Decides};
ghost use Rattle.document.specs.Documents.{Document as Meaning, form_at, program_at};
ghost use Rattle.program.specs.Automata.{Final};
ghost use Rattle.tableau.specs.Calculus.{calculus, Joined, Offers, Offered, Either, Clashing};
ghost use Rattle.tableau.specs.Claims.{member};
ghost use Rattle.tableau.specs.Graphs.{Sign.T, Sign.F, says, Gives, GivesForm, GivesUntil, GivesNotUntil};
ghost use Rattle.tableau.specs.Meant.{meant};
ghost use Rattle.tableau.specs.Numbers.{Shows, StateOf, ClaimOf, number_of};
ghost use Rattle.tableau.specs.Offers.{Small};

use crate::claim::{Claim, claim_of, number, signed};
use crate::claims::ClaimSet;
use crate::told::Told;
use document::declared::Declared;
use document::form::Form;
use program::automaton::Automaton;

// One claim or two.
#[derive(Clone, Copy, PartialEq, Eq, Debug)]
pub enum Few {
    Single(u8),
    Pair(u8, u8),
}

// What a claim gives: nothing, the same by both alternatives, or one of two.
#[derive(Clone, Copy, PartialEq, Eq, Debug)]
pub enum Alternatives {
    Nothing,
    One(Few),
    Two(Few, Few),
}

impl Alternatives {
    // One claim or another; where they are the same claim there is no choice.
    fn either(a: u8, b: u8) -> Alternatives
        ensures { Either a b result }
    {
        if a == b {
            Alternatives::One(Few::Single(a))
        } else {
            Alternatives::Two(Few::Single(a), Few::Single(b))
        }
    }
}

// The other of the labels, or phases, 0 and 1.
pub fn turned(phase: u8) -> u8
    ensures { result ≡ 1 - phase }
{
    1_u8.saturating_sub(phase)
}

// The rules for a node that is being formed, of this phase.
#[derive(Clone, Copy)]
pub struct Rules<'a> {
    pub declared: &'a Declared,
    pub phase: u8,
}

impl<'a> Rules<'a> {
    // A set of claims beside what is declared.
    pub(crate) fn told(self, set: ClaimSet) -> Told<'a>
        ensures { result ≡ record { declared = self.entry.declared; set = set } }
    {
        Told {
            declared: self.declared,
            set,
        }
    }

    // That a form is true, or that it is false. A fresh true until bears the label that its phase turns to.
    pub fn says(self, sign: bool, e: u8) -> u8
        ensures { (d : Meaning) → Shows self.entry.declared.now d → e < length d.forms → result ≡ number_of d (says d self.entry.phase (if sign then T else F) e) }
    {
        match (self.declared.form(e as usize), sign) {
            (Form::Until(_, _, _), true) => {
                number(self.declared, Claim::TrueUntil(e, 0, turned(self.phase)))
            }
            (Form::Until(_, _, _), false) => number(self.declared, Claim::FalseUntil(e, 0)),
            _ => number(self.declared, signed(e, sign)),
        }
    }

    // That a form is true.
    pub fn true_form(self, e: u8) -> u8
        ensures { (d : Meaning) → Shows self.entry.declared.now d → e < length d.forms → result ≡ number_of d (says d self.entry.phase T e) }
    {
        self.says(true, e)
    }

    // That a form is false.
    pub fn false_form(self, e: u8) -> u8
        ensures { (d : Meaning) → Shows self.entry.declared.now d → e < length d.forms → result ≡ number_of d (says d self.entry.phase F e) }
    {
        self.says(false, e)
    }

    // Of two forms, both or one of them.
    fn joined(self, sign: bool, all: bool, f: u8, g: u8) -> Alternatives
        ensures { (d : Meaning) → Shows self.entry.declared.now d → f < length d.forms → g < length d.forms → Offered d (Joined d self.entry.phase (if sign then T else F) all f g) result }
    {
        let first = self.says(sign, f);
        let second = self.says(sign, g);
        if all {
            Alternatives::One(Few::Pair(first, second))
        } else {
            Alternatives::either(first, second)
        }
    }

    fn of_form(self, sign: bool, e: u8) -> Alternatives
        ensures { (d : Meaning) → Shows self.entry.declared.now d → e < length d.forms → Offered d (λ b. GivesForm d self.entry.phase b (if sign then T else F) (form_at d e)) result }
    {
        match self.declared.form(e as usize) {
            Form::Not(f) => Alternatives::One(Few::Single(self.says(!sign, f))),
            Form::And(f, g) => self.joined(sign, sign, f, g),
            Form::Or(f, g) => self.joined(sign, !sign, f, g),
            _ => Alternatives::Nothing,
        }
    }

    // Whether a state of a program's automaton is final.
    fn is_final(self, p: u8, q: u8) -> bool
        requires { p < 16 }
        ensures { (d : Meaning) → Shows self.entry.declared.now d → p < length d.progs → q < 16 → Decides result (Final (program_at d p) q) }
    {
        Automaton::new(&self.declared.row(p)).is_final(q as usize)
    }

    // T until gives T g, where the state is final, or T f and the step.
    fn of_true_until(self, e: u8, q: u8, label: u8) -> Alternatives
        ensures { (d : Meaning) → Shows self.entry.declared.now d → StateOf d e q → label < 2 → Offered d (λ b. GivesUntil d self.entry.phase b e q label (form_at d e)) result }
    {
        let Form::Until(f, p, g) = self.declared.form(e as usize) else {
            return Alternatives::Nothing;
        };
        let step = number(self.declared, Claim::TrueStep(e, q, label));
        let later = Few::Pair(self.true_form(f), step);
        if self.is_final(p, q) {
            Alternatives::Two(Few::Single(self.true_form(g)), later)
        } else {
            Alternatives::One(later)
        }
    }

    // F until gives F f or the step, and besides F g where the state is final.
    fn of_false_until(self, e: u8, q: u8) -> Alternatives
        ensures { (d : Meaning) → Shows self.entry.declared.now d → StateOf d e q → Offered d (λ b. GivesNotUntil d self.entry.phase b e q (form_at d e)) result }
    {
        let Form::Until(f, p, g) = self.declared.form(e as usize) else {
            return Alternatives::Nothing;
        };
        let not_f = self.false_form(f);
        let step = number(self.declared, Claim::FalseStep(e, q));
        if self.is_final(p, q) {
            let not_g = self.false_form(g);
            Alternatives::Two(Few::Pair(not_f, not_g), Few::Pair(step, not_g))
        } else {
            Alternatives::Two(Few::Single(not_f), Few::Single(step))
        }
    }

    // What a claim gives, by its alternatives.
    fn of_claim(self, claim: Claim) -> Alternatives
        ensures { (d : Meaning) → Shows self.entry.declared.now d → ClaimOf d (meant claim) → Offered d (λ b. Gives d self.entry.phase b (meant claim)) result }
    {
        match claim {
            Claim::True(e) => self.of_form(true, e),
            Claim::False(e) => self.of_form(false, e),
            Claim::TrueUntil(e, q, label) => self.of_true_until(e, q, label),
            Claim::FalseUntil(e, q) => self.of_false_until(e, q),
            Claim::TrueStep(_, _, _) | Claim::FalseStep(_, _) => Alternatives::Nothing,
        }
    }

    // The alternatives of a number: nothing where it is no claim's.
    pub fn alternatives(self, c: u8) -> Alternatives
        ensures small { Small result }
        ensures offers { (d : Meaning) → Shows self.entry.declared.now d → Offers (calculus d self.entry.phase) c result }
    {
        // Kept: a `match` and no `map_or`: only a clause that is an equation comes through a closure by itself, and this
        // closure would have to repeat the clause of `of_claim`.
        match claim_of(self.declared, c) {
            Some(claim) => self.of_claim(claim),
            None => Alternatives::Nothing,
        }
    }

    // Whether the claim of a number clashes with one of the set or with itself.
    pub fn clashes(self, set: ClaimSet, c: u8) -> bool
        ensures { (d : Meaning) → Shows self.entry.declared.now d → Decides result (Clashing (calculus d self.entry.phase) (member set.words) c) }
    {
        // Kept: a `match` as in `alternatives`: a closure would have to repeat the clause of `clashes_claim`.
        match claim_of(self.declared, c) {
            Some(claim) => self.told(set).clashes_claim(claim),
            None => false,
        }
    }
}
