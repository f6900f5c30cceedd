// A set of claims beside what is declared, which gives the claims their numbers: what the set tells of a node that is made of
// it, and which claims clash with it.
ghost use Rattle.std.specs.Prelude.{◌≡◌, ℕ, ◌<◌, true, ◌||◌, ◌↔◌, length, if◌then◌else◌, Decides};
ghost use Rattle.program.specs.Masks.{Bit};
ghost use Rattle.document.specs.Documents.{Document as Meaning, form_at};
ghost use Rattle.document.specs.declared.form.Form.TheVariants.{Prop};
ghost use Rattle.tableau.specs.Calculus.{ClashesWith};
ghost use Rattle.tableau.specs.Claims.{member};
ghost use Rattle.tableau.specs.Graphs.{Sign, Sign.T, Sign.F, form, until_true};
ghost use Rattle.tableau.specs.Meant.{meant};
ghost use Rattle.tableau.specs.Numbers.{Shows, ClaimOf, number_of, is_until};
ghost use Rattle.tableau.specs.Successions.{Claims, Allowed, Promises, Tells};

use crate::claim::{Claim, number, signed, states_of};
use crate::claims::ClaimSet;
use document::declared::Declared;
use document::form::Form;

#[derive(Clone, Copy)]
pub struct Told<'a> {
    pub declared: &'a Declared,
    pub set: ClaimSet,
}

impl<'a> Told<'a> {
    // Whether the set has the claim.
    pub fn has(self, claim: Claim) -> bool
        ensures { (d : Meaning) → Shows self.entry.declared.now d → ClaimOf d (meant claim) → result ≡ member self.entry.set.words (number_of d (meant claim)) }
    {
        self.set.contains(number(self.declared, claim))
    }

    // Whether the set has the claim that the form, which is no until, is true, or that it is false.
    pub fn has_form(self, e: u8, sign: bool) -> bool
        ensures { (d : Meaning) → Shows self.entry.declared.now d → ClaimOf d (form (if sign then T else F) e) → result ≡ member self.entry.set.words (number_of d (form (if sign then T else F) e)) }
    {
        self.has(signed(e, sign))
    }

    // The actions with which the set has no clash: that of each claim T next.
    pub fn allowed_actions(self) -> u16
        ensures { (d : Meaning) → Shows self.entry.declared.now d → (a : ℕ) → a < 16 → Bit result a ↔ Allowed d (member self.entry.set.words) a }
    {
        let mut allowed = 0xffff;
        for e in 0..self.declared.forms().count() {
            if let Form::Next(b, _f) = self.declared.form(e) {
                if self.has_form(e as u8, true) {
                    allowed &= 1 << b;
                }
            }
        }
        allowed
    }

    // The propositions that the set claims true, or those that it claims false.
    pub fn claimed_props(self, sign: bool) -> u16
        ensures { (d : Meaning) → Shows self.entry.declared.now d → Tells d (member self.entry.set.words) (if sign then T else F) result }
    {
        let mut props = 0;
        for e in 0..self.declared.forms().count() {
            if let Form::Prop(p) = self.declared.form(e) {
                if self.has_form(e as u8, sign) {
                    props |= 1 << p;
                }
            }
        }
        props
    }

    // Whether the set has a T until of the form with this label.
    fn promises_in(self, e: u8, label: u8) -> bool
        ensures { (d : Meaning) → Shows self.entry.declared.now d → e < length d.forms → is_until (form_at d e) ≡ true → label < 2 → Decides result ((q : ℕ) × Claims d (member self.entry.set.words) (until_true e q label)) }
    {
        for q in 0..states_of(self.declared, e) {
            if self.has(Claim::TrueUntil(e, q as u8, label)) {
                return true;
            }
        }
        false
    }

    // Whether the set has a T until with this label.
    pub fn promises(self, label: u8) -> bool
        ensures { (d : Meaning) → Shows self.entry.declared.now d → label < 2 → Decides result (Promises d (member self.entry.set.words) label) }
    {
        for e in 0..self.declared.forms().count() {
            if let Form::Until(_, _, _) = self.declared.form(e) {
                if self.promises_in(e as u8, label) {
                    return true;
                }
            }
        }
        false
    }

    // Whether the set claims that proposition p is true, or that it is false.
    fn claims_prop(self, p: u8, sign: bool) -> bool
        ensures { (d : Meaning) → Shows self.entry.declared.now d → Decides result ((h : ℕ) × Claims d (member self.entry.set.words) (form (if sign then T else F) h) × (form_at d h ≡ Prop p)) }
    {
        for e in 0..self.declared.forms().count() {
            if let Form::Prop(other) = self.declared.form(e) {
                if other == p && self.has_form(e as u8, sign) {
                    return true;
                }
            }
        }
        false
    }

    fn clashes_form(self, e: u8, sign: bool) -> bool
        ensures { (d : Meaning) → Shows self.entry.declared.now d → ClaimOf d (form (if sign then T else F) e) → Decides result (ClashesWith d (member self.entry.set.words) (form (if sign then T else F) e)) }
    {
        if self.has_form(e, !sign) {
            return true;
        }
        match self.declared.form(e as usize) {
            Form::True => !sign,
            Form::Prop(p) => self.claims_prop(p, !sign),
            _ => false,
        }
    }

    // Whether the set has one of two claims.
    fn has_either(self, a: Claim, b: Claim) -> bool
        ensures { (d : Meaning) → Shows self.entry.declared.now d → ClaimOf d (meant a) → ClaimOf d (meant b) → result ≡ (member self.entry.set.words (number_of d (meant a)) || member self.entry.set.words (number_of d (meant b))) }
    {
        self.has(a) || self.has(b)
    }

    // Whether a claim clashes with one of the set or with itself.
    pub(crate) fn clashes_claim(self, claim: Claim) -> bool
        ensures { (d : Meaning) → Shows self.entry.declared.now d → ClaimOf d (meant claim) → Decides result (ClashesWith d (member self.entry.set.words) (meant claim)) }
    {
        match claim {
            Claim::True(e) => self.clashes_form(e, true),
            Claim::False(e) => self.clashes_form(e, false),
            Claim::TrueUntil(e, q, _) => self.has(Claim::FalseUntil(e, q)),
            Claim::FalseUntil(e, q) => {
                self.has_either(Claim::TrueUntil(e, q, 0), Claim::TrueUntil(e, q, 1))
            }
            Claim::TrueStep(e, q, _) => self.has(Claim::FalseStep(e, q)),
            Claim::FalseStep(e, q) => {
                self.has_either(Claim::TrueStep(e, q, 0), Claim::TrueStep(e, q, 1))
            }
        }
    }
}
