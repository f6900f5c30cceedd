// Claims of a node, and their numbers. A form that is no until has two numbers, T and F; an until with m states has six
// runs of m: T until with label 0 and 1, F until, T step with label 0 and 1, F step.
ghost use Rattle.std.specs.Prelude.{◌≡◌, ℕ, ◌+◌, ◌-◌, ◌*◌, ◌<◌, ◌≤◌, true, length, if◌then◌else◌, MatchOption, ◌≢◌};
ghost use Rattle.document.specs.Documents.{Document as Meaning, form_at, weight_of};
ghost use Rattle.tableau.specs.Graphs.{Sign, Sign.T, Sign.F, Claim as Claimed, form};
ghost use Rattle.tableau.specs.Meant.{meant};
ghost use Rattle.tableau.specs.Numbers.{Shows, StateOf, ClaimOf, ClaimAt, number_of, speaks_of, place_in, is_until, states};

use document::declared::Declared;
use document::form::Form;

// Kept: labels, here and in `TrueStep`, and the phases of `Rules` and `Node` are the numbers 0 and 1, since the definitions of
// the graph compute with them: a phase p turns to 1 - p. A sign is a bool, which `!` turns.
#[derive(Clone, Copy, PartialEq, Eq, Debug)]
pub enum Claim {
    // The form is true, or false; it is no until.
    True(u8),
    False(u8),
    // The until of a form, from a state of its automaton; a true one bears a label.
    TrueUntil(u8, u8, u8),
    FalseUntil(u8, u8),
    // The same after one more step.
    TrueStep(u8, u8, u8),
    FalseStep(u8, u8),
}

// How many states the automaton of a form has: 1 for a form that is no until.
pub fn states_of(declared: &Declared, e: u8) -> u16
    ensures few { (1 ≤ result) × (result ≤ 16) }
    ensures is { (d : Meaning) → Shows declared.now d → e < length d.forms → is_until (form_at d e) ≡ true → result ≡ states d e }
{
    match declared.form(e as usize) {
        Form::Until(_, p, _) => declared.row(p).states() as u16,
        _ => 1,
    }
}

// That a form, which is no until, is true or false.
pub fn signed(e: u8, sign: bool) -> Claim
    ensures { meant result ≡ form (if sign then T else F) e }
{
    if sign {
        Claim::True(e)
    } else {
        Claim::False(e)
    }
}

// The form that a claim speaks of.
fn speaks_of(claim: Claim) -> u8
    ensures { result ≡ speaks_of (meant claim) }
{
    match claim {
        Claim::True(e)
        | Claim::False(e)
        | Claim::TrueUntil(e, _, _)
        | Claim::FalseUntil(e, _)
        | Claim::TrueStep(e, _, _)
        | Claim::FalseStep(e, _) => e,
    }
}

// The place of state q in run number `run` of an until.
fn in_run(declared: &Declared, e: u8, run: u16, q: u8) -> u16
    requires { run < 6 }
    ensures bound { result < 351 }
    ensures is { (d : Meaning) → Shows declared.now d → StateOf d e q → result ≡ run * states d e + q }
{
    run * states_of(declared, e) + q as u16
}

// The place of a claim among those of its form.
fn place_in(declared: &Declared, claim: Claim) -> u16
    ensures bound { result < 351 }
    ensures is { (d : Meaning) → Shows declared.now d → ClaimOf d (meant claim) → result ≡ place_in d (meant claim) }
{
    match claim {
        Claim::True(_) => 0,
        Claim::False(_) => 1,
        Claim::TrueUntil(e, q, label) => in_run(declared, e, if label == 0 { 0 } else { 1 }, q),
        Claim::FalseUntil(e, q) => in_run(declared, e, 2, q),
        Claim::TrueStep(e, q, label) => in_run(declared, e, if label == 0 { 3 } else { 4 }, q),
        Claim::FalseStep(e, q) => in_run(declared, e, 5, q),
    }
}

// The number of a claim of the document. The remainders by 256 are the claim's own number and base; they keep what any other
// claim gives within the types.
pub fn number(declared: &Declared, claim: Claim) -> u8
    ensures { (d : Meaning) → Shows declared.now d → ClaimOf d (meant claim) → result ≡ number_of d (meant claim) }
{
    let base = declared.base(speaks_of(claim) as usize) % 256;
    ((base + place_in(declared, claim)) % 256) as u8
}

// The claim of an until's number, counted from its first. The remainder by 16 changes no state of a document's until; it keeps
// any other within the type.
fn until_claim(e: u8, place: u16, count: u16) -> Claim
    requires { 1 ≤ count }
    ensures { (d : Meaning) → StateOf d e 0 → count ≡ states d e → count ≤ 16 → place < 6 * count → ClaimAt d e place (meant result) }
{
    let q = (place % count % 16) as u8;
    match place / count {
        0 => Claim::TrueUntil(e, q, 0),
        1 => Claim::TrueUntil(e, q, 1),
        2 => Claim::FalseUntil(e, q),
        3 => Claim::TrueStep(e, q, 0),
        4 => Claim::TrueStep(e, q, 1),
        _ => Claim::FalseStep(e, q),
    }
}

// The claim of a number counted from a form's first.
fn claim_in(declared: &Declared, e: u8, place: u16) -> Claim
    ensures { (d : Meaning) → Shows declared.now d → e < length d.forms → place < weight_of d.progs (form_at d e) → ClaimAt d e place (meant result) }
{
    match declared.form(e as usize) {
        Form::Until(_, p, _) => until_claim(e, place, declared.row(p).states() as u16),
        _ => signed(e, place == 0),
    }
}

// The claim of a number, if it is one of the document's.
pub fn claim_of(declared: &Declared, c: u8) -> Option<Claim>
    ensures { (d : Meaning) → Shows declared.now d → MatchOption result ((k : Claimed) → ClaimOf d k → number_of d k ≢ c) (λ m. ClaimOf d (meant m) × (number_of d (meant m) ≡ c)) }
{
    for e in 0..declared.forms().count() {
        let base = declared.base(e);
        let form = declared.form(e);
        let number = c as u16;
        if base <= number && number - base < declared.weight_of(form) {
            return Some(claim_in(declared, e as u8, number - base));
        }
    }
    None
}
