// The states of an until's automaton from which the rest of it is true, at each step of a lasso: a least fixed point.
ghost use Rattle.std.specs.Prelude.{◌≡◌, ℕ, ◌+◌, ◌*◌, ◌<◌, ◌↔◌, length, slice_index};
ghost use Rattle.program.specs.Masks.{Bit};
ghost use Rattle.lasso.specs.Rounds.{next_place, LeadsBy, Enters, Reaches, Rounded};

use crate::lasso::Lasso;
use program::automaton::Automaton;
use program::masks;

// The step after step i, of `len` steps.
// Kept: the method of `Lasso` calls it; by a rule of the project no public promise goes.
pub fn after(i: usize, len: usize, stem: usize) -> usize
    requires { (i < len) × (stem < len) }
    ensures is { result ≡ next_place len stem i }
    ensures inside { result < len }
{
    if i + 1 < len { i + 1 } else { stem }
}

// Makes each word 0.
// Kept: one call of std's `fill`; by a rule of the project no public promise goes.
pub fn clear(words: &mut [u64])
    ensures { (k : ℕ) → k < length words.old → slice_index words.new k ≡ 0 }
{
    words.fill(0);
}

// The states that lead by the action to a state of `next`.
fn leading(automaton: &Automaton, action: u8, next: u64) -> u16
    ensures { (q : ℕ) → Bit result q ↔ ((n : ℕ) × LeadsBy automaton.now q action n × Bit next n) }
{
    let mut states = 0;
    for q in 0..automaton.states() {
        if automaton.targets(q, action as usize) as u64 & next != 0 {
            states |= 1 << q;
        }
    }
    states
}

// The states that a step enters: final ones where g is true, and, where f is true, those that lead by the action to a
// state of the step after.
fn entered(automaton: &Automaton, action: u8, f: bool, g: bool, next: u64) -> u16
    ensures { (q : ℕ) → Bit result q ↔ Enters automaton.now action f g next q }
{
    let ending = if g { automaton.finals() } else { 0 };
    let going = if f {
        leading(automaton, action, next)
    } else {
        0
    };
    ending | going
}

// The two operands of an until.
#[derive(Clone, Copy, PartialEq, Eq, Debug)]
pub struct Operands {
    pub f: usize,
    pub g: usize,
}

// One round: each step's states anew from those of the step after, from the last step back.
// Kept: truths and states are lent apart, each with its length; a struct of both would have every method say that it
// keeps the lasso and the words that it only reads.
fn round(
    automaton: &Automaton,
    operands: Operands,
    lasso: Lasso,
    truths: &[u64],
    states: &mut [u64],
)
    requires operands { (operands.f < 64) × (operands.g < 64) }
    requires truths { length truths.now ≡ length lasso.steps.now }
    requires states { length states.old ≡ length lasso.steps.now }
    ensures { Rounded automaton.now lasso.entry.steps.now lasso.entry.stem truths.now operands.f operands.g states.old 0 states.new }
{
    // Kept: a range. Tried: steps, truths and `states.iter_mut()` zipped and reversed, with the states of the step after
    // carried along; what such a loop has written is not known after it.
    for i in (0..lasso.steps.len()).rev() {
        let f = masks::has(truths[i], operands.f);
        let g = masks::has(truths[i], operands.g);
        let next = states[lasso.after(i)];
        states[i] = entered(automaton, lasso.steps[i].action, f, g, next) as u64;
    }
}

// Rounds until the loop's first step no longer changes: then no other step does. Each round but the last adds a state
// there.
pub fn fixed_point(
    automaton: &Automaton,
    operands: Operands,
    lasso: Lasso,
    truths: &[u64],
    states: &mut [u64],
)
    requires operands { (operands.f < 64) × (operands.g < 64) }
    requires truths { length truths.now ≡ length lasso.steps.now }
    requires states { length states.old ≡ length lasso.steps.now }
    ensures { (i q : ℕ) → i < length lasso.entry.steps.now → Bit (slice_index states.new i) q ↔ Reaches automaton.now lasso.entry.steps.now lasso.entry.stem truths.now operands.f operands.g i q }
{
    clear(states);
    loop {
        let before = states[lasso.stem];
        round(automaton, operands, lasso, truths, states);
        if states[lasso.stem] == before {
            return;
        }
    }
}
