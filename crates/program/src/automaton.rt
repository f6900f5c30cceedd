// The automaton of a program: states 0 to its number of names, at most 16, and a mask of target states for each state and action.
ghost use Rattle.std.specs.Prelude.{◌≡◌, ℕ, ◌/◌, ◌%◌, ◌^◌, ◌<◌, ◌≤◌, ◌&&◌, ◌↔◌, ◌==◌, map, bit_and, nat_lt, slice_index};
ghost use Rattle.program.specs.Laws.{AcceptsItsWords, AcceptsByParts, NullableIsEmpty};
ghost use Rattle.program.specs.Masks.{Bit, cell};
ghost use Rattle.program.specs.Rows.{RowOf};
ghost use Rattle.program.specs.Tables.{AutomatonOf, AcceptsWordsOf};
ghost use Rattle.program.specs.Words.{Program};

use crate::masks;
use crate::row::Row;

// Kept: arrays and no `Vec`, since an automaton lies in fixed memory and is passed by value.
#[derive(Clone, Copy)]
pub struct Automaton {
    states: usize,
    next: [[u16; 16]; 16],
    finals: u16,
    ghost few: { states ≤ 16 },
    ghost ends: { finals < 2 ^ states },
    ghost steps: { (i k : ℕ) → i < 16 → k < 16 → cell next i k < 2 ^ states },
}

// The names of each action.
fn named(row: &Row) -> [u16; 16]
    ensures { (a n : ℕ) → a < 16 → n < 16 → Bit (slice_index result a) n ↔ ((1 ≤ n) × (slice_index row.now.actions n ≡ a)) }
{
    let mut named = [0; 16];
    for (i, action) in row.actions.iter().enumerate() {
        let action = usize::from(*action);
        if i >= 1 && action < 16 {
            named[action] |= 1 << i;
        }
    }
    named
}

// Where each action leads, from a state that the names of `follow` follow.
fn targets_by(follow: u16, named: &[u16; 16], all: u16) -> [u16; 16]
    ensures { result ≡ map (λ names. bit_and (bit_and follow names) all) named.now }
{
    // Kept: a loop and no `map` of the array, which hands each entry through an iterator: it took some 20 times the time.
    let mut row = [0; 16];
    for (k, names) in named.iter().enumerate() {
        row[k] = follow & *names & all;
    }
    row
}

impl Automaton {
    // The automaton of the program that the row is of.
    pub fn new(row: &Row) -> Automaton
        ensures made { (p : Program) → RowOf p row.now → AutomatonOf p result.states result.next result.finals }
        ensures words { (p : Program) → RowOf p row.now → AcceptsWordsOf p result.next result.finals }
        ensures laws { (AcceptsItsWords) × ((AcceptsByParts) × (NullableIsEmpty)) }
    {
        let states = row.states();
        let all = masks::lowest(states);
        let named = named(row);
        let mut next = [[0; 16]; 16];
        for (i, follow) in row.follow.iter().enumerate() {
            next[i] = targets_by(*follow, &named, all);
        }
        next[0] = targets_by(row.first, &named, all);
        let start = u16::from(row.nullable);
        Automaton {
            states,
            next,
            finals: (row.last | start) & all,
        }
    }

    pub fn states(&self) -> usize
        ensures is { result ≡ self.now.states }
        ensures few { result ≤ 16 }
    {
        self.states
    }

    // The states that an action leads to.
    pub fn targets(&self, state: usize, action: usize) -> u16
        ensures is { state < 16 → action < 16 → result ≡ cell self.now.next state action }
        ensures none { ((16 ≤ state → result ≡ 0)) × ((16 ≤ action → result ≡ 0)) }
        ensures within { result < 2 ^ self.now.states }
    {
        if state < 16 && action < 16 {
            self.next[state][action]
        } else {
            0
        }
    }

    // The final states.
    pub fn finals(&self) -> u16
        ensures is { result ≡ self.now.finals }
        ensures within { result < 2 ^ self.now.states }
    {
        self.finals
    }

    // Whether a state is final.
    pub fn is_final(&self, state: usize) -> bool
        ensures { result ≡ (nat_lt state 16 && self.now.finals / 2 ^ state % 2 == 1) }
    {
        state < 16 && masks::has(u64::from(self.finals), state)
    }
}
