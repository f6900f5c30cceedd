// A system that is computed and not listed.
ghost use Rattle.std.specs.Prelude.{◌≡◌, ◌+◌, ◌<◌, ◌≤◌};
ghost use Rattle.bench.specs.Wheel.{size, next_group as next_of, wheel, wheel_lawful};

use system::system::{Move, System};

// Groups of four states, at most 1,024. From each state action 0 leads to the four of the next group, and from the last
// group to the first.
#[derive(Clone, Copy)]
pub struct Wheel {
    pub groups: usize,
}

// How many states so many groups have.
fn states(groups: usize) -> usize
    ensures { (result ≡ size groups) × (result ≤ 4096) }
{
    if groups <= 1024 { 4 * groups } else { 0 }
}

// The first state of the group after that of a state.
fn next_group(groups: usize, state: usize) -> usize
    requires { state < 4096 }
    ensures { (result ≡ next_of groups state) × (result ≤ 4096) }
{
    if state / 4 + 1 < groups {
        4 * (state / 4 + 1)
    } else {
        0
    }
}

impl System for Wheel {
    ghost meaning = { λ s. wheel s.groups };

    ghost lawful = { λ s. wheel_lawful s.groups };

    fn count(&self) -> usize {
        states(self.groups)
    }

    fn actions(&self) -> u16 {
        1
    }

    fn starts(&self, state: usize) -> bool {
        state < states(self.groups)
    }

    fn marks(&self, _state: usize) -> u16 {
        0
    }

    fn moves(&self, state: usize) -> usize {
        if state < states(self.groups) { 4 } else { 0 }
    }

    fn move_at(&self, state: usize, k: usize) -> Option<Move> {
        if state >= states(self.groups) || k >= 4 {
            return None;
        }
        Some(Move {
            action: 0,
            target: next_group(self.groups, state) + k,
        })
    }
}
