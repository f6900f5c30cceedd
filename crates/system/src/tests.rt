// Examples: small systems of each kind, and a kind of a user's own.
ghost use Rattle.std.specs.Prelude.{◌≡◌, length};
ghost use Rattle.system.specs.Counter.{counter, counter_lawful};
ghost use Rattle.system.specs.Joint.{joint};

use crate::joint::Joint;
use crate::listed::{Listed, Row, StateRecord};
use crate::system::{Move, System};
use std::process::Abort;
use std::test::Fail;

// A kind of a user's own: it counts round by action 0.
#[derive(Clone, Copy)]
struct Counter {
    size: usize,
}

impl System for Counter {
    ghost meaning = { λ s. counter s.size };

    ghost lawful = { λ s. counter_lawful s.size };

    fn count(&self) -> usize {
        if self.size <= 4096 { self.size } else { 0 }
    }

    fn actions(&self) -> u16 {
        1
    }

    fn starts(&self, state: usize) -> bool {
        state < self.count() && state == 0
    }

    fn marks(&self, _state: usize) -> u16 {
        0
    }

    fn moves(&self, state: usize) -> usize {
        if state < self.count() { 1 } else { 0 }
    }

    fn move_at(&self, state: usize, k: usize) -> Option<Move> {
        // Kept: an `if` and no `then`: the division comes after the test, which a closure does not know.
        if state < self.count() && k == 0 {
            Some(Move {
                action: 0,
                target: (state + 1) % self.count(),
            })
        } else {
            None
        }
    }
}

const BLANK: StateRecord = StateRecord {
    starts: false,
    marks: 0,
};

// The moves of a state are these, in this order.
fn goes<S: System>(rt: &impl Abort, s: S, state: usize, moves: &[(u8, usize)]) -> Result<(), Fail> {
    assert_eq!(rt; s.moves(state), moves.len());
    for (k, (action, target)) in moves.iter().enumerate() {
        let expected = Move {
            action: *action,
            target: *target,
        };
        assert_eq!(rt; s.move_at(state, k), Some(expected));
    }
    assert!(rt; s.move_at(state, moves.len()).is_none());
    Ok(())
}

// At three systems of any kinds.
fn three_high<A: System, B: System, C: System>(a: A, b: B, c: C, state: usize) -> usize
    ensures { result ≡ length ((joint (joint (A.System.meaning a) (B.System.meaning b)) (C.System.meaning c)).moves state) }
{
    Joint::new(Joint::new(a, b), c).moves(state)
}

// State 1 of the left and state 2 of three of the right are state 5.
#[test]
fn joint_states(rt: HostRuntime) {
    let lefts = [
        BLANK,
        StateRecord {
            starts: true,
            marks: 2,
        },
    ];
    let rights = [
        BLANK,
        BLANK,
        StateRecord {
            starts: true,
            marks: 4,
        },
    ];
    let both = Joint::new(Listed::new(&[], &lefts, 0), Listed::new(&[], &rights, 0));
    assert_eq!(rt; both.count(), 6);
    assert!(rt; both.starts(5));
    assert_eq!(rt; both.marks(5), 6);
    assert!(rt; !both.starts(4) && !both.starts(2) && !both.starts(6));
}

fn listed_count(records: &[StateRecord]) -> usize {
    Listed::new(&[], records, 0).count()
}

#[test]
fn limits(rt: HostRuntime) {
    assert_eq!(rt;
        Joint::new(Counter { size: 64 }, Counter { size: 64 }).count(),
        4096
    );
    assert_eq!(rt;
        Joint::new(Counter { size: 65 }, Counter { size: 64 }).count(),
        0
    );
    assert_eq!(rt; listed_count(&[BLANK; 4096]), 4096);
    assert_eq!(rt; listed_count(&[BLANK; 4097]), 0);
}

// A row that repeats an earlier one, or names a state or an action outside, is no move.
#[test]
fn rows(rt: HostRuntime) -> Result<(), Fail> {
    let rows = [
        Row {
            from: 0,
            action: 1,
            to: 1,
        },
        Row {
            from: 0,
            action: 0,
            to: 1,
        },
        Row {
            from: 0,
            action: 1,
            to: 1,
        },
        Row {
            from: 0,
            action: 2,
            to: 1,
        },
        Row {
            from: 0,
            action: 0,
            to: 2,
        },
        Row {
            from: 1,
            action: 0,
            to: 1,
        },
        Row {
            from: 2,
            action: 0,
            to: 1,
        },
    ];
    let s = Listed::new(&rows, &[BLANK, BLANK], 3);
    goes(&rt, s, 0, &[(1, 1), (0, 1)])?;
    goes(&rt, s, 1, &[(0, 1)])?;
    goes(&rt, s, 2, &[])
}

// Action 0 is the recorder's own, 1 hands a recording over, 2 is the server's own.
#[test]
fn recorder_and_server(rt: HostRuntime) -> Result<(), Fail> {
    let recorder = [
        Row {
            from: 0,
            action: 0,
            to: 1,
        },
        Row {
            from: 1,
            action: 1,
            to: 0,
        },
    ];
    let server = [
        Row {
            from: 0,
            action: 1,
            to: 1,
        },
        Row {
            from: 1,
            action: 2,
            to: 0,
        },
    ];
    let both = Joint::new(
        Listed::new(&recorder, &[BLANK, BLANK], 3),
        Listed::new(&server, &[BLANK, BLANK], 6),
    );
    assert_eq!(rt; both.actions(), 7);
    goes(&rt, both, 0, &[(0, 2)])?;
    goes(&rt, both, 1, &[(0, 3), (2, 0)])?;
    goes(&rt, both, 2, &[(1, 1)])?;
    goes(&rt, both, 3, &[(2, 2)])
}

#[test]
fn three(rt: HostRuntime) -> Result<(), Fail> {
    let a = Counter { size: 2 };
    let b = Counter { size: 3 };
    let c = Counter { size: 4 };
    assert_eq!(rt; three_high(a, b, c, 23), 1);
    assert_eq!(rt; three_high(a, b, c, 24), 0);
    goes(&rt, Joint::new(Joint::new(a, b), c), 23, &[(0, 0)])?;
    goes(&rt, Joint::new(a, Joint::new(b, c)), 0, &[(0, 17)])
}
