// Growing: units, one after another, while the budget lasts and the tables have room.
ghost use Rattle.std.specs.Prelude.{◌≡◌, ℕ, ◌+◌, ◌-◌, ◌<◌, ◌≤◌, length, IfSome, nat_lt, Some};
ghost use Rattle.tableau.specs.Growing.{Sound, Later, word};
ghost use Rattle.document.specs.Documents.{Document as Meaning};
ghost use Rattle.tableau.specs.Units.{FirstUnit, NextUnit, next_phase};
ghost use Rattle.tableau.specs.UnitsHeld.{WorksUnit, UnderWay, Grew};

use crate::node::{Edge, Node, Used};
use crate::rules::{Rules, turned};
use crate::trail::Trail;
use crate::unit::{Opening, Origin};
use document::declared::Declared;
use document::document::Document;
use std::fmt;

// Kept: the tables are lent beside it, as two parameters, so each function that works units requires that it fits them (`Sound`).
// How far the graph has grown: the units worked, the nodes that the first unit entered, and the places in use. Unit
// number k + 1 opens node k.
#[derive(Clone, Copy, PartialEq, Eq, Default, Debug)]
pub struct Grown {
    pub units: usize,
    pub first: usize,
    pub used: Used,
}

impl Grown {
    pub fn nothing() -> Grown
        ensures { (result.units ≡ 0) × (result.first ≡ 0) × (result.used.nodes ≡ 0) × (result.used.edges ≡ 0) }
    {
        Grown::default()
    }

    // Whether no unit is left.
    pub fn is_complete(&self) -> bool
        ensures { result ≡ nat_lt self.now.used.nodes self.now.units }
    {
        self.units > self.used.nodes
    }
}

#[derive(Clone, Copy, PartialEq, Eq, Debug)]
pub enum Report {
    // No unit is left.
    Complete,
    // The next unit does not fit the tables.
    Full,
    // The budget is spent.
    More,
}

impl fmt::Display for Report {
    ghost output = { λ r. Some (word r) };

    fn fmt<W: fmt::Write>(&self, f: &mut fmt::Formatter<W>) -> fmt::Result {
        f.write_str(match self {
            Report::Complete => "complete",
            Report::Full => "full",
            Report::More => "more",
        })
    }
}

// What a call of grow did.
#[derive(Clone, Copy, PartialEq, Eq, Debug)]
pub struct Growth {
    pub units: u64,
    pub report: Report,
}

// The unit that enters the first nodes. None where they do not fit.
fn first_unit(document: &Document, nodes: &mut [Node], edges: &mut [Edge]) -> Option<Grown>
    ensures sound { IfSome result (λ g. Sound (length nodes.old) (length edges.old) g × (g.units ≡ 1)) }
    ensures entered { FirstUnit document.now.declared document.now.goal nodes.old edges.old nodes.new edges.new result }
{
    let declared = document.declared();
    let opening = Opening {
        rules: Rules {
            declared: &declared,
            phase: 0,
        },
        origin: Origin::First,
    };
    let mut trail = Trail::new();
    let goal = document.goal() as u8;
    let used = opening.enter_first(goal, &mut trail, nodes, edges, Used::default())?;
    Some(Grown {
        units: 1,
        first: used.nodes,
        used,
    })
}

// The phase of a node's successors: it turns where the node is closing.
fn phase_after(node: &Node) -> u8
    ensures { result ≡ next_phase node.now }
{
    if node.closing {
        turned(node.phase)
    } else {
        node.phase
    }
}

// The unit that opens the lowest unopened node. None where its successors do not fit.
fn next_unit(
    document: &Document,
    nodes: &mut [Node],
    edges: &mut [Edge],
    grown: Grown,
) -> Option<Grown>
    requires sound { Sound (length nodes.old) (length edges.old) grown }
    requires due { (1 ≤ grown.units) × (grown.units ≤ grown.used.nodes) }
    ensures later { IfSome result (λ g. Later (length nodes.old) (length edges.old) grown g) }
    ensures entered { NextUnit document.now.declared (grown.units - 1) nodes.old edges.old grown nodes.new edges.new result }
{
    let declared = document.declared();
    let k = grown.units - 1;
    let mut node = nodes[k];
    let phase = phase_after(&node);
    let opening = Opening {
        rules: Rules {
            declared: &declared,
            phase,
        },
        origin: Origin::Opened {
            node: k as u16,
            closing: node.closing,
            first_edge: grown.used.edges,
        },
    };
    let mut trail = Trail::new();
    let used = opening.enter_successors(&node, &mut trail, nodes, edges, grown.used)?;
    node.first_edge = grown.used.edges as u32;
    node.edge_count = (used.edges - grown.used.edges) as u32;
    nodes[k] = node;
    Some(Grown {
        units: grown.units + 1,
        first: grown.first,
        used,
    })
}

// The next unit. None where it does not fit.
fn unit(document: &Document, nodes: &mut [Node], edges: &mut [Edge], grown: Grown) -> Option<Grown>
    requires sound { Sound (length nodes.old) (length edges.old) grown }
    requires due { grown.units ≤ grown.used.nodes }
    ensures later { IfSome result (λ g. Later (length nodes.old) (length edges.old) grown g) }
    ensures works { WorksUnit document.now nodes.old edges.old grown nodes.new edges.new result }
{
    if grown.units == 0 {
        first_unit(document, nodes, edges)
    } else {
        next_unit(document, nodes, edges, grown)
    }
}

// Works units until none is left, the next one does not fit, or the budget is spent.
pub fn grow(
    document: &Document,
    nodes: &mut [Node],
    edges: &mut [Edge],
    grown: Grown,
    budget: u64,
) -> (Grown, Growth)
    requires sound { Sound (length nodes.old) (length edges.old) grown }
    ensures sound { Sound (length nodes.old) (length edges.old) result.0 }
    ensures within { result.1.units ≤ budget }
    ensures grew { (d : Meaning) → UnderWay document.now d nodes.old edges.old grown → Grew d nodes.old edges.old grown budget nodes.new edges.new result.0 result.1 }
{
    let mut now = grown;
    for units in 0..budget {
        if now.is_complete() {
            let report = Report::Complete;
            return (now, Growth { units, report });
        }
        let Some(next) = unit(document, nodes, edges, now) else {
            let report = Report::Full;
            return (now, Growth { units, report });
        };
        now = next;
    }
    let report = if now.is_complete() {
        Report::Complete
    } else {
        Report::More
    };
    let units = budget;
    (now, Growth { units, report })
}
