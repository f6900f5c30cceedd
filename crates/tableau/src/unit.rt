// One unit of growing: what it forms nodes for, and how it enters them.
ghost use Rattle.std.specs.Prelude.{◌≡◌, ℕ, ◌+◌, ◌<◌, ◌≤◌, length, IfSome, MatchOption};
ghost use Rattle.document.specs.Documents.{Document as Meaning};
ghost use Rattle.tableau.specs.Claims.{member};
ghost use Rattle.tableau.specs.Entered.{Placed, Unplaced, Linking, Unlinked, EntersNode, Ready, Enters, The};
ghost use Rattle.tableau.specs.Numbers.{Shows};
ghost use Rattle.tableau.specs.Successions.{Closes};
ghost use Rattle.tableau.specs.Tables.{Room, More};

use crate::claims::ClaimSet;
use crate::node::{Edge, MOST_EDGES, MOST_NODES, Node, Used, find_node, has_edge_to};
use crate::rules::Rules;
use program::masks;

// Where the nodes of a unit come from: they are the first ones, or the successors of a node that is opened, whose edges
// stand from `first_edge` on.
// Kept: no `Option`: `First` says where nodes come from and is no lack of something; the definitions name both.
#[derive(Clone, Copy, PartialEq, Eq, Debug)]
pub enum Origin {
    First,
    Opened {
        node: u16,
        closing: bool,
        first_edge: usize,
    },
}

#[derive(Clone, Copy)]
pub struct Opening<'a> {
    pub rules: Rules<'a>,
    pub origin: Origin,
}

// The number of the node, which is entered where it is new. None where there is no room.
fn place_of(node: &Node, nodes: &mut [Node], used: Used) -> Option<(u16, Used)>
    requires room { (used.nodes ≤ length nodes.old) × (used.nodes ≤ 4096) }
    ensures placed { MatchOption result (Unplaced nodes.old used node.now nodes.new) (λ p. Placed nodes.old used node.now nodes.new p.0 p.1) }
    ensures room { IfSome result (λ p. (p.1.nodes ≤ length nodes.old) × (p.1.nodes ≤ 4096) × (used.nodes ≤ p.1.nodes) × (p.1.edges ≡ used.edges) × (p.0 < p.1.nodes)) }
{
    if let Some(i) = find_node(&nodes[..used.nodes], node) {
        return Some((i as u16, used));
    }
    let i = used.nodes;
    if i >= MOST_NODES || i >= nodes.len() {
        return None;
    }
    nodes[i] = *node;
    let more = Used {
        nodes: i + 1,
        ..used
    };
    Some((i as u16, more))
}

// Enters an edge of this unit where it is new. None where there is no room.
fn enter_edge(edge: Edge, first: usize, edges: &mut [Edge], used: Used) -> Option<Used>
    requires { (used.edges ≤ length edges.old) × (used.edges ≤ 65536) }
    ensures linked { MatchOption result (Unlinked edges.old used first edge edges.new) (λ u. (u.nodes ≡ used.nodes) × Linking edges.old used first edge edges.new u) }
    ensures room { IfSome result (λ u. (u.edges ≤ length edges.old) × (u.edges ≤ 65536) × (used.edges ≤ u.edges) × (u.nodes ≡ used.nodes)) }
{
    let first = first.min(used.edges);
    if has_edge_to(&edges[first..used.edges], edge.to) {
        return Some(used);
    }
    let i = used.edges;
    if i >= MOST_EDGES || i >= edges.len() {
        return None;
    }
    edges[i] = edge;
    Some(Used {
        edges: i + 1,
        ..used
    })
}

impl<'a> Opening<'a> {
    // Whether a node of this set is closing: the first ones are, and a successor of a node that is not, once no T until has
    // the label of its phase.
    fn closes(self, set: ClaimSet) -> bool
        ensures { (d : Meaning) → Shows self.entry.rules.declared.now d → self.entry.rules.phase < 2 → Closes d self.entry.rules.phase self.entry.origin (member set.words) result }
    {
        match self.origin {
            Origin::First => true,
            Origin::Opened { closing, .. } => {
                !closing && !self.rules.told(set).promises(self.rules.phase)
            }
        }
    }

    // Enters a node of the unit, and its edge where a node is opened. None where there is no room.
    fn enter_node(
        self,
        node: &Node,
        nodes: &mut [Node],
        edges: &mut [Edge],
        used: Used,
    ) -> Option<Used>
        requires room { Room (length nodes.old) (length edges.old) used }
        ensures entered { (d : Meaning) (x : ℕ) → EntersNode d x self.entry.origin node.now nodes.old edges.old used nodes.new edges.new result }
        ensures room { More (length nodes.old) (length edges.old) used result }
    {
        let (place, used) = place_of(node, nodes, used)?;
        match self.origin {
            Origin::First => Some(used),
            Origin::Opened {
                node: from,
                first_edge,
                ..
            } => enter_edge(Edge { from, to: place }, first_edge, edges, used),
        }
    }

    // Enters a node of these claims for each action that does not clash with them. None where there is no room.
    pub fn enter_set(
        self,
        set: ClaimSet,
        nodes: &mut [Node],
        edges: &mut [Edge],
        used: Used,
    ) -> Option<Used>
        requires room { Room (length nodes.old) (length edges.old) used }
        ensures entered { (d : Meaning) → Ready self.entry.rules.declared.now d self.entry.rules.phase self.entry.origin used → Enters d self.entry.rules.phase self.entry.origin (The set.words) (The set.words) nodes.old edges.old used nodes.new edges.new result }
        ensures room { More (length nodes.old) (length edges.old) used result }
    {
        let told = self.rules.told(set);
        let allowed = told.allowed_actions();
        let closing = self.closes(set);
        let shows = told.claimed_props(true);
        let hides = told.claimed_props(false);
        let mut count = used;
        for a in 0..self.rules.declared.acts().count() {
            if masks::has(allowed as u64, a) {
                let node = Node {
                    action: a as u8,
                    phase: self.rules.phase,
                    closing,
                    claims: set,
                    shows,
                    hides,
                    first_edge: 0,
                    edge_count: 0,
                };
                count = self.enter_node(&node, nodes, edges, count)?;
            }
        }
        Some(count)
    }
}
