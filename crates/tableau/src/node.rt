// The nodes and edges of a goal's graph, as they lie in the two tables.
ghost use Rattle.std.specs.Prelude.{◌≡◌, ℕ, ◌+◌, ◌*◌, ◌<◌, ◌≤◌, if◌then◌else◌, length, Decides, MatchOption};
ghost use Rattle.tableau.specs.Nodes.{SameNode, node_at, edge_at};

use crate::claims::ClaimSet;

// Places of the tables that are used at most.
pub const MOST_NODES: usize = 4096;

pub const MOST_EDGES: usize = 65536;

// A node: the action of its step, the phase, whether it is closing, and its claims. Of these hang `shows` and `hides`, the
// propositions that it claims true and false. Once it is opened, its edges stand one after another from `first_edge` on.
#[derive(Clone, Copy, Default, Debug)]
pub struct Node {
    pub action: u8,
    pub phase: u8,
    pub closing: bool,
    pub claims: ClaimSet,
    pub shows: u16,
    pub hides: u16,
    pub first_edge: u32,
    pub edge_count: u32,
}

impl Node {
    // A node for places not in use.
    pub fn blank() -> Node {
        Node::default()
    }

    // Phase and closing in one number, so that `same` tells both by one jump. With a jump each, near to the one for the
    // action, finding a node among many of the same action took twice the time.
    fn standing(&self) -> u16
        ensures { result ≡ 2 * self.now.phase + (if self.now.closing then 1 else 0) }
    {
        2 * u16::from(self.phase) + u16::from(self.closing)
    }

    // Whether the two are the same node of the graph.
    // Kept: a derived `==` would compare the edges' places too, which are no part of what a node is.
    pub fn same(&self, other: &Node) -> bool
        ensures { Decides result (SameNode self.now other.now) }
    {
        self.action == other.action
            && self.standing() == other.standing()
            && self.claims.same(&other.claims)
    }
}

// An edge: a pair of nodes, by their numbers.
#[derive(Clone, Copy, PartialEq, Eq, Default, Debug)]
pub struct Edge {
    pub from: u16,
    pub to: u16,
}

impl Edge {
    pub fn blank() -> Edge {
        Edge::default()
    }
}

// How many places of the two tables are in use.
// Kept: the tables are lent beside it, as two parameters, so each function that enters requires that it lies within them.
#[derive(Clone, Copy, PartialEq, Eq, Default, Debug)]
pub struct Used {
    pub nodes: usize,
    pub edges: usize,
}

// The number of the node among these.
pub fn find_node(nodes: &[Node], node: &Node) -> Option<usize>
    ensures { MatchOption result ((k : ℕ) → k < length nodes.now → SameNode (node_at nodes.now k) node.now → ⊥) (λ i. (i < length nodes.now) × SameNode (node_at nodes.now i) node.now) }
{
    nodes.iter().position(|other| other.same(node))
}

// Whether one of the edges leads to the node.
pub fn has_edge_to(edges: &[Edge], to: u16) -> bool
    ensures { Decides result ((k : ℕ) × (k < length edges.now) × ((edge_at edges.now k).to ≡ to)) }
{
    edges.iter().any(|edge| edge.to == to)
}
