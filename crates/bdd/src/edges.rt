//! Edges: the names of diagrams.
//!
//! Edge 2p leads to place p of the table, and edge 2p + 1 to the same place, inverted. Place 0 is the constant false, and
//! place i + 1 is node i.
ghost use Rattle.std.specs.Prelude.{◌≡◌, ℕ, ◌+◌, ◌*◌, ◌/◌, ◌%◌, ◌<◌, Bool, not, List, MatchBool};
ghost use Rattle.bdd.specs.declared.store.nodes.Node.{Node};
ghost use Rattle.bdd.specs.Diagram.{eval, flip, turn};

/// The name of a diagram in a table.
// A number and no struct: the definitions name edges by their numbers, and a struct would only add a field to each.
pub type Edge = u32;

/// The diagram of the constant false.
pub const FALSE: Edge = 0;

/// The diagram of the constant true.
pub const TRUE: Edge = 1;

/// The edge of the inverse function.
pub fn inverse(e: Edge) -> Edge
    ensures value { result ≡ flip e }
    ensures meaning { (ns : List Node) (ρ : ℕ → Bool) → eval ns ρ result ≡ not (eval ns ρ e) }
{
    if is_inverted(e) { e - 1 } else { e + 1 }
}

// Whether the edge is inverted.
pub(crate) fn is_inverted(e: Edge) -> bool
    ensures { MatchBool result (e % 2 ≡ 1) (e % 2 ≡ 0) }
{
    e % 2 == 1
}

// The place that the edge leads to. It is a number, with the constant at 0, and no `Option` of a node: the definitions of
// edges and of their values count places so.
pub(crate) fn place_of(e: Edge) -> usize
    ensures { result ≡ e / 2 }
{
    (e / 2) as usize
}

// The straight edge to node i.
pub(crate) fn edge_to(i: usize) -> Edge
    requires { i < 16384 }
    ensures { result ≡ 2 * (i + 1) }
{
    2 * (i as u32 + 1)
}

// The edge `to`, inverted if the edge `by` is.
pub(crate) fn turned(by: Edge, to: Edge) -> Edge
    ensures { result ≡ turn by to }
{
    if is_inverted(by) { inverse(to) } else { to }
}
