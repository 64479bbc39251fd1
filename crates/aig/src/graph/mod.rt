//! The graph: its inputs, its places and its table of vertices, with the properties that hold between calls.
ghost use Rattle.std.specs.Prelude.{◌≡◌, ◌≤◌, length, vec_capacity};
ghost use Rattle.aig.specs.Invariant.{InputsThere, LinksStand, ReadsEarlier, ReadsStanding, NoneFolds, NoTwins, LinksEqual};

use crate::vertex::Vertex;

mod ands;
mod gating;
mod merges;
mod opens;
mod reads;
mod values;

/// An and-inverter graph: a constant, the inputs, and the ANDs over them. A vertex is in use if the table holds it; there
/// is memory for `places` vertices from the start.
// Vertices are named by numbers, which callers are handed as nets, and all memory is reserved once: so an arena, no boxes.
// `places` stands beside the vector: it is what the caller asked for, which the vector's capacity may exceed.
#[derive(Drop)]
pub struct Graph {
    inputs: usize,
    places: usize,
    table: Vec<Vertex>,
    ghost narrow: { inputs ≤ 64 },
    ghost bounded: { places ≤ 4096 },
    ghost reserved: { places ≤ vec_capacity table },
    ghost inside: { length table.items ≤ places },
    ghost few: { InputsThere inputs table.items },
    ghost linked: { LinksStand table.items },
    ghost earlier: { ReadsEarlier inputs table.items },
    ghost standing: { ReadsStanding inputs table.items },
    ghost proper: { NoneFolds inputs table.items },
    ghost unique: { NoTwins inputs table.items },
    ghost equal: { LinksEqual inputs table.items },
}
