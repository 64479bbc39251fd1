//! Merging: a merge relinks all that pointed at the merged vertex and rehashes its readers. A rehash takes the survivors of
//! a reader's two nets; where their AND is known already, by a fold or as another standing vertex, it merges again. The
//! number of standing vertices falls at each merge, so this ends.
ghost use Rattle.aig.specs.Cascade.{Relinked, Ready, Merged, Rehashed, Dirty};

use crate::net::Net;
use crate::table::Table;
use crate::vertex::Vertex;

/// Takes each link at the vertex `gone` to `keep`, inverted where the link was.
pub fn relink(table: &mut [Vertex], keep: Net, gone: usize)
    ensures { Relinked table.old keep.0 gone table.new }
{
    for vertex in table.iter_mut() {
        if vertex.link.vertex() == gone {
            vertex.link = keep.carried(vertex.link);
        }
    }
}

// `merge` and `rehash` take the inputs beside the slice: a `Table` only lends its vertices, and these two write them.

/// Merges the vertex `gone` into the net `keep`, and rehashes each vertex that reads it.
#[cycle(merge_rehash)]
pub fn merge(table: &mut [Vertex], inputs: usize, keep: Net, gone: usize)
    requires { Ready inputs table.old keep.0 gone }
    ensures { Merged inputs table.old keep.0 gone table.new }
{
    relink(table, keep, gone);
    // A loop over the places: a rehash changes later vertices while it goes.
    for w in gone + 1..table.len() {
        let vertex = table[w];
        if vertex.stands(w) && vertex.reads(gone) {
            rehash(table, inputs, w);
        }
    }
}

/// Gives the vertex `w` the survivors of its operands as its pair, or merges `w` where their AND is a net of an earlier
/// vertex. Where a later vertex has the pair, `w` is given it too, and the later one is merged into `w`.
#[cycle(merge_rehash)]
pub fn rehash(table: &mut [Vertex], inputs: usize, w: usize)
    requires { Dirty inputs table.old w }
    ensures { Rehashed inputs table.old w table.new }
{
    let vertex = table[w];
    let before = Table {
        inputs,
        vertices: table,
    };
    let pair = before.pair(vertex.left, vertex.right);
    match before.lookup(pair) {
        Some(net) if net.vertex() < w => merge(table, inputs, net, w),
        // A later vertex has the pair.
        Some(net) => {
            table[w] = vertex.with(pair);
            merge(table, inputs, Net::of(w), net.vertex());
        }
        None => table[w] = vertex.with(pair),
    }
}
