//! What a graph tells of itself.
ghost use Rattle.std.specs.Prelude.{◌≡◌, ◌<◌, slice_index_or};
ghost use Rattle.aig.specs.Table.{none, survivor_of};
ghost use Rattle.aig.specs.Graphs.{inputs_of, places_of, vertices, used, InUse};

use super::Graph;
use crate::net::Net;
use crate::table::Table;
use crate::vertex::Vertex;

impl Graph {
    /// How many inputs there are.
    pub fn inputs(&self) -> usize
        ensures { result ≡ inputs_of self.now }
    {
        self.inputs
    }

    /// How many vertices there are places for.
    pub fn places(&self) -> usize
        ensures { result ≡ places_of self.now }
    {
        self.places
    }

    /// How many vertices are in use.
    pub fn used(&self) -> usize
        ensures { result ≡ used self.now }
    {
        self.table.len()
    }

    /// A vertex in use, as the table holds it.
    pub fn vertex(&self, v: usize) -> Vertex
        requires { v < used self.now }
        ensures { result ≡ slice_index_or (vertices self.now) v none }
    {
        self.table[v]
    }

    /// The net that stands for `net`.
    pub fn survivor(&self, net: Net) -> Net
        requires { InUse self.now net }
        ensures { result.0 ≡ survivor_of (vertices self.now) net.0 }
    {
        self.as_table().survivor(net)
    }

    /// The table, to be read.
    pub(super) fn as_table(&self) -> Table<'_>
        ensures inputs { result.inputs ≡ inputs_of self.now }
        ensures vertices { result.vertices.now ≡ vertices self.now }
    {
        Table {
            inputs: self.inputs,
            vertices: &self.table,
        }
    }
}
