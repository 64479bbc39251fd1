//! A pile that is put together while the program runs.
ghost use Rattle.engine.specs.Towers.{tower_pile, tower_gives};

use crate::answer::Answer;
use crate::chain::chained;
use crate::engine::Engine;
use crate::ladder::laddered;
use crate::query::Query;
use crate::workspace::Workspace;
use aig::Graph;

/// A pile of engines of one type, chosen at run time: one engine, a chain of two piles, or a ladder over one.
// An enum, and no boxed `dyn Engine`: a function that makes a `dyn` value and hands it out leaves what is proved of it to its body.
#[derive(PartialEq, Eq, Debug, Drop)]
pub enum Tower<E> {
    Single(E),
    Chain(Box<Tower<E>>, Box<Tower<E>>),
    Ladder(Box<Tower<E>>),
}

impl<E: Engine> Engine for Tower<E> {
    ghost pile = { λ t. tower_pile E.Engine.pile t };

    ghost gives = { λ t. tower_gives E.Engine.gives t };

    fn ask(&self, graph: &mut Graph, query: Query, workspace: &mut Workspace) -> Answer {
        match self {
            Tower::Single(engine) => engine.ask(graph, query, workspace),
            Tower::Chain(first, second) => chained(&**first, &**second, graph, query, workspace),
            Tower::Ladder(below) => laddered(&**below, graph, query, workspace),
        }
    }
}
