//! Two engines, one after the other.
ghost use Rattle.engine.specs.Piles.{chain};
ghost use Rattle.engine.specs.Answers.{Chained};
ghost use Rattle.engine.specs.Asked.{Askable, Asked, asked_of};

use crate::answer::Answer;
use crate::engine::Engine;
use crate::query::Query;
use crate::workspace::Workspace;
use aig::Graph;

/// Asks the first engine, and the second if the first is undecided. Its reach is either's.
#[derive(PartialEq, Eq, Debug, Drop)]
pub struct Chain<P, Q> {
    pub first: P,
    pub second: Q,
}

impl<P: Engine, Q: Engine> Engine for Chain<P, Q> {
    ghost pile = { λ c. chain (P.Engine.pile c.first) (Q.Engine.pile c.second) };

    ghost gives = { λ c. Chained (P.Engine.gives c.first) (Q.Engine.gives c.second) };

    fn ask(&self, graph: &mut Graph, query: Query, workspace: &mut Workspace) -> Answer {
        chained(&self.first, &self.second, graph, query, workspace)
    }
}

/// Asks an engine, and another if it is undecided.
pub fn chained<P: Engine, Q: Engine>(
    first: &P,
    second: &Q,
    graph: &mut Graph,
    query: Query,
    workspace: &mut Workspace,
) -> Answer
    requires { Askable graph.old query workspace.old }
    ensures asked { Asked (chain (P.pile first.now) (Q.pile second.now)) graph.old query workspace.old result graph.new workspace.new }
    ensures given { Chained (P.gives first.now) (Q.gives second.now) (asked_of graph.old query workspace.old) result }
{
    // A `match`, and no closure for the second ask: of a closure that is let go uncalled, no clause of std says that the graph
    // and the workspace that it borrowed are as they were.
    match first.ask(graph, query, workspace) {
        Answer::Undecided => second.ask(graph, query, workspace),
        decided => decided,
    }
}
