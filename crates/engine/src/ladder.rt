//! One engine at two limits.
ghost use Rattle.engine.specs.Piles.{ladder};
ghost use Rattle.engine.specs.Answers.{Climbed};
ghost use Rattle.engine.specs.Asked.{Askable, Asked, asked_of};

use crate::answer::Answer;
use crate::engine::Engine;
use crate::query::Query;
use crate::workspace::Workspace;
use aig::Graph;

/// Asks the engine below at the limit divided by 16, rounded down but at least 1, and then at the limit if it is
/// undecided. Its reach is that of the engine below at the limit.
#[derive(PartialEq, Eq, Debug, Drop)]
pub struct Ladder<P> {
    pub below: P,
}

impl<P: Engine> Engine for Ladder<P> {
    ghost pile = { λ c. ladder (P.Engine.pile c.below) };

    ghost gives = { λ c. Climbed (P.Engine.gives c.below) };

    fn ask(&self, graph: &mut Graph, query: Query, workspace: &mut Workspace) -> Answer {
        laddered(&self.below, graph, query, workspace)
    }
}

/// Asks an engine at the lower limit of a ladder, and at the limit if it is undecided.
pub fn laddered<P: Engine>(
    below: &P,
    graph: &mut Graph,
    query: Query,
    workspace: &mut Workspace,
) -> Answer
    requires { Askable graph.old query workspace.old }
    ensures asked { Asked (ladder (P.pile below.now)) graph.old query workspace.old result graph.new workspace.new }
    ensures given { Climbed (P.gives below.now) (asked_of graph.old query workspace.old) result }
{
    // A `match` for the same reason as in `chained`. It is no call of `chained`, whose two parts are asked one query.
    match below.ask(graph, query.lowered(), workspace) {
        Answer::Undecided => below.ask(graph, query, workspace),
        decided => decided,
    }
}
