//! The meaning of an engine.
ghost use Rattle.engine.specs.Piles.{Pile};
ghost use Rattle.engine.specs.Answers.{Giving};
ghost use Rattle.engine.specs.Asked.{Askable, Asked, asked_of};

use crate::answer::Answer;
use crate::query::Query;
use crate::workspace::Workspace;
use aig::Graph;

/// An engine: it is asked whether two nets of a graph agree under every input code.
pub trait Engine {
    /// The engine as a pile: its reach, and those of its parts.
    ghost pile: { Self → Pile };

    /// Which answers it may give to a question.
    ghost gives: { Self → Giving };

    /// Asks whether the two nets of the query agree.
    // Graph and workspace are two loans of the caller, made apart: a struct of both would be made anew at each ask.
    fn ask(&self, graph: &mut Graph, query: Query, workspace: &mut Workspace) -> Answer
        requires { Askable graph.old query workspace.old }
        ensures asked { Asked (pile self.now) graph.old query workspace.old result graph.new workspace.new }
        ensures given { gives self.now (asked_of graph.old query workspace.old) result };
}
