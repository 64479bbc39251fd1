//! The engine that knows nothing.
ghost use Rattle.std.specs.Prelude.{◌≡◌, true, false};
ghost use Rattle.engine.specs.Piles.{single};
ghost use Rattle.engine.specs.declared.answer.Answer.TheVariants.{Undecided};

use crate::answer::Answer;
use crate::engine::Engine;
use crate::query::Query;
use crate::workspace::Workspace;
use aig::Graph;

/// An engine that always answers undecided. It has the empty reach, and can claim no other.
#[derive(Clone, Copy, PartialEq, Eq, Debug)]
pub struct Never;

impl Engine for Never {
    ghost pile = { λ _. single (λ _. false) };

    ghost gives = { λ _ _ r. r ≡ Undecided };

    fn ask(&self, _graph: &mut Graph, _query: Query, _workspace: &mut Workspace) -> Answer {
        Answer::Undecided
    }
}
