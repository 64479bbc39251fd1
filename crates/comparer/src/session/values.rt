//! Values.
ghost use Rattle.std.specs.Prelude.{◌≡◌};
ghost use Rattle.comparer.specs.Calls.{Valued};
ghost use Rattle.comparer.specs.Checks.{code_check, Passed};

use super::Session;
use crate::refusal::Refusal;
use aig::Net;

impl Session {
    /// The value of a net under an input code, with a word of workspace for each vertex in use.
    pub fn value(&self, net: Net, code: u64, words: &mut [u64]) -> Result<bool, Refusal>
        ensures { Valued self.now net code words.old result words.new }
    {
        self.check_in_use(net)?;
        self.check_code(code)?;
        if words.len() < self.graph.used() {
            return Err(Refusal::Workspace);
        }
        Ok(self.graph.value(net, code, words))
    }

    /// Whether a code has no bit beyond the inputs.
    fn check_code(&self, code: u64) -> Result<(), Refusal>
        ensures { Passed (code_check self.now code) result }
    {
        let inputs = self.graph.inputs();
        if inputs < 64 && code >= 1u64 << inputs {
            return Err(Refusal::CodeTooWide);
        }
        Ok(())
    }
}
