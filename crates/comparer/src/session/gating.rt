//! The call that builds a gate.
ghost use Rattle.std.specs.Prelude.{◌≡◌, true};
ghost use Rattle.comparer.specs.Calls.{Gated};
ghost use Rattle.comparer.specs.Checks.{operand_check, Passed};

use super::Session;
use crate::refusal::Refusal;
use aig::Net;
use gates::Kind;

impl Session {
    /// The net of a gate: its kind by number, and three operands, of which those that the kind does not read are 0.
    // The kind is a number, since a number that names no kind is one of this call's refusals.
    pub fn gate(&mut self, kind: u8, a: Net, b: Net, c: Net) -> Result<Net, Refusal>
        ensures { Gated self.old kind a b c result self.new }
    {
        let known = Kind::try_from(kind)?;
        self.check_in_use(a)?;
        self.check_operand(known.reads_b(), b)?;
        self.check_operand(known.reads_c(), c)?;
        if self.graph.used() + 3 > self.graph.places() {
            return Err(Refusal::VerticesLeft);
        }
        Ok(self.graph.gate(known, a, b, c))
    }

    /// Whether an operand may stand where the gate reads it, or does not.
    // `read` is a fact of the kind, and the net is looked at either way, so neither is a flag on the other.
    fn check_operand(&self, read: bool, net: Net) -> Result<(), Refusal>
        ensures { Passed (operand_check self.now read net.0) result }
    {
        if read {
            self.check_in_use(net)
        } else if net == Net::FALSE {
            Ok(())
        } else {
            Err(Refusal::UnusedOperand)
        }
    }

    /// Whether a net is one of a vertex in use.
    pub(super) fn check_in_use(&self, net: Net) -> Result<(), Refusal>
        ensures { Passed (operand_check self.now true net.0) result }
    {
        if net.vertex() < self.graph.used() {
            Ok(())
        } else {
            Err(Refusal::NetNotInUse)
        }
    }
}
