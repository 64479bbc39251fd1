//! Gate records: the seven bytes, named by a slice pattern, and what is wrong with them.
ghost use Rattle.std.specs.Prelude.{◌≡◌, ◌+◌, ◌*◌, ◌^◌, ◌<◌, length, drop, MatchOption};
ghost use Rattle.sheet.specs.Format.{operand_fits, operand_flaw};
ghost use Rattle.sheet.specs.Flaws.{gate_flaw};
ghost use Rattle.sheet.specs.Record.{Seven, GateChecked, OperandChecked, flaw_in};

use crate::fault::{FieldFault, Flaw};
use crate::gate::Gate;
use gates::{Kind, reads_b, reads_c};

// `read` is no flag on `own`: whether the kind reads the operand is a fact of the kind, `own` is one of the gate. The format's definition takes the same two.
/// Whether an operand is below the signal of its own gate, or 0 where the gate does not read it.
pub fn operand_fits(read: bool, own: u16, operand: u16) -> bool
    ensures { result ≡ operand_fits read own operand }
{
    if read { operand < own } else { operand == 0 }
}

/// What is wrong with an operand that does not fit.
pub fn operand_flaw(read: bool) -> Flaw
    ensures { result ≡ operand_flaw read }
{
    if read { Flaw::Signal } else { Flaw::Unused }
}

/// Finds whether the operand at a place is wrong.
// `Reader::operand` reads a field and judges it; here the record is read already, and only the judging is left.
fn check_operand(read: bool, own: u16, operand: u16, place: usize) -> Result<(), FieldFault>
    ensures { OperandChecked read own operand place result }
{
    if operand_fits(read, own, operand) {
        Ok(())
    } else {
        Err(FieldFault {
            flaw: operand_flaw(read),
            place,
        })
    }
}

/// The gate record that some bytes begin with, where it is all there, and the bytes after it.
pub fn record(bytes: &[u8]) -> Option<(Gate, &[u8])>
    ensures { MatchOption result (length bytes.now < 7) (λ g. Seven bytes.now g.0 × (g.1.now ≡ drop 7 bytes.now)) }
{
    let [kind, a1, a0, b1, b0, c1, c0, rest @ ..] = bytes else {
        return None;
    };
    Some((
        Gate {
            kind: *kind,
            a: u16::from_be_bytes([*a1, *a0]),
            b: u16::from_be_bytes([*b1, *b0]),
            c: u16::from_be_bytes([*c1, *c0]),
        },
        rest,
    ))
}

/// Finds the first fault of a gate record that starts at a place. No sheet is so long that its places would not fit.
pub fn check_gate(gate: Gate, own: u16, start: usize) -> Result<(), FieldFault>
    ensures fault { start + 5 < 2 ^ 64 → GateChecked own gate start result }
    ensures flaw { flaw_in result ≡ gate_flaw own gate }
{
    if Kind::try_from(gate.kind).is_err() {
        return Err(FieldFault {
            flaw: Flaw::Kind,
            place: start,
        });
    }
    check_operand(true, own, gate.a, start.saturating_add(1))?;
    check_operand(reads_b(gate.kind), own, gate.b, start.saturating_add(3))?;
    check_operand(reads_c(gate.kind), own, gate.c, start.saturating_add(5))
}
