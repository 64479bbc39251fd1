//! The bytes of gate records.
ghost use Rattle.std.specs.Prelude.{◌≡◌};
ghost use Rattle.sheet.specs.Format.{gate_bytes};

use crate::gate::Gate;

/// The seven bytes of a gate record.
pub fn gate_bytes(g: Gate) -> [u8; 7]
    ensures { result ≡ gate_bytes g }
{
    let [a1, a0] = g.a.to_be_bytes();
    let [b1, b0] = g.b.to_be_bytes();
    let [c1, c0] = g.c.to_be_bytes();
    [g.kind, a1, a0, b1, b0, c1, c0]
}
