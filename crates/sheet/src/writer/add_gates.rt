//! The calls that write the inputs and the gates.
ghost use Rattle.std.specs.Prelude.{◌≡◌, ◌≤◌, length, IfOk};
ghost use Rattle.sheet.specs.Faults.{found};
ghost use Rattle.sheet.specs.Written.{Opening, AddingGate, RoomForGate};
ghost use Rattle.sheet.specs.Refusals.{refused, input_refusal, gate_refusal};

use crate::fault::Flaw;
use crate::gate::Gate;
use crate::record::check_gate;
use crate::refusal::{Refusal, Refused, refuse};
use crate::shape::end_of_gates;
use crate::writer::bytes::gate_bytes;
use crate::writer::{Gates, Opened, put, signals};

impl Opened {
    /// Writes the number of inputs.
    pub fn inputs(self, place: &mut [u8], inputs: u16) -> Result<Gates, Refused<Opened>>
        ensures state { Opening place.old inputs result place.new }
        ensures refusal { refused result ≡ input_refusal (length place.old) inputs }
    {
        if !(1..=64).contains(&inputs) {
            return refuse(self, Refusal::Wrong(Flaw::Count));
        }
        if place.len() < 5 {
            return refuse(self, Refusal::Full);
        }
        let Opened = self;
        put(place, 0, &[1]);
        put(place, 1, &inputs.to_be_bytes());
        put(place, 3, &0u16.to_be_bytes());
        Ok(Gates { inputs, gates: 0 })
    }
}

impl Gates {
    /// Where a gate is written in a place of `room` bytes, or why it is not.
    fn place_of_gate(&self, gate: Gate, room: usize) -> Result<usize, Refusal>
        ensures goes { IfOk result (RoomForGate self.now gate room) }
        ensures refusal { found result ≡ gate_refusal room self.now gate }
    {
        if self.gates == 600 {
            return Err(Refusal::Wrong(Flaw::Count));
        }
        let at = end_of_gates(self.gates);
        check_gate(gate, signals(self.inputs, self.gates), at)?;
        if room < at + 7 {
            return Err(Refusal::Full);
        }
        Ok(at)
    }

    /// Writes a gate.
    pub fn gate(self, place: &mut [u8], gate: Gate) -> Result<Gates, Refused<Gates>>
        ensures state { AddingGate place.old self gate result place.new }
        ensures refusal { refused result ≡ gate_refusal (length place.old) self gate }
    {
        // Not by `map_err`: its closure would move the writer also where the call goes on.
        let at = match self.place_of_gate(gate, place.len()) {
            Ok(at) => at,
            Err(refusal) => return refuse(self, refusal),
        };
        let Gates { inputs, gates } = self;
        put(place, at, &gate_bytes(gate));
        put(place, 3, &(gates + 1).to_be_bytes());
        Ok(Gates {
            inputs,
            gates: gates + 1,
        })
    }
}
