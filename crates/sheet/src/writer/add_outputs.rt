//! The calls that write the outputs. No gate comes after the first.
ghost use Rattle.std.specs.Prelude.{◌≡◌, ℕ, ◌+◌, ◌≤◌, List, length, IfOk};
ghost use Rattle.sheet.specs.Faults.{found};
ghost use Rattle.sheet.specs.Format.{Content, names, output_bytes};
ghost use Rattle.sheet.specs.Names.{output_of};
ghost use Rattle.sheet.specs.Written.{put as written, Starting, AddingOutput, RoomForFirst, RoomForOutput, HoldsOutputs};
ghost use Rattle.sheet.specs.Refusals.{refused, first_output_refusal, output_refusal};

use crate::fault::Flaw;
use crate::output::{OutputRecord, bytes_from};
use crate::output_records::OutputRecords;
use crate::refusal::{Refusal, Refused, refuse};
use crate::shape::end_of_gates;
use crate::writer::names::check_output;
use crate::writer::{Gates, Outputs, put, signals};

// The calls of `Gates` and of `Outputs` are not one: they start at different places and after different earlier names, and promise so.
impl Gates {
    /// Where the first output ends in a place of `room` bytes, or why it is not written.
    fn end_of_first(&self, output: OutputRecord<'_>, room: usize) -> Result<usize, Refusal>
        ensures goes { IfOk result (RoomForFirst self.now (output_of output.entry) room) }
        ensures refusal { found result ≡ first_output_refusal room self.now (output_of output.entry) }
    {
        let earlier = OutputRecords::new(&[], 0);
        check_output(output, signals(self.inputs, self.gates), earlier)?;
        let end = end_of_gates(self.gates) + 5 + output.name.len();
        if room < end {
            return Err(Refusal::Full);
        }
        Ok(end)
    }

    /// Writes the first output: no gate comes after it.
    pub fn output(
        self,
        place: &mut [u8],
        output: OutputRecord<'_>,
    ) -> Result<Outputs, Refused<Gates>>
        ensures state { Starting place.old self (output_of output.entry) result place.new }
        ensures refusal { refused result ≡ first_output_refusal (length place.old) self (output_of output.entry) }
    {
        // Not by `map_err`: its closure would move the writer also where the call goes on.
        let end = match self.end_of_first(output, place.len()) {
            Ok(end) => end,
            Err(refusal) => return refuse(self, refusal),
        };
        let Gates { inputs, gates } = self;
        let at = end_of_gates(gates);
        put(place, at, &1u16.to_be_bytes());
        put_output(place, at + 2, output);
        Ok(Outputs {
            inputs,
            gates,
            outputs: 1,
            end,
        })
    }
}

impl Outputs {
    /// Where one more output ends in a place, or why it is not written.
    fn end_of_output(&self, place: &[u8], output: OutputRecord<'_>) -> Result<usize, Refusal>
        ensures goes { IfOk result (RoomForOutput self.now (output_of output.entry) (length place.now)) }
        ensures refusal { (before : List ℕ) (c : Content) → HoldsOutputs before place.now self.now c →
            found result ≡ output_refusal (length place.now) self.now (names c.outputs) (output_of output.entry) }
    {
        if self.outputs == 256 {
            return Err(Refusal::Wrong(Flaw::Count));
        }
        let records = bytes_from(place, end_of_gates(self.gates) + 2);
        let earlier = OutputRecords::new(records, self.outputs);
        check_output(output, signals(self.inputs, self.gates), earlier)?;
        let end = self.end + 3 + output.name.len();
        if place.len() < end {
            return Err(Refusal::Full);
        }
        Ok(end)
    }

    /// Writes one more output.
    pub fn output(
        self,
        place: &mut [u8],
        output: OutputRecord<'_>,
    ) -> Result<Outputs, Refused<Outputs>>
        ensures state { AddingOutput place.old self (output_of output.entry) result place.new }
        ensures refusal { (before : List ℕ) (c : Content) → HoldsOutputs before place.old self c →
            refused result ≡ output_refusal (length place.old) self (names c.outputs) (output_of output.entry) }
    {
        // Not by `map_err`: its closure would move the writer also where the call goes on.
        let end = match self.end_of_output(place, output) {
            Ok(end) => end,
            Err(refusal) => return refuse(self, refusal),
        };
        let Outputs {
            inputs,
            gates,
            outputs,
            end: before,
        } = self;
        put_output(place, before, output);
        put(place, end_of_gates(gates), &(outputs + 1).to_be_bytes());
        Ok(Outputs {
            inputs,
            gates,
            outputs: outputs + 1,
            end,
        })
    }
}

/// Writes an output record at a place.
fn put_output(place: &mut [u8], at: usize, output: OutputRecord<'_>)
    requires room { at + 3 + length output.name.now ≤ length place.old }
    requires small { length output.name.now ≤ 16 }
    ensures { place.new ≡ written place.old at (output_bytes (output_of output.entry)) }
{
    let OutputRecord { signal, name } = output;
    put(place, at, &signal.to_be_bytes());
    put(place, at + 2, &[name.len() as u8]);
    put(place, at + 3, name);
}
