//! Sheets of any size: AND gates of the first two inputs, and numbered names of one length.
use sheet::writer::{Closed, Gates, Opened, Outputs};
use sheet::{Gate, OutputRecord, Refusal};

/// How many of each a sheet is to have, and how long its names are.
#[derive(Clone, Copy)]
pub struct Measures {
    pub inputs: u16,
    pub gates: u16,
    pub outputs: u16,
    pub length: u16,
}

// The kind stands by its number: a constant's value may call no function, so no `u8::from` of a kind.
/// The AND of the first two inputs.
const AND: Gate = Gate {
    kind: 1,
    a: 2,
    b: 3,
    c: 0,
};

// Makes the name number `k`: letters for its digits at the base 16, the lowest first.
fn number_name(name: &mut [u8], k: u16) {
    for (byte, digits) in name.iter_mut().zip([k, k >> 4, k >> 8]) {
        *byte = b'a' + (digits & 15) as u8;
    }
}

fn fill_gates(mut writer: Gates, place: &mut [u8], count: u16) -> Result<Gates, Refusal> {
    for _ in 0..count {
        writer = writer.gate(place, AND)?;
    }
    Ok(writer)
}

// All outputs but the first.
fn fill_outputs(
    mut writer: Outputs,
    place: &mut [u8],
    name: &mut [u8],
    count: u16,
) -> Result<Outputs, Refusal> {
    for k in 1..count {
        number_name(name, k);
        writer = writer.output(place, OutputRecord { signal: 2, name })?;
    }
    Ok(writer)
}

/// Writes a sheet of these measures, or gives the first refusal.
pub fn fill(place: &mut [u8], name: &mut [u8], measures: Measures) -> Result<Closed, Refusal> {
    let writer = Opened.inputs(place, measures.inputs)?;
    let writer = fill_gates(writer, place, measures.gates)?;
    number_name(name, 0);
    let writer = writer.output(place, OutputRecord { signal: 2, name })?;
    let writer = fill_outputs(writer, place, name, measures.outputs)?;
    Ok(writer.close(place)?)
}
