//! Writing a sheet: inputs, then gates, then outputs, then closed.
//! Each state is a type that is moved, so a gate after the first output and a record after closing do not compile.
//! A state holds plain numbers; the place of the sheet is passed at each call.
ghost use Rattle.std.specs.Prelude.{◌≡◌, ◌+◌, ◌*◌, ◌≤◌, length};
ghost use Rattle.sheet.specs.Places.{put as written};

/// A sheet of which nothing is written.
#[derive(Drop, PartialEq, Eq, Debug)]
pub struct Opened;

/// A sheet whose inputs are written, and so many gates.
#[derive(Drop, PartialEq, Eq, Debug)]
pub struct Gates {
    inputs: u16,
    gates: u16,
    ghost few_inputs: { inputs ≤ 64 },
    ghost few_gates: { gates ≤ 600 },
}

/// A sheet whose gates are written, and so many outputs, at least one; `end` is where its bytes end.
// What `Gates` has stands here again: a state is plain numbers, and holds no other state.
#[derive(Drop, PartialEq, Eq, Debug)]
pub struct Outputs {
    inputs: u16,
    gates: u16,
    outputs: u16,
    end: usize,
    ghost few_inputs: { inputs ≤ 64 },
    ghost few_gates: { gates ≤ 600 },
    ghost few_outputs: { outputs ≤ 256 },
    ghost past_gates: { 7 + 7 * gates ≤ end },
    ghost not_far: { end ≤ 7 + 7 * gates + 19 * outputs },
}

/// A closed sheet of so many bytes, at the front of its place.
#[derive(Clone, Copy, PartialEq, Eq, Debug)]
pub struct Closed {
    size: usize,
}

mod add_gates;
mod add_outputs;
mod bytes;
mod closing;
mod names;

/// Writes some bytes at a place.
fn put(place: &mut [u8], at: usize, bytes: &[u8])
    requires { at + length bytes.now ≤ length place.old }
    ensures { place.new ≡ written place.old at bytes.now }
{
    place[at..at + bytes.len()].copy_from_slice(bytes);
}

/// How many signals there are, by the inputs and gates: the two constants are signals too.
fn signals(inputs: u16, gates: u16) -> u16
    requires inputs { inputs ≤ 64 }
    requires gates { gates ≤ 600 }
    ensures { result ≡ inputs + 2 + gates }
{
    inputs + 2 + gates
}
