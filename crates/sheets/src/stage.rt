//! The writer of a script, whichever state it is in.
use sheet::writer::{Closed, Gates, Opened, Outputs};
use sheet::{Gate, OutputRecord, Refusal, Refused};
use std::fmt;

/// A writer's state.
#[derive(Drop)]
pub enum Stage {
    Opened(Opened),
    Gates(Gates),
    Outputs(Outputs),
    Closed(Closed),
}

impl From<Opened> for Stage {
    fn from(writer: Opened) -> Stage {
        Stage::Opened(writer)
    }
}

impl From<Gates> for Stage {
    fn from(writer: Gates) -> Stage {
        Stage::Gates(writer)
    }
}

impl From<Outputs> for Stage {
    fn from(writer: Outputs) -> Stage {
        Stage::Outputs(writer)
    }
}

/// Why a line writes nothing: a refusal, or a line out of order, which a program over the writer could not even say.
#[derive(Clone, Copy, Debug)]
pub enum Mistake {
    Refused(Refusal),
    Misplaced,
}

impl fmt::Display for Mistake {
    fn fmt<W: fmt::Write>(&self, f: &mut fmt::Formatter<W>) -> fmt::Result {
        match self {
            Mistake::Refused(refusal) => write!(f, "refused {refusal}"),
            Mistake::Misplaced => write!(
                f,
                "out of order: list inputs, then gates, then outputs; after closing start another writer"
            ),
        }
    }
}

/// A mistake, and the stage as it was before it.
// `Refused` has one state and a refusal; a script's writer is in any state, and has one reason more.
#[derive(Drop)]
pub struct Unwritten {
    pub stage: Stage,
    pub mistake: Mistake,
}

impl<W: Into<Stage>> From<Refused<W>> for Unwritten {
    fn from(refused: Refused<W>) -> Unwritten {
        let Refused { writer, refusal } = refused;
        Unwritten {
            stage: writer.into(),
            mistake: Mistake::Refused(refusal),
        }
    }
}

// Each step asks which state it is, by a `match`: the state is known only when the script runs.
impl Stage {
    fn misplaced(self) -> Unwritten {
        Unwritten {
            stage: self,
            mistake: Mistake::Misplaced,
        }
    }

    /// Writes the number of inputs.
    pub fn inputs(self, place: &mut [u8], count: u16) -> Result<Stage, Unwritten> {
        match self {
            Stage::Opened(writer) => Ok(Stage::Gates(writer.inputs(place, count)?)),
            other => Err(other.misplaced()),
        }
    }

    /// Writes a gate.
    pub fn gate(self, place: &mut [u8], gate: Gate) -> Result<Stage, Unwritten> {
        match self {
            Stage::Gates(writer) => Ok(Stage::Gates(writer.gate(place, gate)?)),
            other => Err(other.misplaced()),
        }
    }

    /// Writes an output.
    pub fn output(self, place: &mut [u8], output: OutputRecord) -> Result<Stage, Unwritten> {
        match self {
            Stage::Gates(writer) => Ok(Stage::Outputs(writer.output(place, output)?)),
            Stage::Outputs(writer) => Ok(Stage::Outputs(writer.output(place, output)?)),
            other => Err(other.misplaced()),
        }
    }

    /// Closes the sheet.
    pub fn close(self, place: &[u8]) -> Result<Stage, Unwritten> {
        match self {
            Stage::Opened(writer) => Ok(Stage::Closed(writer.close(place)?)),
            Stage::Gates(writer) => Ok(Stage::Closed(writer.close(place)?)),
            Stage::Outputs(writer) => Ok(Stage::Closed(writer.close(place)?)),
            other => Err(other.misplaced()),
        }
    }
}
