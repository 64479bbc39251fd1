//! The lines of a script, and how each is read.
use crate::filling::Measures;
use sheet::Gate;
use std::error::Error;
use std::fmt;
use std::str::{FromStr, SplitWhitespace};

/// One line of a script that asks for something.
#[derive(Clone, Copy)]
pub enum Line<'a> {
    /// `place N`: another writer, over a place of N bytes.
    Place(u16),
    /// `inputs N`
    Inputs(u16),
    /// `gate KIND A B C`
    Gate(Gate),
    /// `output SIGNAL NAME`
    Output(u16, &'a str),
    /// `close`: prints the bytes.
    Close,
    /// `full INPUTS GATES OUTPUTS LENGTH`: writes so many of each, with names of so many bytes, and reads the sheet back.
    Full(Measures),
    /// `read HEX`: lists what the bytes say, or their fault.
    Read(&'a str),
    /// `copy`: the last sheet, written anew through the writer.
    Copy,
    /// `cuts`: the closed sheet, cut before each of its bytes.
    Cuts,
    /// `set PLACE BYTE`: the closed sheet with another byte there.
    Set(u16, u8),
    /// `extra BYTE`: the closed sheet with a byte more.
    Extra(u8),
}

/// A line that is none of these.
#[derive(Clone, Copy, Debug)]
pub struct NoSuchLine;

impl fmt::Display for NoSuchLine {
    fn fmt<W: fmt::Write>(&self, f: &mut fmt::Formatter<W>) -> fmt::Result {
        write!(f, "no such line")
    }
}

impl Error for NoSuchLine {}

impl<'a> Line<'a> {
    /// What a line asks for; nothing, where it is empty or begins with `#`.
    pub fn read(text: &'a str) -> Result<Option<Line<'a>>, NoSuchLine> {
        let mut words = text.split_whitespace();
        match words.next() {
            None => Ok(None),
            Some(first) if first.starts_with('#') => Ok(None),
            Some(first) => Ok(Some(Line::named(first, &mut words)?)),
        }
    }

    // The line whose first word is `name`, by the words after it.
    fn named(name: &str, words: &mut SplitWhitespace<'a>) -> Result<Line<'a>, NoSuchLine> {
        match name {
            "place" => Ok(Line::Place(number(words)?)),
            "inputs" => Ok(Line::Inputs(number(words)?)),
            "gate" => Ok(Line::Gate(gate(words)?)),
            "output" => Ok(Line::Output(number(words)?, words.next().unwrap_or(""))),
            "full" => Ok(Line::Full(measures(words)?)),
            "read" => Ok(Line::Read(words.next().ok_or(NoSuchLine)?)),
            "set" => Ok(Line::Set(number(words)?, number(words)?)),
            "extra" => Ok(Line::Extra(number(words)?)),
            _ if words.next().is_some() => Err(NoSuchLine),
            "close" => Ok(Line::Close),
            "copy" => Ok(Line::Copy),
            "cuts" => Ok(Line::Cuts),
            _ => Err(NoSuchLine),
        }
    }
}

// The next word as a number of the type that is wanted.
fn number<T: FromStr>(words: &mut SplitWhitespace<'_>) -> Result<T, NoSuchLine>
where
    T::Err: Drop,
{
    let word = words.next().ok_or(NoSuchLine)?;
    word.parse::<T>().map_err(|_| NoSuchLine)
}

fn gate(words: &mut SplitWhitespace<'_>) -> Result<Gate, NoSuchLine> {
    Ok(Gate {
        kind: number(words)?,
        a: number(words)?,
        b: number(words)?,
        c: number(words)?,
    })
}

fn measures(words: &mut SplitWhitespace<'_>) -> Result<Measures, NoSuchLine> {
    Ok(Measures {
        inputs: number(words)?,
        gates: number(words)?,
        outputs: number(words)?,
        length: number(words)?,
    })
}
