//! The calls that a script can make, and how a line is read.
use aig::Net;
use gates::Kind;
use std::error::Error;
use std::fmt;
use std::str::{FromStr, SplitWhitespace};

/// The most words of workspace that a line can lend, and how many it lends where it does not say.
pub const MOST_WORDS: usize = 4096;

/// A call as a line of the script has it.
#[derive(Clone, Copy, Debug)]
pub enum Command {
    Open { inputs: usize, places: usize },
    // The kind is the number that is written: the session refuses one that names no kind.
    Gate { kind: u8, a: Net, b: Net, c: Net },
    Value { net: Net, code: u64, words: usize },
}

/// Why a line cannot be read.
#[derive(Clone, Copy, Debug)]
pub enum Unreadable {
    Call,
    Missing(&'static str),
    Wrong(&'static str),
    Extra,
}

impl fmt::Display for Unreadable {
    fn fmt<W: fmt::Write>(&self, f: &mut fmt::Formatter<W>) -> fmt::Result {
        match *self {
            Unreadable::Call => write!(f, "no such call; the calls are open, gate and value"),
            Unreadable::Missing(what) => write!(f, "{what} is missing"),
            Unreadable::Wrong(what) => write!(f, "{what} is not a number in range"),
            Unreadable::Extra => write!(f, "there are more words than the call takes"),
        }
    }
}

impl Error for Unreadable {}

impl FromStr for Command {
    type Err = Unreadable;

    /// The call of a line without comment.
    fn from_str(line: &str) -> Result<Self, Unreadable> {
        let mut words = line.split_whitespace();
        let command = match words.next() {
            Some("open") => open(&mut words)?,
            Some("gate") => gate(&mut words)?,
            Some("value") => value(&mut words)?,
            _ => return Err(Unreadable::Call),
        };
        match words.next() {
            Some(_) => Err(Unreadable::Extra),
            None => Ok(command),
        }
    }
}

fn open(words: &mut SplitWhitespace<'_>) -> Result<Command, Unreadable> {
    let inputs = number(words.next(), "the number of inputs")?;
    let places = number(words.next(), "the number of places")?;
    Ok(Command::Open {
        inputs: inputs as usize,
        places: places as usize,
    })
}

fn gate(words: &mut SplitWhitespace<'_>) -> Result<Command, Unreadable> {
    let kind = kind_number(words.next())?;
    let a = words.next().ok_or(Unreadable::Missing("operand a"))?;
    let a = Net(parsed(a, "a net")?);
    let b = operand(words.next())?;
    let c = operand(words.next())?;
    Ok(Command::Gate { kind, a, b, c })
}

/// An operand that is net 0 where it is left out.
fn operand(word: Option<&str>) -> Result<Net, Unreadable> {
    match word {
        Some(word) => Ok(Net(parsed(word, "an operand")?)),
        None => Ok(Net::FALSE),
    }
}

fn value(words: &mut SplitWhitespace<'_>) -> Result<Command, Unreadable> {
    let net = words.next().ok_or(Unreadable::Missing("the net"))?;
    let net = Net(parsed(net, "a net")?);
    let code = number(words.next(), "the code")?;
    let lent = match words.next() {
        Some(word) => number(Some(word), "the number of words")? as usize,
        None => MOST_WORDS,
    };
    Ok(Command::Value {
        net,
        code,
        words: lent,
    })
}

/// A word as a number of the type that is wanted.
fn parsed<T: FromStr>(word: &str, what: &'static str) -> Result<T, Unreadable>
where
    T::Err: Drop,
{
    word.parse::<T>().map_err(|_| Unreadable::Wrong(what))
}

/// A word that has to be there as a number in decimal, or in hexadecimal after 0x.
fn number(word: Option<&str>, what: &'static str) -> Result<u64, Unreadable> {
    let word = word.ok_or(Unreadable::Missing(what))?;
    match word.strip_prefix("0x") {
        Some(digits) => u64::from_str_radix(digits, 16).map_err(|_| Unreadable::Wrong(what)),
        None => parsed(word, what),
    }
}

/// The gate kinds by name.
const KINDS: [(&str, Kind); 9] = [
    ("and", Kind::And),
    ("or", Kind::Or),
    ("nand", Kind::Nand),
    ("nor", Kind::Nor),
    ("xor", Kind::Xor),
    ("xnor", Kind::Xnor),
    ("not", Kind::Not),
    ("buf", Kind::Buf),
    ("mux", Kind::Mux),
];

/// The number of a gate kind that is given by number or by name.
fn kind_number(word: Option<&str>) -> Result<u8, Unreadable> {
    let word = word.ok_or(Unreadable::Missing("the kind"))?;
    match KINDS.iter().find(|(name, _)| *name == word) {
        Some((_, kind)) => Ok(u8::from(*kind)),
        None => parsed(word, "the kind"),
    }
}
