//! Scripts of commands for the program `ringrun`.

ghost use Rattle.std.specs.Prelude.{◌<◌};

use crate::random::Random;
use std::alloc::{AllocError, Global};

/// About how many bytes a script has. One of single items has half as many.
const SCRIPT: usize = 1 << 18;

/// How many numerals a script's numbers are taken from.
const NUMERALS: u32 = 2048;

/// What lines a script has.
#[derive(Clone, Copy, PartialEq)]
pub enum Shape {
    /// Pushes of numbers of 1 to 19 digits, some signed, a dequeue or skip for one line in five, extensions by up to 200
    /// numbers, blank lines, and lines that end as on Windows.
    Mixed,
    /// Pushes of numbers of 19 digits, and dequeues.
    LongNumbers,
    /// Extensions by one number, and dequeues.
    SingleItems,
    /// Mixed lines, and one at the end that is no command.
    BadEnd,
}

/// Numbers as texts, which scripts are made of, so that to make one takes little beside running it.
#[derive(Drop)]
pub struct Numerals {
    short: Vec<String>,
    long: Vec<String>,
}

impl Numerals {
    /// Makes new numerals.
    pub fn new(alloc: Global, random: &mut Random) -> Result<Numerals, AllocError> {
        let mut short = Vec::with_capacity(alloc, NUMERALS as usize)?;
        let mut long = Vec::with_capacity(alloc, NUMERALS as usize)?;
        for _ in 0..NUMERALS {
            let digits = 1 + random.below(19);
            short.push(numeral(alloc, random, digits)?)?;
            long.push(numeral(alloc, random, 19)?)?;
        }
        Ok(Numerals { short, long })
    }

    /// Returns a random one of the short numerals.
    fn short(&self, random: &mut Random) -> &str {
        match self.short.get(random.below(NUMERALS)) {
            Some(numeral) => numeral.as_str(),
            None => "0",
        }
    }

    /// Returns a random one of the long numerals.
    fn long(&self, random: &mut Random) -> &str {
        match self.long.get(random.below(NUMERALS)) {
            Some(numeral) => numeral.as_str(),
            None => "0",
        }
    }
}

/// Returns a number of so many digits, after a sign for one in four. The first digit of a long one is at most 8, so that
/// it is in range.
fn numeral(alloc: Global, random: &mut Random, digits: usize) -> Result<String, AllocError> {
    let mut text = String::new(alloc);
    if random.one_in(4) {
        text.push_str(if random.one_in(4) { "+" } else { "-" })?;
    }
    for at in 0..digits {
        let digit = if at == 0 {
            1 + random.below(8)
        } else {
            random.below(10)
        };
        write!(text, "{digit}")?;
    }
    Ok(text)
}

/// Writes a new script of this shape in place of the old one.
pub fn write_script(
    script: &mut Vec<u8>,
    random: &mut Random,
    numerals: &Numerals,
    shape: Shape,
) -> Result<(), AllocError> {
    script.clear();
    let most = match shape {
        Shape::SingleItems => SCRIPT / 2,
        _ => SCRIPT,
    };
    for _ in 0..most {
        if script.len() >= most {
            break;
        }
        match shape {
            Shape::Mixed | Shape::BadEnd => write_mixed_line(script, random, numerals)?,
            Shape::LongNumbers => {
                let number = numerals.long(random);
                write_line(script, random, "push ", number)?;
            }
            Shape::SingleItems => {
                let number = numerals.short(random);
                write_line(script, random, "extend ", number)?;
            }
        }
    }
    if shape == Shape::BadEnd {
        script.extend_from_slice(b"push 1 2\n")?;
    }
    Ok(())
}

/// Writes words and a number, or for one line in five a dequeue.
fn write_line(
    script: &mut Vec<u8>,
    random: &mut Random,
    words: &str,
    number: &str,
) -> Result<(), AllocError> {
    if random.one_in(5) {
        return script.extend_from_slice(b"dequeue\n");
    }
    script.extend_from_slice(words.as_bytes())?;
    script.extend_from_slice(number.as_bytes())?;
    script.extend_from_slice(b"\n")
}

/// Writes one of the lines that most scripts have.
fn write_mixed_line(
    script: &mut Vec<u8>,
    random: &mut Random,
    numerals: &Numerals,
) -> Result<(), AllocError> {
    match random.below(200) {
        0..30 => script.extend_from_slice(b"dequeue\n"),
        30..40 => script.extend_from_slice(b"skip\n"),
        40..42 => write_extension(script, random, numerals),
        42..46 => script.extend_from_slice(b"\n"),
        46..48 => script.extend_from_slice(b"  dequeue\t\r\n"),
        48 => script.extend_from_slice(b"clear\n"),
        49..60 => {
            script.extend_from_slice(b"push ")?;
            script.extend_from_slice(numerals.short(random).as_bytes())?;
            script.extend_from_slice(b"\r\n")
        }
        _ => {
            script.extend_from_slice(b"push ")?;
            script.extend_from_slice(numerals.short(random).as_bytes())?;
            script.extend_from_slice(b"\n")
        }
    }
}

/// Writes an extension by up to 200 numbers.
fn write_extension(
    script: &mut Vec<u8>,
    random: &mut Random,
    numerals: &Numerals,
) -> Result<(), AllocError> {
    script.extend_from_slice(b"extend")?;
    for _ in 0..random.below(201) {
        script.extend_from_slice(b" ")?;
        script.extend_from_slice(numerals.short(random).as_bytes())?;
    }
    script.extend_from_slice(b"\n")
}
