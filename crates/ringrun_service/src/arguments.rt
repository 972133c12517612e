//! What the program's arguments ask for.

ghost use Rattle.std.specs.Prelude.{◌≡◌, IfErr, IfOk, IsErr, map, string_bytes};
ghost use Rattle.std.specs.Option.{SomeIff};
ghost use Rattle.std.specs.Str.Parse.{digits_value};
ghost use Rattle.ringrun_service.specs.Arguments.{AsksFor, IsCapacity, kind_of};

use crate::fault::Fault;

/// A kind of ring.
#[derive(Clone, Copy, Debug, PartialEq, Eq)]
pub enum Kind {
    /// A ring in an array, of a capacity that the program was built with.
    Array,
    /// A ring on the heap, of any capacity above zero.
    Heap,
    /// A growable ring, with room for `capacity` items at first.
    Grow,
}

/// The ring that the program's arguments ask for. The program may lack it.
#[derive(Clone, Copy, Debug, PartialEq, Eq)]
pub struct Arguments {
    pub kind: Kind,
    pub capacity: usize,
}

impl Arguments {
    /// Reads `KIND CAPACITY`, the words after the program's name.
    ///
    /// # Errors
    ///
    /// `BadArguments` where there are not two words, or one of them is no kind or no number.
    pub fn parse(words: &[String]) -> Result<Arguments, Fault>
        ensures ok { IfOk result (AsksFor (map string_bytes words.now)) }
        ensures err { IfErr result (λ fault. fault ≡ Fault.BadArguments) }
        ensures asks_for_none { IsErr result → (a : Arguments)
            → ¬ AsksFor (map string_bytes words.now) a }
    {
        let [kind, capacity] = words else {
            return Err(Fault::BadArguments);
        };
        match (parse_kind(kind.as_str()), parse_capacity(capacity.as_str())) {
            (Some(kind), Some(capacity)) => Ok(Arguments { kind, capacity }),
            _ => Err(Fault::BadArguments),
        }
    }
}

fn parse_kind(word: &str) -> Option<Kind>
    ensures { result ≡ kind_of word.now }
{
    match word {
        "array" => Some(Kind::Array),
        "heap" => Some(Kind::Heap),
        "grow" => Some(Kind::Grow),
        _ => None,
    }
}

/// A plus sign, which `parse` takes, is no digit.
fn parse_capacity(word: &str) -> Option<usize>
    ensures { SomeIff result (IsCapacity word.now) (digits_value 10 word.now) }
{
    if word.starts_with('+') {
        return None;
    }
    word.parse().ok()
}
