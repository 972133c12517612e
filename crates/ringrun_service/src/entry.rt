//! The program's entry, and the status that it ends with.

ghost use Rattle.std.specs.Prelude.{◌≡◌, ◌≢◌, ◌<◌, ◌↔◌, IfErr, IfOk, IsErr, map, string_bytes};
ghost use Rattle.std.specs.IoError.{error_kind};
ghost use Rattle.std.specs.Process.{exit_status};
ghost use Rattle.ringrun_service.specs.Arguments.{NamesRing};
ghost use Rattle.ringrun_service.specs.Program.{Answers, Tells};

use crate::error_line::end;
use crate::fault::Fault;
use crate::service::serve;
use std::alloc::Global;
use std::io;
use std::io::{Eprint, ErrorKind, Read, Write};
use std::process::{ExitCode, Termination};

/// Serves `words`, the program's arguments after its name. Where they can't be had, memory was refused or one is no text, which
/// is a bad argument.
pub fn run<I: Read, O: Write, E: Write>(
    alloc: Global,
    words: io::Result<Vec<String>>,
    input: &mut I,
    output: &mut O,
    errors: &mut E,
) -> Status
    ensures done { result.code ≡ 0 → IfOk words (λ words. Answers (map string_bytes words.items)
        (I.remaining input.old) (O.contents output.old) (O.contents output.new)) }
    ensures told { 0 < result.code → Tells result.code (I.remaining input.old)
        (E.contents errors.old) (E.contents errors.new) }
    ensures unwritten { 0 < result.code → result.code < 4 → output.new ≡ output.old }
    ensures arguments { IfOk words
        (λ words. (result.code ≡ 2) ↔ (¬ NamesRing (map string_bytes words.items))) }
    ensures refused { IfErr words
        (λ error. error_kind error ≡ ErrorKind.OutOfMemory → result.code ≡ 3) }
    ensures no_text { IfErr words
        (λ error. error_kind error ≢ ErrorKind.OutOfMemory → result.code ≡ 2) }
    ensures idle { IsErr words → (input.new ≡ input.old) × (output.new ≡ output.old) }
{
    let code = match words {
        Ok(words) => serve(alloc, words.as_slice(), input, output, errors),
        Err(error) => end(Fault::from_error(&error, Fault::BadArguments), errors),
    };
    Status { code }
}

/// The status that the program ends with. Only `run` makes one, so a `main` that returns one ends with what `run` returned.
#[derive(Clone, Copy, Debug, PartialEq, Eq)]
pub struct Status {
    code: u8,
}

impl Termination for Status {
    fn report<R: Eprint>(self, _rt: &R) -> ExitCode
        ensures { exit_status result ≡ self.code }
    {
        ExitCode::from(self.code)
    }
}
