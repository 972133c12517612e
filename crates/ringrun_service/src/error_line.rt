//! The line that says a fault, made and written without memory.

ghost use Rattle.std.specs.Prelude.{◌≡◌, ◌≤◌, OnOk, Some, take};
ghost use Rattle.std.specs.Io.KnownBytes.{Appends};
ghost use Rattle.ringrun_service.specs.Fault.{Begins, line_of, status_of};

use crate::fault::Fault;
use std::io;
use std::io::{ErrorKind, Write};

/// The longest line names a line of the input by 20 digits.
const ROOM: usize = 64;

/// A line in the making.
#[derive(Drop)]
struct LineBuffer {
    bytes: [u8; ROOM],
    len: usize,
    ghost within: { len ≤ 64 },
}

impl Write for LineBuffer {
    ghost contents = { λ line. Some (take line.len line.bytes) };

    fn write(&mut self, buf: &[u8]) -> io::Result<usize> {
        let end = self.len + buf.len().min(ROOM - self.len);
        let count = end - self.len;
        self.bytes[self.len..end].copy_from_slice(&buf[..count]);
        self.len = end;
        Ok(count)
    }

    fn flush(&mut self) -> io::Result<()> {
        Ok(())
    }
}

/// Writes the line of `fault` to `errors`, where that takes one, and returns its status.
pub fn end<E: Write>(fault: Fault, errors: &mut E) -> u8
    ensures status { result ≡ status_of fault }
    ensures told { Begins (E.contents errors.old) (E.contents errors.new) (line_of fault) }
{
    let _ = tell(fault, errors);
    let _ = errors.flush();
    fault.status()
}

/// Writes the line of `fault` to `errors` as `write_all` would, which doesn't say what it wrote before an error.
///
/// # Errors
///
/// Where a write fails or takes nothing.
fn tell<E: Write>(fault: Fault, errors: &mut E) -> io::Result<()>
    ensures whole { OnOk result
        (Appends (E.contents errors.old) (E.contents errors.new) (line_of fault)) }
    ensures begun { Begins (E.contents errors.old) (E.contents errors.new) (line_of fault) }
{
    let mut line = LineBuffer {
        bytes: [0; ROOM],
        len: 0,
    };
    writeln!(line, "{fault}")?;
    let mut rest = &line.bytes[..line.len];
    // The loop has a bound since a writer might be interrupted for ever.
    for _ in 0..u64::MAX {
        if rest.is_empty() {
            return Ok(());
        }
        match errors.write(rest) {
            Ok(0) => return Err(io::Error::from(ErrorKind::WriteZero)),
            Ok(count) => rest = &rest[count..],
            Err(error) => {
                if error.kind() != ErrorKind::Interrupted {
                    return Err(error);
                }
            }
        }
    }
    Err(io::Error::from(ErrorKind::WriteZero))
}
