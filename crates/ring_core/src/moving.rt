//! Moving the items of one ring into another.

ghost use Rattle.std.specs.Prelude.{◌≡◌, [], ◌++◌, IfErr, IsOk, IsSome, OnOk, length};
ghost use Rattle.ring_core.specs.Contents.{Counts, keep_last};
ghost use Rattle.ring_core.specs.Extension.{MovesPart};

use crate::ring::RingBuffer;

/// Moves all items of `from` onto `to`, oldest first, and leaves `from` empty. What they overwrite is dropped. This call
/// is the library's own: the Rust crate has none like it.
///
/// # Errors
///
/// The item that `to` was refused memory for, which no ring with a limit meets. The items moved until then stay in `to`,
/// and the later ones stay in `from`.
pub fn move_all<T: Drop, A: RingBuffer<T>, B: RingBuffer<T>>(
    to: &mut A,
    from: &mut B,
) -> Result<(), T>
    ensures moved { OnOk result (A.contents to.new
        ≡ keep_last (A.limit to.old) (A.contents to.old ++ B.contents from.old)) }
    ensures emptied { OnOk result (B.contents from.new ≡ []) }
    ensures refused { IfErr result (MovesPart (A.contents to.old) (B.contents from.old)
        (A.contents to.new) (B.contents from.new)) }
    ensures succeeds { IsSome (A.limit to.old) → IsOk result }
    ensures limit_to { A.limit to.new ≡ A.limit to.old }
    ensures limit_from { B.limit from.new ≡ B.limit from.old }
    ensures changes_to { Counts A.limit A.contents A.slot_changes to.old to.new (length (B.contents from.old)) }
    ensures changes_from { Counts B.limit B.contents B.slot_changes from.old from.new 0 }
{
    // For the proof: the contents of `to` are within the limit.
    let _ = to.len();
    while let Some(item) = from.dequeue() {
        let overwritten = to.push(item)?;
        drop(overwritten);
    }
    Ok(())
}
