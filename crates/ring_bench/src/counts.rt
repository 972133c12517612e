//! How often slots are changed, at most, by some calls of a ring with a limit. Each is proved of any ring, from the
//! trait's contract alone.

ghost use Rattle.std.specs.Prelude.{◌≡◌, ◌+◌, ◌≤◌, [], ◌∷◌, ◌++◌, IsSome, Some, length};
ghost use Rattle.ringbuffer.specs.Contents.{ChangesSlots, keep_last};
ghost use Rattle.ringbuffer.specs.declared.Command.TheVariants.{Dequeue};

use ringbuffer::{Command, RingBuffer, run_into};
use std::alloc::Global;

/// Pushes three items onto a ring with a limit.
fn push_three<R: RingBuffer<u32>>(ring: &mut R, x: u32, y: u32, z: u32)
    requires { IsSome (R.limit ring.old) }
    ensures contents { R.contents ring.new
        ≡ keep_last (R.limit ring.old) (R.contents ring.old ++ x ∷ y ∷ z ∷ []) }
    ensures limit { R.limit ring.new ≡ R.limit ring.old }
    ensures changes { ChangesSlots (R.slot_changes ring.old) (R.contents ring.old)
        (R.slot_changes ring.new) (R.contents ring.new) 3 }
{
    let _ = ring.push(x);
    let _ = ring.push(y);
    let _ = ring.push(z);
}

/// Pushes five items onto an empty ring of three places, and takes one out after the second. The last push overwrites the
/// oldest item that is left.
pub fn push_round_a_dequeue<R: RingBuffer<u32>>(ring: &mut R) -> Option<u32>
    requires limit { R.limit ring.old ≡ Some 3 }
    requires empty { R.contents ring.old ≡ [] }
    ensures taken { result ≡ Some 0 }
    ensures contents { R.contents ring.new ≡ 2 ∷ 3 ∷ 4 ∷ [] }
    ensures changes { R.slot_changes ring.new ≤ R.slot_changes ring.old + 7 }
{
    let _ = ring.push(0);
    let _ = ring.push(1);
    let taken = ring.dequeue();
    push_three(ring, 2, 3, 4);
    taken
}

/// Pushes five items onto an empty ring of two places, and clears it after the second.
pub fn push_round_a_clear<R: RingBuffer<u32>>(ring: &mut R)
    requires limit { R.limit ring.old ≡ Some 2 }
    requires empty { R.contents ring.old ≡ [] }
    ensures contents { R.contents ring.new ≡ 3 ∷ 4 ∷ [] }
    ensures changes { R.slot_changes ring.new ≤ R.slot_changes ring.old + 8 }
{
    let _ = ring.push(0);
    let _ = ring.push(1);
    ring.clear();
    push_three(ring, 2, 3, 4);
}

/// Extends an empty ring of one place by three items.
pub fn extend_one_place<R: RingBuffer<u32>>(ring: &mut R)
    requires limit { R.limit ring.old ≡ Some 1 }
    requires empty { R.contents ring.old ≡ [] }
    ensures contents { R.contents ring.new ≡ 3 ∷ [] }
    ensures changes { R.slot_changes ring.new ≤ R.slot_changes ring.old + 5 }
{
    let _ = ring.extend([1, 2, 3]);
}

/// Runs no commands on a full ring of three places.
pub fn run_nothing<R: RingBuffer<u32>>(alloc: Global, ring: &mut R)
    requires limit { R.limit ring.old ≡ Some 3 }
    requires full { length (R.contents ring.old) ≡ 3 }
    ensures contents { R.contents ring.new ≡ R.contents ring.old }
    ensures changes { R.slot_changes ring.new ≡ R.slot_changes ring.old }
{
    let _ = run_into(ring, Vec::new(alloc), &mut []);
}

/// Runs four dequeues on a full ring of three places.
pub fn run_four_dequeues<R: RingBuffer<u32>>(ring: &mut R, commands: Vec<Command<u32>>)
    requires limit { R.limit ring.old ≡ Some 3 }
    requires full { length (R.contents ring.old) ≡ 3 }
    requires commands { commands.items ≡ Dequeue ∷ Dequeue ∷ Dequeue ∷ Dequeue ∷ [] }
    ensures contents { R.contents ring.new ≡ [] }
    ensures changes { R.slot_changes ring.new ≤ R.slot_changes ring.old + 3 }
{
    let mut replies = [None, None, None, None];
    let _ = run_into(ring, commands, &mut replies);
}

/// Pushes nine items onto an empty ring of five places, takes one out, and pushes two more: the items go round the slots.
pub fn push_round_the_slots<R: RingBuffer<u32>>(ring: &mut R) -> Option<u32>
    requires limit { R.limit ring.old ≡ Some 5 }
    requires empty { R.contents ring.old ≡ [] }
    ensures taken { result ≡ Some 4 }
    ensures contents { R.contents ring.new ≡ 6 ∷ 7 ∷ 8 ∷ 9 ∷ 10 ∷ [] }
    ensures changes { R.slot_changes ring.new ≤ R.slot_changes ring.old + 17 }
{
    push_three(ring, 0, 1, 2);
    push_three(ring, 3, 4, 5);
    push_three(ring, 6, 7, 8);
    let taken = ring.dequeue();
    let _ = ring.push(9);
    let _ = ring.push(10);
    taken
}
