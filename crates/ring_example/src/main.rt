//! Keeps the last three of four numbers, and prints what gave way and what is kept.
#![tactic(auto)]

ghost use Rattle.std.specs.Prelude.{◌≡◌, [], ◌∷◌, ◌++◌, Some};
ghost use Rattle.ringbuffer.specs.Contents.{keep_last, overwritten};

use ringbuffer::{ConstGenericRingBuffer, RingBuffer};
use std::io;

/// Keeps a number as the newest of at most three. Returns the oldest, if it gave way.
fn keep(numbers: &mut ConstGenericRingBuffer<u32, 3>, number: u32) -> Option<u32>
    ensures kept { numbers.new.items ≡ keep_last (Some 3) (numbers.old.items ++ number ∷ []) }
    ensures gave_way { result ≡ overwritten (Some 3) numbers.old.items }
{
    numbers.push(number).unwrap()
}

fn main(rt: HostRuntime) -> io::Result<()> {
    let mut numbers = ConstGenericRingBuffer::new();
    keep(&mut numbers, 15);
    keep(&mut numbers, 17);
    keep(&mut numbers, 16);
    let gave_way = keep(&mut numbers, 18);
    let newest = numbers.get_signed(-1).copied();

    let as_promised = gave_way == Some(15) && newest == Some(18);
    prove!(as_promised);
    println!(rt; "gave way {gave_way:?}, newest {newest:?}")?;
    for number in &numbers {
        println!(rt; "{number}")?;
    }
    Ok(())
}
