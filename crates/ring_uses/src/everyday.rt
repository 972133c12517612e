//! The lines that a user writes first, on each ring type and in generic code.

ghost use Rattle.std.specs.Prelude.{◌≡◌, ℕ, ◌%◌, ◌+◌, ◌-◌, ◌/◌, ◌<◌, ◌≤◌, ◌^◌, [], ◌∷◌, ◌++◌, All, IfErr, IfOk, IfSome, IsSome, OnErr, OnOk, Some, drop, false, filter, length, map, nat_eq, nat_le, nat_lt, reverse, replicate, slice_get, slice_index, string_bytes, sum, take};
ghost use Rattle.std.specs.Cmp.Lexicographic.{pointwise};
ghost use Rattle.std.specs.Io.BufRead.{drop_through, take_through};
ghost use Rattle.std.specs.List.{list_any, prefix_len, remove_range};
ghost use Rattle.std.specs.List.Sorted.{IsNonDecreasing};
ghost use Rattle.ringbuffer.specs.Contents.{AppendsCut, keep_last};

use ringbuffer::{
    AllocRingBuffer, ConstGenericRingBuffer, CopyRingBuffer, DoubleEndedRingExt,
    GrowableAllocRingBuffer, RingBuffer, RingBufferExt, RingBufferMutIterator, binary_search,
    move_all, partition_point,
};
use std::alloc::{AllocError, Global};
use std::io::{self, BufRead};

/// Two rings in one value, which is cloned as a whole.
#[derive(Clone, Drop)]
pub struct BothWays {
    pub sent: AllocRingBuffer<u32>,
    pub received: ConstGenericRingBuffer<u32, 4>,
}

/// What happened at a time.
#[derive(Drop)]
pub struct Event {
    pub time: u64,
    pub code: u32,
}

/// Returns the newest and the oldest of the last two numbers of 5, 42 and 1.
pub fn newest_and_oldest() -> (Option<u32>, Option<u32>)
    ensures { result ≡ (Some 1, Some 42) }
{
    let mut ring = ConstGenericRingBuffer::<u32, 2>::new();
    let _ = ring.push(5);
    let _ = ring.push(42);
    let _overwritten = ring.push(1); // Ok(Some(5))
    let newest = ring.get_signed(-1).copied();
    let oldest = ring.dequeue();
    (newest, oldest)
}

/// Makes a ring of plain items that holds 5.
pub fn plain_five() -> CopyRingBuffer<u32, 2>
    ensures { result.items ≡ 5 ∷ [] }
{
    let mut ring = CopyRingBuffer::<u32, 2>::new(0);
    let _ = ring.push(5);
    ring
}

/// Makes a heap ring of two numbers.
pub fn pair(alloc: Global, x: u32, y: u32) -> Result<AllocRingBuffer<u32>, AllocError>
    ensures { IfOk result (λ ring. ring.items ≡ x ∷ y ∷ []) }
{
    let mut ring = AllocRingBuffer::new(alloc, 2)?;
    let _ = ring.push(x);
    let _ = ring.push(y);
    Ok(ring)
}

/// Pushes a number onto a ring that has a limit, which then holds it last.
pub fn push_and_read_back<R: RingBuffer<u32>>(ring: &mut R, x: u32) -> u32
    requires { IsSome (R.limit ring.old) }
    ensures { result ≡ x }
{
    let _ = ring.push(x);
    *ring.back().unwrap()
}

/// Pushes a number onto a heap ring, and returns the oldest that it holds then.
pub fn push_and_read_oldest(ring: &mut AllocRingBuffer<u32>, x: u32) -> u32
    ensures { Some result ≡ slice_get ring.new.items 0 }
{
    let _ = ring.push(x);
    *ring.front().unwrap()
}

/// Counts the bytes of a heap ring by a walk.
pub fn count(ring: &AllocRingBuffer<u8>) -> usize
    ensures { result ≡ length ring.now.items }
{
    ring.iter().count()
}

/// Hands a job back if the ring with a limit is full, and else takes it in.
pub fn queue_job<T: Drop, R: RingBuffer<T>>(queue: &mut R, job: T) -> Result<(), T>
    requires { IsSome (R.limit queue.old) }
    ensures taken { OnOk result (R.contents queue.new ≡ R.contents queue.old ++ job ∷ []) }
    ensures refused { IfErr result (λ back. (back ≡ job) × (queue.new ≡ queue.old)) }
{
    if queue.is_full() {
        return Err(job);
    }
    let _ = queue.push(job);
    Ok(())
}

/// Hands a job back if the queue is full, and else takes it in, by one call.
pub fn submit(queue: &mut AllocRingBuffer<u32>, job: u32) -> Result<(), u32>
    ensures taken { OnOk result (queue.new.items ≡ queue.old.items ++ job ∷ []) }
    ensures refused { IfErr result (λ back. (back ≡ job) × (queue.new ≡ queue.old)) }
{
    queue.try_push(job)
}

/// Drops three jobs after the first two.
pub fn cancel_three(ring: &mut AllocRingBuffer<u32>)
    requires { 5 ≤ length ring.old.items }
    ensures { ring.new.items ≡ take 2 ring.old.items ++ drop 5 ring.old.items }
{
    ring.remove_range(2..5);
}

/// Returns whether the readings are 1 and then 2.
pub fn is_one_two<R: RingBuffer<u32>>(ring: &R) -> bool
    ensures { result ≡ pointwise nat_eq (R.contents ring.now) (1 ∷ 2 ∷ []) }
{
    ring.eq_slice(&[1, 2])
}

/// Returns whether a reading is above a limit.
pub fn has_above<R: RingBuffer<u32>>(readings: &R, limit: u32) -> bool
    ensures { result ≡ list_any (λ x. nat_lt limit x) (R.contents readings.now) }
{
    readings.iter().any(|x| *x > limit)
}

/// Adds up the costs.
pub fn total_cost<R: RingBuffer<u64>>(costs: &R) -> u64
    requires { sum (R.contents costs.now) < 2 ^ 64 }
    ensures { result ≡ sum (R.contents costs.now) }
{
    let mut total = 0;
    for cost in costs.iter() {
        total += *cost;
    }
    total
}

/// Sets each sample to zero.
pub fn silence(samples: &mut AllocRingBuffer<u32>)
    ensures silent { All (λ x. x ≡ 0) samples.new.items }
    ensures length { length samples.new.items ≡ length samples.old.items }
{
    for i in 0..samples.len() {
        samples[i] = 0;
    }
}

/// Adds one to each item by a cursor, wrapping at the type's end.
pub fn increment_each<R: RingBuffer<u32>>(ring: &mut R)
    ensures contents { R.contents ring.new ≡ map (λ x. (x + 1) % (2 ^ 32)) (R.contents ring.old) }
    ensures limit { R.limit ring.new ≡ R.limit ring.old }
{
    let mut walk = RingBufferMutIterator::new(ring);
    while let Some(item) = walk.next() {
        *item = item.wrapping_add(1);
    }
}

/// Halves each reading.
pub fn halve<R: RingBuffer<u32>>(readings: &mut R)
    ensures { R.contents readings.new ≡ map (λ x. x / 2) (R.contents readings.old) }
{
    readings.map_each(|x| *x / 2);
}

/// Drops the readings above a limit.
pub fn drop_above(readings: &mut AllocRingBuffer<u32>, limit: u32)
    ensures { readings.new.items
        ≡ filter (λ reading. nat_le reading limit) readings.old.items }
{
    readings.retain(|reading| *reading <= limit).unwrap();
}

/// Drops the oldest events up to the first that isn't before a time.
pub fn forget_before(events: &mut AllocRingBuffer<Event>, time: u64)
    ensures { events.new.items
        ≡ drop (prefix_len (λ event. nat_lt event.time time) events.old.items) events.old.items }
{
    let _ = events.dequeue_while(|event| event.time < time);
}

/// Drops the oldest times up to the first that isn't before a time, which is then the oldest.
pub fn drop_before<R: RingBuffer<u64>>(times: &mut R, time: u64)
    ensures { IfSome (slice_get (R.contents times.new) 0) (λ first. nat_lt first time ≡ false) }
{
    let _ = times.dequeue_while(|t| *t < time);
}

/// Finds a time among times that rise, or the index at which it would have to be inserted.
pub fn find_time<R: RingBuffer<u64>>(times: &R, time: u64) -> Result<usize, usize>
    requires { IsNonDecreasing (R.contents times.now) }
    ensures found { IfOk result (λ i. slice_index (R.contents times.now) i ≡ time) }
    ensures before { IfErr result (λ i. (k : ℕ) → k < i → slice_index (R.contents times.now) k < time) }
    ensures behind { IfErr result (λ i. (k : ℕ) → i ≤ k → k < length (R.contents times.now)
        → time < slice_index (R.contents times.now) k) }
{
    binary_search(times, &time)
}

/// Counts the times before a given one, among times that rise.
pub fn count_before<R: RingBuffer<u64>>(times: &R, time: u64) -> usize
    requires { IsNonDecreasing (R.contents times.now) }
    ensures before { (k : ℕ) → k < result → slice_index (R.contents times.now) k < time }
    ensures behind { (k : ℕ) → result ≤ k → k < length (R.contents times.now)
        → time ≤ slice_index (R.contents times.now) k }
{
    partition_point(times, |t| *t < time)
}

/// Fills a ring that has a limit with sevens, which is never refused.
pub fn fill_with_sevens<R: RingBuffer<u32>>(ring: &mut R)
    requires { IsSome (R.limit ring.old) }
    ensures { IfSome (R.limit ring.old) (λ n. R.contents ring.new ≡ replicate n 7) }
{
    ring.fill(7).unwrap();
}

/// Keeps a copy of an array ring of numbers in another ring, which is never refused.
pub fn keep_copy(ring: &ConstGenericRingBuffer<u32, 4>, kept: &mut ConstGenericRingBuffer<u32, 4>)
    ensures { kept.new.items ≡ ring.now.items }
{
    ring.clone_into(kept).unwrap();
}

/// Reverses the order of the items of a ring of plain items.
pub fn turn_round<const CAP: usize>(ring: &mut CopyRingBuffer<u32, CAP>)
    ensures { ring.new.items ≡ reverse ring.old.items }
{
    ring.make_contiguous().reverse();
}

/// Appends numbers to a growable ring. Where memory was refused the old items stay, and a beginning of the numbers.
pub fn append_numbers(
    ring: &mut GrowableAllocRingBuffer<u32>,
    numbers: Vec<u32>,
) -> Result<(), AllocError>
    ensures all { OnOk result (ring.new ≡ ring.old ++ numbers.items) }
    ensures part { OnErr result (AppendsCut ring.old numbers.items ring.new) }
{
    ring.extend(numbers)
}

/// Pushes a block of samples onto any ring with a limit.
pub fn push_block<R: RingBuffer<i16>>(samples: &mut R, block: &[i16])
    requires { IsSome (R.limit samples.old) }
    ensures { R.contents samples.new
        ≡ keep_last (R.limit samples.old) (R.contents samples.old ++ block.now) }
{
    samples.extend_from_slice(block).unwrap();
}

/// Moves the items of a heap ring into an array ring, which keeps the last four of both.
pub fn heap_into_array(to: &mut ConstGenericRingBuffer<u32, 4>, from: &mut AllocRingBuffer<u32>)
    ensures moved { to.new.items ≡ keep_last (Some 4) (to.old.items ++ from.old.items) }
    ensures emptied { from.new.items ≡ [] }
{
    let _ = move_all(to, from);
}

/// Takes all numbers out of a heap ring by a drain.
pub fn empty(alloc: Global, ring: &mut AllocRingBuffer<u32>) -> Result<Vec<u32>, AllocError>
    ensures { IfOk result (λ taken. taken.items ≡ ring.old.items) }
{
    ring.drain().collect(alloc)
}

/// Takes out what any ring holds. Where memory was refused, it stays.
pub fn flush<R: RingBuffer<u32>>(alloc: Global, ring: &mut R) -> Result<Vec<u32>, AllocError>
    ensures taken { IfOk result (λ v. v.items ≡ R.contents ring.old) }
    ensures emptied { OnOk result (R.contents ring.new ≡ []) }
    ensures refused { OnErr result (R.contents ring.new ≡ R.contents ring.old) }
{
    ring.take_all(alloc)
}

/// Takes the jobs from an index on out of a queue on the heap.
pub fn split_queue(
    alloc: Global,
    queue: &mut AllocRingBuffer<String>,
    at: usize,
) -> Result<Vec<String>, AllocError>
    requires { at ≤ length queue.old.items }
    ensures later { IfOk result (λ v. v.items ≡ drop at queue.old.items) }
    ensures sooner { OnOk result (queue.new.items ≡ take at queue.old.items) }
{
    queue.split_off(at, alloc)
}

/// Takes three items out of the middle of a growable ring.
pub fn cut_three(
    alloc: Global,
    ring: &mut GrowableAllocRingBuffer<String>,
) -> Result<Vec<String>, AllocError>
    ensures cut { IfOk result (λ v. v.items ≡ drop 2 (take 5 ring.old)) }
    ensures rest { OnOk result (ring.new ≡ remove_range ring.old 2 5) }
{
    ring.drain_range(2..5, alloc)
}

/// Lists a page of a ring's items, of those at the indexes from `from` up to `to`.
pub fn page(
    alloc: Global,
    ring: &AllocRingBuffer<u32>,
    from: usize,
    to: usize,
) -> Result<Vec<u32>, AllocError>
    ensures { IfOk result (λ page. page.items ≡ drop from (take to ring.now.items)) }
{
    ring.range(from..to).copied().collect(alloc)
}

/// Takes the next line out of a ring of bytes, with its end.
pub fn take_line(bytes: &mut AllocRingBuffer<u8>, alloc: Global) -> io::Result<String>
    ensures line { IfOk result (λ line. string_bytes line ≡ take_through 10 bytes.old.items) }
    ensures rest { OnOk result (bytes.new.items ≡ drop_through 10 bytes.old.items) }
{
    let mut line = String::new(alloc);
    bytes.read_line(&mut line)?;
    Ok(line)
}
