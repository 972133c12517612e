//! What the answers of windows come to for a caller, by the laws that `window` states.

ghost use Rattle.std.specs.Prelude.{◌≡◌, ◌-◌, ◌+ℤ◌, ◌-ℤ◌, ◌^◌, ◌≤◌, T, ℤ, All, Contains, IfSome, IsSome, List, filter, map, nat_le, option_to_list, sum_by, unsigned_abs};
ghost use Rattle.std.specs.Float.{binary64, nan};
ghost use Rattle.std.specs.Float.Ieee.{eq, of_int};
ghost use Rattle.std.specs.List.Sorted.{IsNonDecreasingBy};
ghost use Rattle.ringbuffer.specs.Contents.{overwritten};
ghost use Rattle.window.specs.Least.{AtMost};
ghost use Rattle.window.specs.Sums.{total};

use ringbuffer::RingBuffer;
use window::{Candidate, Stamped, Summand, WindowFloatSum, WindowMax, WindowSum, WindowTime};

/// Returns the greatest item: one that the window holds, which none is above.
pub fn greatest<T: Ord + Drop, R: RingBuffer<Candidate<T>>>(items: &WindowMax<T, R>) -> Option<&T>
    ensures held { IfSome result (λ x. Contains items.now.contents x.now) }
    ensures none_above { IfSome result (λ x. All (λ y. AtMost T.cmp y x.now) items.now.contents) }
{
    items.max()
}

/// Takes in a sample. Returns the sum, which is that before and the sample, less the one that gave way.
pub fn sum_with<R: RingBuffer<i64>>(samples: &mut WindowSum<R>, sample: i64) -> i128
    requires { IsSome samples.old.limit }
    ensures { result ≡ total samples.old.contents +ℤ sample -ℤ total
        (option_to_list (overwritten samples.old.limit samples.old.contents)) }
{
    // For the proof: the contents are within the limit.
    let _ = samples.len();
    let _ = samples.push(sample);
    samples.sum()
}

/// Drops the events that came more than the span before `now`. Where stamps never fall, those that are left are all the
/// recent ones.
pub fn keep_recent<T: Drop, R: RingBuffer<Stamped<T>>>(events: &mut WindowTime<T, R>, now: u64)
    requires { IsNonDecreasingBy (λ x. x.stamp) events.old.contents }
    ensures { events.new.contents
        ≡ filter (λ x. nat_le (now - events.old.span) x.stamp) events.old.contents }
{
    let _ = events.advance(now);
}

/// Returns the sum of floating-point samples, which is exact where they are whole numbers whose sizes add up to at most
/// 2^53.
pub fn whole_sum<R: RingBuffer<Summand>>(samples: &WindowFloatSum<R>) -> f64
    ensures exact { (ns : List ℤ) → samples.now.contents ≡ map (of_int binary64) ns → sum_by unsigned_abs ns ≤ 2 ^ 53
        → T (eq result (of_int binary64 (total ns))) }
    ensures nan { Contains samples.now.contents nan → result ≡ nan }
{
    samples.sum()
}
