//! A sliding window over samples, which knows the least and the greatest of them without a walk.

ghost use Rattle.std.specs.Prelude.{◌≡◌, ◌<◌, ◌≤◌, ◌≤ℤ◌, ◌↔◌, [], ◌∷◌, ◌++◌, All, Contains, IfSome, IsNone, Some, length};
ghost use Rattle.ringbuffer.specs.Contents.{keep_last};

use std::marker::Model;
use window::{ConstGenericWindowMax, ConstGenericWindowMin};

/// The last samples of a series, at most `N`, oldest first. It takes no memory of the heap.
#[derive(Drop)]
pub struct Window<const N: usize> {
    lows: ConstGenericWindowMin<i64, N>,
    highs: ConstGenericWindowMax<i64, N>,
}

impl<const N: usize> Model for Window<N> {
    ghost use Rattle.std.specs.Prelude.{◌≡◌, List, Some, ℤ};

    ghost Value = { List ℤ };

    ghost view = { λ w. w.lows.contents };

    ghost invariant = { λ w. (w.highs.contents ≡ w.lows.contents) × (w.lows.limit ≡ Some N) × (w.highs.limit ≡ Some N) };
}

impl<const N: usize> Window<N> {
    /// Makes a window that has seen no sample.
    pub fn new() -> Self
        requires { 0 < N }
        ensures { result ≡ [] }
    {
        Window {
            lows: ConstGenericWindowMin::in_array(),
            highs: ConstGenericWindowMax::in_array(),
        }
    }

    /// Takes in a sample. A full window forgets its oldest one.
    pub fn push(&mut self, sample: i64)
        ensures { self.new ≡ keep_last (Some N) (self.old ++ sample ∷ []) }
    {
        let _ = self.lows.push(sample);
        let _ = self.highs.push(sample);
    }

    /// Takes in a series of samples.
    pub fn extend(&mut self, series: &[i64])
        ensures { self.new ≡ keep_last (Some N) (self.old ++ series.now) }
    {
        // For the proof: the contents are within the limit.
        let _ = self.count();
        for sample in series {
            self.push(*sample);
        }
    }

    /// Returns how many samples the window holds.
    pub fn count(&self) -> usize
        ensures value { result ≡ length self.now }
        ensures within { result ≤ N }
    {
        self.lows.len()
    }

    /// Returns the least sample, or `None` before the first.
    pub fn least(&self) -> Option<i64>
        ensures none { IsNone result ↔ (self.now ≡ []) }
        ensures held { IfSome result (Contains self.now) }
        ensures least { IfSome result (λ least. All (λ sample. least ≤ℤ sample) self.now) }
    {
        let least = self.lows.min()?;
        Some(*least)
    }

    /// Returns the greatest sample, or `None` before the first.
    pub fn greatest(&self) -> Option<i64>
        ensures none { IsNone result ↔ (self.now ≡ []) }
        ensures held { IfSome result (Contains self.now) }
        ensures greatest { IfSome result (λ greatest. All (λ sample. sample ≤ℤ greatest) self.now) }
    {
        let greatest = self.highs.max()?;
        Some(*greatest)
    }
}
