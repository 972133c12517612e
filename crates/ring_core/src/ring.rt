//! The trait that every ring buffer implements.

ghost use Rattle.std.specs.Prelude.{◌≡◌, ℕ, ◌+◌, ◌-◌, ◌<◌, ◌≤◌, ◌↔◌, ◌++◌, List, [], drop, false, filter, length, map, min, replicate, take, All, IfErr, IfOk, IfSome, IsNone, IsOk, IsSome, IsTrue, OnErr, OnOk, Option, slice_get, slice_set};
ghost use Rattle.std.specs.Borrow.{LendsIf, sem};
ghost use Rattle.std.specs.Cmp.Lexicographic.{pointwise};
ghost use Rattle.std.specs.Fn.{CalledAt};
ghost use Rattle.std.specs.Iterator.{IsFiniteIterable};
ghost use Rattle.std.specs.List.{AllZip, FoldsTo, IsAnyAnswer, list_any, prefix_len};
ghost use Rattle.std.specs.List.Retain.{IsFiltered};
ghost use Rattle.std.specs.Option.{option_copied, option_copied_mut};
ghost use Rattle.ring_core.specs.Contents.{Counts, IsInRange, IsWithin, Pushes, index_at, index_in_range, keep_last, signed_index_at};
ghost use Rattle.ring_core.specs.Extension.{ClonesOut, Extends, ExtendsByClones};
ghost use Rattle.ring_core.specs.Filtering.{FiltersPart, PassesFirst};
ghost use Rattle.ring_core.specs.Mapping.{ByMap, MapsEach};

use std::alloc::{AllocError, Global};

/// A ring buffer: items in the order of their pushes, oldest first, within the ring's limit if it has one.
///
/// With a limit, as in `ConstGenericRingBuffer` and `AllocRingBuffer`, a push onto a full ring takes out the oldest item
/// and hands it back, and no push is refused. Without one, as in `GrowableAllocRingBuffer`, a push may be refused for
/// want of memory.
///
/// A contract sees a ring as its contents, its limit and, with a limit, the number of times that a slot was changed.
/// A position is taken modulo the length, and the remainder is never negative: 0 is the oldest item, -1 the newest.
pub trait RingBuffer<T: Drop>: Sized {
    // The items, oldest first.
    ghost contents: { Self → List T };

    // The most items that the ring holds, if there is such a number. No call of this trait changes it.
    ghost limit: { Self → Option ℕ };

    // The ring with the item at an index replaced.
    ghost with_item: { Self → ℕ → T → Self };

    // How often slots were changed. Nothing is said of it for a ring without a limit.
    ghost slot_changes: { Self → ℕ } = { λ _. 0 };

    /// Returns the number of items in the ring.
    fn len(&self) -> usize
        ensures value { result ≡ length (contents self.now) }
        ensures within { IsWithin (contents self.now) (limit self.now) };

    /// Returns whether the ring holds no item.
    fn is_empty(&self) -> bool
        ensures { IsTrue result ↔ (contents self.now ≡ []) }
    {
        self.len() == 0
    }

    /// Returns whether the ring holds as many items as `capacity` says. The next push onto a full ring takes out the
    /// oldest item if the ring has a limit, and may ask for memory if it has none.
    ///
    /// ```rust
    /// if queue.is_full() {
    ///     return Err(job);
    /// }
    /// ```
    fn is_full(&self) -> bool
        ensures value { IfSome (limit self.now)
            (λ n. IsTrue result ↔ (length (contents self.now) ≡ n)) }
        ensures within { IsWithin (contents self.now) (limit self.now) }
    {
        self.len() == self.capacity()
    }

    /// Returns the limit of a ring that has one. A ring without a limit returns how many items its memory has room for,
    /// of which a contract says only that it is no less than the length.
    fn capacity(&self) -> usize
        ensures value { IfSome (limit self.now) (λ n. result ≡ n) }
        ensures holds { length (contents self.now) ≤ result }
        ensures within { IsWithin (contents self.now) (limit self.now) };

    /// Returns the number of items that the ring's memory has room for, which may be more than its capacity.
    fn buffer_size(&self) -> usize
        ensures room { IfSome (limit self.now) (λ n. n ≤ result) }
        ensures holds { length (contents self.now) ≤ result };

    /// Puts the item last. A ring that is at its limit hands back its oldest item, which gave way for it.
    ///
    /// ```rust
    /// let _ = ring.push(42);
    /// let _overwritten = ring.push(1); // Ok(Some(5))
    /// ```
    ///
    /// # Errors
    ///
    /// Hands `item` back where memory was refused, which no ring with a limit meets.
    fn push(&mut self, item: T) -> Result<Option<T>, T>
        ensures { Pushes limit contents slot_changes self.old self.new item result };

    /// Calls `push`.
    ///
    /// # Errors
    ///
    /// As `push`.
    fn enqueue(&mut self, item: T) -> Result<Option<T>, T>
        ensures { Pushes limit contents slot_changes self.old self.new item result }
    {
        self.push(item)
    }

    /// Pushes the items of a source that ends, in order. What they overwrite is dropped. Takes O(n) in the new items.
    ///
    /// ```rust
    /// ring.extend(numbers)
    /// ```
    ///
    /// # Errors
    ///
    /// Where memory was refused, which no ring with a limit meets. The items pushed until then stay, and the one that
    /// was refused is dropped with the rest of the source.
    fn extend<I: IntoIterator<Item = T>>(&mut self, items: I) -> Result<(), AllocError>
    where
        I::IntoIter: Drop,
        requires { IsFiniteIterable I.into_iter_gives I.IntoIter.can_next I.IntoIter.remaining
            items }
        ensures extends { Extends I.into_iter_gives I.IntoIter.next_gives items (limit self.old)
            (contents self.old) (contents self.new) (slot_changes self.old)
            (slot_changes self.new) result }
        ensures limit { limit self.new ≡ limit self.old }
        ensures succeeds { IsSome (limit self.old) → IsOk result };

    /// Pushes clones of a slice's items, in order. Items that later ones would overwrite may be passed over. Takes O(n) in
    /// those that are pushed.
    ///
    /// ```rust
    /// samples.extend_from_slice(block).unwrap();
    /// ```
    ///
    /// # Errors
    ///
    /// Where a clone was refused or, on a ring without a limit, memory was. The clones pushed until then stay.
    fn extend_from_slice(&mut self, items: &[T]) -> Result<(), AllocError>
    where
        T: Clone,
        ensures extends { ExtendsByClones T.is_clone (limit self.old) items.now (contents self.old) (contents self.new) result }
        ensures items_if_clones_equal { ((x y : T) → T.is_clone x y → y ≡ x)
            → OnOk result (contents self.new ≡ keep_last (limit self.old) (contents self.old ++ items.now)) }
        ensures succeeds { IsSome (limit self.old) → ((x : T) → T.is_infallible x) → IsOk result }
        ensures limit { limit self.new ≡ limit self.old }
        ensures changes { Counts limit contents slot_changes self.old self.new (length items.now) }
    {
        // For the proof: the contents are within the limit.
        let _ = self.len();
        for item in items {
            if let Err(_) = self.push(item.clone()?) {
                return Err(AllocError);
            }
        }
        Ok(())
    }

    /// Takes out the oldest item.
    ///
    /// ```rust
    /// let oldest = ring.dequeue();
    /// ```
    fn dequeue(&mut self) -> Option<T>
        ensures value { result ≡ slice_get (contents self.old) 0 }
        ensures rest { contents self.new ≡ drop 1 (contents self.old) }
        ensures limit { limit self.new ≡ limit self.old }
        ensures changes { Counts limit contents slot_changes self.old self.new 0 };

    /// Drops the oldest item. Does nothing to an empty ring.
    fn skip(&mut self)
        ensures rest { contents self.new ≡ drop 1 (contents self.old) }
        ensures limit { limit self.new ≡ limit self.old }
        ensures changes { Counts limit contents slot_changes self.old self.new 0 }
    {
        let _ = self.dequeue();
    }

    /// Drops all items. Takes O(n).
    fn clear(&mut self)
        ensures empty { contents self.new ≡ [] }
        ensures limit { limit self.new ≡ limit self.old }
        ensures changes { Counts limit contents slot_changes self.old self.new 0 };

    /// Drops all items, and then pushes as many results of `make` as `capacity` said before. An item counts as held
    /// only after it is stored. Takes O(n), as the other fills do.
    ///
    /// # Errors
    ///
    /// Where memory was refused, which no ring with a limit meets. The results pushed until then stay.
    fn fill_with<F: FnMut() -> T + Drop>(&mut self, make: F) -> Result<(), AllocError>
        requires { F.IsAlwaysCallable make }
        ensures made { (last : F) × FoldsTo F.step make (contents self.new) last }
        ensures full { IfSome (limit self.old) (λ n. length (contents self.new) ≡ n) }
        ensures limit { limit self.new ≡ limit self.old }
        ensures changes { Counts limit contents slot_changes self.old self.new (length (contents self.new)) }
        ensures succeeds { IsSome (limit self.old) → IsOk result };

    /// Fills the ring with default values, as `fill_with` does.
    ///
    /// # Errors
    ///
    /// As `fill_with`.
    fn fill_default(&mut self) -> Result<(), AllocError>
    where
        T: Default,
        ensures items { All T.is_default (contents self.new) }
        ensures full { IfSome (limit self.old) (λ n. length (contents self.new) ≡ n) }
        ensures limit { limit self.new ≡ limit self.old }
        ensures changes { Counts limit contents slot_changes self.old self.new (length (contents self.new)) }
        ensures succeeds { IsSome (limit self.old) → IsOk result }
    {
        self.fill_with(|| T::default())
    }

    /// Drops all items, and then pushes as many clones of `value` as `capacity` said before. The value itself is dropped.
    ///
    /// # Errors
    ///
    /// Where a clone was refused or, on a ring without a limit, memory was. The clones pushed until then stay.
    fn fill(&mut self, value: T) -> Result<(), AllocError>
    where
        T: Clone,
        ensures items { All (T.is_clone value) (contents self.new) }
        ensures full { OnOk result (IfSome (limit self.old) (λ n. length (contents self.new) ≡ n)) }
        ensures short { OnErr result
            (IfSome (limit self.old) (λ n. length (contents self.new) < n)) }
        ensures items_if_clones_equal { ((x y : T) → T.is_clone x y → y ≡ x) → OnOk result
            (IfSome (limit self.old) (λ n. contents self.new ≡ replicate n value)) }
        ensures succeeds { IsSome (limit self.old) → T.is_infallible value → IsOk result }
        ensures limit { limit self.new ≡ limit self.old }
        ensures changes { Counts limit contents slot_changes self.old self.new (length (contents self.new)) }
    {
        self.clear();
        for _ in 0..self.capacity() {
            if let Err(_) = self.push(value.clone()?) {
                return Err(AllocError);
            }
        }
        Ok(())
    }

    /// Keeps the items for which `keep` returns `true`, in order, and drops the others. It asks about each item once, oldest
    /// first. A kept item counts as two slot changes at most, and a dropped one as one. Takes O(n). This call is the
    /// library's own: the Rust crate has none like it.
    ///
    /// ```rust
    /// readings.retain(|reading| *reading <= limit).unwrap();
    /// ```
    ///
    /// # Errors
    ///
    /// The item that memory was refused for, which no ring type of this library meets. Those after it are then the oldest,
    /// and those kept before it the newest.
    fn retain<F: FnMut(&T) -> bool>(&mut self, mut keep: F) -> Result<(), T>
        requires { F.IsAlwaysCallable keep }
        ensures filtered { OnOk result
            (IsFiltered (CalledAt F.FnMut) keep (contents self.old) (contents self.new)) }
        ensures value { OnOk result (ByMap (CalledAt F.FnMut) keep
            (λ keeps. contents self.new ≡ filter keeps (contents self.old))) }
        ensures refused { IfErr result
            (FiltersPart (CalledAt F.FnMut) keep (contents self.old) (contents self.new)) }
        ensures succeeds { IsSome (limit self.old) → IsOk result }
        ensures limit { limit self.new ≡ limit self.old }
        ensures changes { Counts limit contents slot_changes self.old self.new (length (contents self.new)) }
    {
        for _ in 0..self.len() {
            let item = self.dequeue().unwrap();
            if !keep(&item) {
                continue;
            }
            match self.push(item) {
                Ok(overwritten) => drop(overwritten),
                Err(item) => return Err(item),
            }
        }
        Ok(())
    }

    /// Drops the oldest items while `test` returns `true` of them, and returns how many. It asks about the items in order, and of
    /// the first that it keeps last. This call is the library's own: the Rust crate has none like it.
    ///
    /// ```rust
    /// let _ = events.dequeue_while(|event| event.time < time);
    /// ```
    fn dequeue_while<F: FnMut(&T) -> bool>(&mut self, mut test: F) -> usize
        requires { F.IsAlwaysCallable test }
        ensures rest { contents self.new ≡ drop result (contents self.old) }
        ensures within { result ≤ length (contents self.old) }
        ensures called { PassesFirst (CalledAt F.FnMut) test result (contents self.old) }
        ensures value { ByMap (CalledAt F.FnMut) test
            (λ passes. result ≡ prefix_len passes (contents self.old)) }
        ensures first { ByMap (CalledAt F.FnMut) test
            (λ passes. IfSome (slice_get (contents self.new) 0) (λ x. passes x ≡ false)) }
        ensures limit { limit self.new ≡ limit self.old }
        ensures changes { Counts limit contents slot_changes self.old self.new 0 }
    {
        let len = self.len();
        for count in 0..len {
            if !test(self.front().unwrap()) {
                return count;
            }
            self.skip();
        }
        len
    }

    /// Replaces each item by what `f` returns for it, oldest first. Takes O(n), and no memory. This call is the library's own:
    /// the Rust crate has none like it.
    ///
    /// ```rust
    /// readings.map_each(|x| *x / 2);
    /// ```
    fn map_each<F: FnMut(&T) -> T>(&mut self, mut f: F)
        requires { F.IsAlwaysCallable f }
        ensures called { MapsEach (CalledAt F.FnMut) f (contents self.old) (contents self.new) }
        ensures value { ByMap (CalledAt F.FnMut) f
            (λ g. contents self.new ≡ map g (contents self.old)) }
        ensures limit { limit self.new ≡ limit self.old }
        ensures changes { IsSome (limit self.old)
            → (slot_changes self.old ≤ slot_changes self.new)
            × (slot_changes self.new ≤ slot_changes self.old + length (contents self.old)) }
    {
        for i in 0..self.len() {
            let item = self.get_mut(i).unwrap();
            *item = f(item);
        }
    }

    /// Returns the item at a position, which is taken modulo the length, or `None` if the ring is empty.
    fn get(&self, index: usize) -> Option<&T>
        ensures value { option_copied result
            ≡ slice_get (contents self.now) (index_at (length (contents self.now)) index) }
        ensures in_range { index < length (contents self.now)
            → option_copied result ≡ slice_get (contents self.now) index };

    /// Returns the item at a position that may be negative, and is taken modulo the length: -1 is the newest. Returns `None`
    /// if the ring is empty.
    ///
    /// ```rust
    /// let newest = ring.get_signed(-1).copied();
    /// ```
    fn get_signed(&self, index: isize) -> Option<&T>
        ensures value { option_copied result
            ≡ slice_get (contents self.now) (signed_index_at (length (contents self.now)) index) }
        ensures in_range { IsInRange (length (contents self.now)) index → option_copied result
            ≡ slice_get (contents self.now) (index_in_range (length (contents self.now)) index) };

    /// Lends the item that `get` returns, for writing. A write changes that place alone.
    fn get_mut(&mut self, index: usize) -> Option<&mut T>
        ensures* writes_back { sem 𝓛
            (LendsIf Self.row T.row self.entry result
            (with_item self.old (index_at (length (contents self.old)) index)) self.old) }
        ensures value { option_copied_mut result
            ≡ slice_get (contents self.old) (index_at (length (contents self.old)) index) }
        ensures none { IsNone result ↔ (contents self.old ≡ []) }
        ensures in_range { index < length (contents self.old)
            → index_at (length (contents self.old)) index ≡ index };

    /// Lends the item that `get_signed` returns, for writing. A write changes that place alone.
    fn get_mut_signed(&mut self, index: isize) -> Option<&mut T>
        ensures* writes_back { sem 𝓛
            (LendsIf Self.row T.row self.entry result
            (with_item self.old (signed_index_at (length (contents self.old)) index)) self.old) }
        ensures value { option_copied_mut result
            ≡ slice_get (contents self.old) (signed_index_at (length (contents self.old)) index) }
        ensures none { IsNone result ↔ (contents self.old ≡ []) }
        ensures in_range { IsInRange (length (contents self.old)) index
            → signed_index_at (length (contents self.old)) index
            ≡ index_in_range (length (contents self.old)) index };

    /// Returns the oldest item. The next push overwrites it only if the ring is full and has a limit.
    fn peek(&self) -> Option<&T>
        ensures { option_copied result ≡ slice_get (contents self.now) 0 }
    {
        self.get(0)
    }

    /// Returns the oldest item.
    ///
    /// ```rust
    /// let _ = ring.push(x);
    /// *ring.front().unwrap()
    /// ```
    fn front(&self) -> Option<&T>
        ensures { option_copied result ≡ slice_get (contents self.now) 0 }
    {
        self.get(0)
    }

    /// Lends the oldest item for writing.
    fn front_mut(&mut self) -> Option<&mut T>
        ensures* writes_back { sem 𝓛
            (LendsIf Self.row T.row self.entry result (with_item self.old 0) self.old) }
        ensures value { option_copied_mut result ≡ slice_get (contents self.old) 0 }
        ensures none { IsNone result ↔ (contents self.old ≡ []) }
    {
        self.get_mut(0)
    }

    /// Returns the newest item.
    ///
    /// ```rust
    /// let _ = ring.push(x);
    /// *ring.back().unwrap()
    /// ```
    fn back(&self) -> Option<&T>
        ensures { option_copied result
            ≡ slice_get (contents self.now) (length (contents self.now) - 1) }
    {
        self.get_signed(-1)
    }

    /// Lends the newest item for writing.
    fn back_mut(&mut self) -> Option<&mut T>
        ensures* writes_back { sem 𝓛
            (LendsIf Self.row T.row self.entry result
            (with_item self.old (length (contents self.old) - 1)) self.old) }
        ensures value { option_copied_mut result
            ≡ slice_get (contents self.old) (length (contents self.old) - 1) }
        ensures none { IsNone result ↔ (contents self.old ≡ []) }
    {
        self.get_mut_signed(-1)
    }

    /// Returns clones of the items, in order, in new memory. Takes O(n).
    ///
    /// # Errors
    ///
    /// Where memory or a clone was refused. The ring is as it was.
    fn to_vec(&self, alloc: Global) -> Result<Vec<T>, AllocError>
    where
        T: Clone,
        ensures { IfOk result (λ v. AllZip T.is_clone (contents self.now) v.items) }
    {
        let mut items = Vec::with_capacity(alloc, self.len())?;
        for i in 0..self.len() {
            items.push(self.get(i).unwrap().clone()?)?;
        }
        Ok(items)
    }

    /// Puts clones of the oldest items into the first places of a slice, as many as it has, and returns how many. Takes O(n)
    /// in these.
    ///
    /// # Errors
    ///
    /// Where a clone was refused. The places of the clones before it are written then, and the others are as they were.
    fn copy_to_slice(&self, output: &mut [T]) -> Result<usize, AllocError>
    where
        T: Clone,
        ensures clones { ClonesOut T.is_clone (contents self.now) output.old output.new result }
        ensures items_if_clones_equal { ((x y : T) → T.is_clone x y → y ≡ x) → IfOk result
            (λ n. output.new ≡ take n (contents self.now) ++ drop n output.old) }
        ensures count { IfOk result (λ n. n ≡ min (length output.old) (length (contents self.now))) }
        ensures succeeds { ((x : T) → T.is_infallible x) → IsOk result }
    {
        let count = output.len().min(self.len());
        for i in 0..count {
            output[i] = self.get(i).unwrap().clone()?;
        }
        Ok(count)
    }

    /// Returns whether an item equals `x`. Takes O(n).
    fn contains(&self, x: &T) -> bool
    where
        T: PartialEq,
        ensures value { result ≡ list_any (λ y. T.eq y x.now) (contents self.now) }
        ensures cases { IsAnyAnswer (λ y b. T.eq y x.now ≡ b) (contents self.now) result }
    {
        for i in 0..self.len() {
            if *self.get(i).unwrap() == *x {
                return true;
            }
        }
        false
    }

    /// Returns whether the items equal those of a slice, place by place. `==` compares a ring with one of its type alone.
    /// Takes O(n).
    ///
    /// ```rust
    /// ring.eq_slice(&[1, 2])
    /// ```
    fn eq_slice(&self, items: &[T]) -> bool
    where
        T: PartialEq,
        ensures { result ≡ pointwise T.eq (contents self.now) items.now }
    {
        if self.len() != items.len() {
            return false;
        }
        for i in 0..items.len() {
            let same = *self.get(i).unwrap() == items[i];
            if !same {
                return false;
            }
        }
        true
    }

    // What a write at an index does to the contents.
    ghost sets_item: { (s : Self) (i : ℕ) (x : T)
        → contents (with_item s i x) ≡ slice_set (contents s) i x };

    // A write leaves the limit as it is.
    ghost keeps_limit: { (s : Self) (i : ℕ) (x : T) → limit (with_item s i x) ≡ limit s };

    // A write to a ring with a limit counts as one slot change at most.
    ghost counts_write: { (s : Self) (i : ℕ) (x : T) → IsSome (limit s)
        → (slot_changes s ≤ slot_changes (with_item s i x))
        × (slot_changes (with_item s i x) ≤ slot_changes s + 1) };
}

/// Calls `RingBuffer::retain`, for callers that name the function.
///
/// # Errors
///
/// As `RingBuffer::retain`.
pub fn retain<T: Drop, R: RingBuffer<T>, F: FnMut(&T) -> bool>(
    ring: &mut R,
    keep: F,
) -> Result<(), T>
    requires { F.IsAlwaysCallable keep }
    ensures filtered { OnOk result
        (IsFiltered (CalledAt F.FnMut) keep (R.contents ring.old) (R.contents ring.new)) }
    ensures value { OnOk result (ByMap (CalledAt F.FnMut) keep
        (λ keeps. R.contents ring.new ≡ filter keeps (R.contents ring.old))) }
    ensures refused { IfErr result
        (FiltersPart (CalledAt F.FnMut) keep (R.contents ring.old) (R.contents ring.new)) }
    ensures succeeds { IsSome (R.limit ring.old) → IsOk result }
    ensures limit { R.limit ring.new ≡ R.limit ring.old }
    ensures changes { Counts R.limit R.contents R.slot_changes ring.old ring.new (length (R.contents ring.new)) }
{
    ring.retain(keep)
}
