//! A full cell's item, where it lies. This compiler gives each `Option` a mark of its own, and never a niche in its item; the
//! offset rests on that, and `proofs/FullCell.antt` proves it.
ghost use Rattle.std.specs.Prelude.{◌≡◌, IsSome, None, Some};
ghost use Rattle.std.specs.Borrow.{sem};
ghost use Rattle.ring_slots.specs.full.Lends.{lends_item};

/// Lends the item of a full cell. It reads no mark: the item lies as far behind it as an item is aligned.
#[inline]
pub(crate) fn item<T>(cell: &Option<T>) -> &T
    requires { IsSome cell.now }
    ensures { cell.now ≡ Some result.now }
{
    unsafe { &*((cell as *const Option<T> as *const u8).add(align_of::<T>()) as *const T) }
}

/// Lends the item of a full cell for writing, as `item` does.
#[inline]
pub(crate) fn item_mut<T>(cell: &mut Option<T>) -> &mut T
    requires { IsSome cell.old }
    ensures* writes_back { sem 𝓛 (lends_item T.row cell.entry result) }
    ensures value { cell.old ≡ Some result.now }
{
    unsafe { &mut *((cell as *mut Option<T> as *mut u8).add(align_of::<T>()) as *mut T) }
}

/// Takes the item out of a full cell, and reads no mark.
#[inline]
pub(crate) fn take<T>(cell: &mut Option<T>) -> T
    requires { IsSome cell.old }
    ensures value { cell.old ≡ Some result }
    ensures after { cell.new ≡ None }
{
    let cell = cell as *mut Option<T>;
    unsafe {
        let item = ((cell as *mut u8).add(align_of::<T>()) as *mut T).read();
        cell.write(None);
        item
    }
}
