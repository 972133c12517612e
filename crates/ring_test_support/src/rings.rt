//! A test on a ring of each type, by one call of a macro.
//!
//! A test of plain items is a method that has its body in a trait, which the ring types implement: a call of it is proved
//! in half a second, and one of a function that is generic over the ring in three to ten. Such functions test rings of
//! items that live for a time, since a trait with a lifetime may give no bodies.

/// Makes a ring for a macro of this module.
#[macro_export]
macro_rules! new_ring {
    (array, $rt:expr, $capacity:literal) => {
        ringbuffer::ConstGenericRingBuffer::<_, $capacity>::new()
    };
    (copies, $rt:expr, $capacity:literal) => {
        ringbuffer::CopyRingBuffer::<_, $capacity>::default()
    };
    (heap, $rt:expr, $capacity:literal) => {
        ringbuffer::AllocRingBuffer::new($rt.alloc(), $capacity).expect($rt, "memory")
    };
    (growable, $rt:expr, $room:literal) => {
        ringbuffer::GrowableAllocRingBuffer::with_capacity($rt.alloc(), $room).expect($rt, "memory")
    };
}

/// Calls a method on a new ring of a type, with this capacity or this room: with the runtime and these arguments.
#[macro_export]
macro_rules! on_ring {
    ($type:ident, $rt:expr, $capacity:literal, $test:ident $(, $argument:expr)*) => {
        $crate::new_ring!($type, $rt, $capacity).$test($rt $(, $argument)*);
    };
}

/// Calls a method on a new ring of each type that has a limit.
#[macro_export]
macro_rules! on_fixed {
    ($rt:expr, $capacity:literal, $test:ident $(, $argument:expr)*) => {
        $crate::on_ring!(array, $rt, $capacity, $test $(, $argument)*);
        $crate::on_ring!(heap, $rt, $capacity, $test $(, $argument)*);
        $crate::on_ring!(copies, $rt, $capacity, $test $(, $argument)*);
    };
}

/// Calls a method on a new ring of each type.
#[macro_export]
macro_rules! on_each {
    ($rt:expr, $capacity:literal, $test:ident $(, $argument:expr)*) => {
        $crate::on_fixed!($rt, $capacity, $test $(, $argument)*);
        $crate::on_ring!(growable, $rt, $capacity, $test $(, $argument)*);
    };
}

/// Calls a function on a new ring of any items: with the runtime, the ring and these arguments.
#[macro_export]
macro_rules! on_ring_of_any {
    ($type:ident, $rt:expr, $capacity:literal, $test:ident $(, $argument:expr)*) => {
        $test($rt, $crate::new_ring!($type, $rt, $capacity) $(, $argument)*);
    };
}

/// Calls a function on a new ring of each type that takes any items.
#[macro_export]
macro_rules! on_each_of_any {
    ($rt:expr, $capacity:literal, $test:ident $(, $argument:expr)*) => {
        $crate::on_ring_of_any!(array, $rt, $capacity, $test $(, $argument)*);
        $crate::on_ring_of_any!(heap, $rt, $capacity, $test $(, $argument)*);
        $crate::on_ring_of_any!(growable, $rt, $capacity, $test $(, $argument)*);
    };
}
