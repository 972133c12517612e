//! Rings made of other collections, of texts, iterators and other rings.

use super::{assert_equal, assert_holds};
use ring_test_support::spelled::Spelled;
use ringbuffer::{
    AllocRingBuffer, ConstGenericRingBuffer, CopyRingBuffer, GrowableAllocRingBuffer, RingBuffer,
};
use std::alloc::AllocError;
use std::collections::{LinkedList, VecDeque};
use std::iter::repeat_n;
use std::process::Abort;

const ITEMS: [char; 2] = ['1', '2'];

type Array = ConstGenericRingBuffer<char, 2>;

type Plain = CopyRingBuffer<char, 2>;

type Heap = AllocRingBuffer<char>;

type Growable = GrowableAllocRingBuffer<char>;

/// Asserts that a ring lists these items.
fn assert_listed<R: RingBuffer<char>>(rt: &(impl Abort + AllocGlobal), ring: &R, items: &[char]) {
    let listed = ring.to_vec(rt.alloc()).expect(rt, "memory");
    assert_equal(rt, listed.as_slice(), items);
}

/// Asserts that a ring was made of '1' and '2'. It lists them, and these after a push of '3', and equals itself.
fn assert_lists<R: RingBuffer<char> + PartialEq + Drop>(
    rt: &(impl Abort + AllocGlobal),
    made: Result<R, AllocError>,
    pushed: &[char],
) {
    let mut ring = made.expect(rt, "memory");
    assert_listed(rt, &ring, &ITEMS);
    assert!(rt; ring.push('3').is_ok());
    assert_listed(rt, &ring, pushed);
    assert!(rt; ring == ring);
}

/// Asserts the same of each of these rings.
macro_rules! assert_each {
    ($assert:ident, $rt:expr, $wanted:expr, $($made:expr),* $(,)?) => {
        $($assert($rt, $made, $wanted);)*
    };
}

/// Makes a vector of two characters.
fn vector(rt: &(impl Abort + AllocGlobal)) -> Vec<char> {
    vec![in rt.alloc(); '1', '2'].expect(rt, "memory")
}

/// Makes a linked list of two characters.
fn list(rt: &(impl Abort + AllocGlobal)) -> LinkedList<char> {
    let mut items = LinkedList::new(rt.alloc());
    items.push_back('1').expect(rt, "memory");
    items.push_back('2').expect(rt, "memory");
    items
}

/// Makes a text of two characters.
fn text(rt: &(impl Abort + AllocGlobal)) -> String {
    String::from_str(rt.alloc(), "12").expect(rt, "memory")
}

/// Makes a deque of two characters.
fn deque(rt: &(impl Abort + AllocGlobal)) -> VecDeque<char> {
    VecDeque::from(vector(rt))
}

/// Makes a growable ring of two characters.
fn growable(rt: &(impl Abort + AllocGlobal)) -> Growable {
    GrowableAllocRingBuffer::from(vector(rt))
}

/// Makes a heap ring of two characters.
fn heap(rt: &(impl Abort + AllocGlobal)) -> Heap {
    AllocRingBuffer::from_text(rt.alloc(), "12").expect(rt, "memory")
}

#[test]
fn heap_rings_of_two_characters(rt: HostRuntime) {
    let (rt, alloc, mut items) = (&rt, rt.alloc(), ITEMS);
    let (vector, deque, list) = (vector(rt), deque(rt), list(rt));
    let (text, array, plain) = (text(rt), Array::from_text("12"), Plain::from_text("12"));
    let growable = growable(rt);
    assert!(rt; 0 < vector.len() && 0 < deque.len() && 0 < list.len() && 0 < text.len());
    assert!(rt; 0 < array.len() && 0 < plain.len() && 0 < growable.len());
    assert_each!(
        assert_lists,
        rt,
        &['2', '3'],
        Heap::from_vec(alloc, vector),
        Heap::from_linked_list(alloc, list),
        Heap::from_deque(alloc, deque),
        Heap::from_string(alloc, text),
        Heap::from_text(alloc, "12"),
        Heap::from_slice(alloc, &ITEMS),
        Heap::from_mut_slice(alloc, &mut items),
        Heap::from_array_ref(alloc, &ITEMS),
        Heap::from_mut_array(alloc, &mut items),
        Heap::from_array(alloc, ITEMS.map(Some)),
        Heap::from_const(alloc, array),
        Heap::from_const(alloc, plain),
        Heap::from_growable(alloc, growable),
    );
}

#[test]
fn growable_rings_of_two_characters(rt: HostRuntime) {
    let (rt, alloc) = (&rt, rt.alloc());
    assert_each!(
        assert_lists,
        rt,
        &['1', '2', '3'],
        Growable::from_vec(alloc, vector(rt)),
        Growable::from_linked_list(alloc, list(rt)),
        Ok(Growable::from(deque(rt))),
        Growable::from_string(alloc, text(rt)),
        Growable::from_text(alloc, "12"),
        Growable::from_slice(alloc, &ITEMS),
        Growable::from_array_ref(alloc, &ITEMS),
        Growable::from_array(alloc, ITEMS.map(Some)),
        Growable::from_const(alloc, Array::from_text("12")),
        Growable::from_const(alloc, Plain::from_text("12")),
        Growable::from_alloc(alloc, heap(rt)),
    );
}

#[test]
fn array_rings_of_two_characters(rt: HostRuntime) {
    let (rt, mut items) = (&rt, ITEMS);
    assert_each!(
        assert_lists,
        rt,
        &['2', '3'],
        Ok(Array::from_vec(vector(rt))),
        Ok(Array::from_linked_list(list(rt))),
        Ok(Array::from_deque(deque(rt))),
        Ok(Array::from_string(text(rt))),
        Ok(Array::from_text("12")),
        Array::from_slice(&ITEMS),
        Array::from_mut_slice(&mut items),
        Array::from_array_ref(&ITEMS),
        Array::from_mut_array(&mut items),
        Ok(Array::from_array(ITEMS.map(Some))),
        Ok(Array::from_growable(growable(rt))),
        Ok(Array::from_alloc(heap(rt))),
    );
}

#[test]
fn plain_rings_of_two_characters(rt: HostRuntime) {
    let (rt, mut items) = (&rt, ITEMS);
    let larger = CopyRingBuffer::<char, 3>::from_slice('x', &['0', '1', '2']);
    assert_each!(
        assert_lists,
        rt,
        &['2', '3'],
        Ok(Plain::from_iter('x', vector(rt))),
        Ok(Plain::from_vec('x', vector(rt))),
        Ok(Plain::from_linked_list('x', list(rt))),
        Ok(Plain::from_deque('x', deque(rt))),
        Ok(Plain::from_string(text(rt))),
        Ok(Plain::from_text("12")),
        Ok(Plain::from_slice('x', &ITEMS)),
        Ok(Plain::from_mut_slice('x', &mut items)),
        Ok(Plain::from_array(ITEMS)),
        Ok(Plain::from_array_ref(&ITEMS)),
        Ok(Plain::from_mut_array(&mut items)),
        Ok(Plain::from_growable('x', growable(rt))),
        Ok(Plain::from_alloc('x', heap(rt))),
        Ok(Plain::from_const('x', Array::from_text("12"))),
        Ok(Plain::from_const('x', larger)),
    );
}

/// Makes a vector of 1, 2 and 3.
fn numbers(rt: &(impl Abort + AllocGlobal)) -> Vec<i64> {
    vec![in rt.alloc(); 1, 2, 3].expect(rt, "memory")
}

/// Asserts that a ring was made, and holds these items.
fn assert_made<R: RingBuffer<i64> + Drop>(
    rt: &impl Abort,
    made: Result<R, AllocError>,
    items: &[i64],
) {
    assert_holds(rt, &made.expect(rt, "memory"), items);
}

#[test]
fn array_rings_of_three_numbers(rt: HostRuntime) -> Result<(), AllocError> {
    type Three = ConstGenericRingBuffer<i64, 3>;
    let (rt, mut items) = (&rt, [1, 2, 3]);
    let mut list = LinkedList::new(rt.alloc());
    for item in items {
        list.push_back(item)?;
    }
    assert_each!(
        assert_made,
        rt,
        &[1, 2, 3],
        Ok(Three::from_array(items.map(Some))),
        Three::from_array_ref(&items),
        Three::from_slice(&items),
        Three::from_mut_array(&mut items),
        Three::from_mut_slice(&mut items),
        Ok(Three::from_vec(numbers(rt))),
        Ok(Three::from_deque(VecDeque::from(numbers(rt)))),
        Ok(Three::from_linked_list(list)),
        Ok(Three::from_growable(GrowableAllocRingBuffer::from(numbers(rt)))),
        Ok(Three::from_alloc(AllocRingBuffer::from_slice(rt.alloc(), &[1, 2, 3])?)),
    );
    Ok(())
}

/// Asserts that a heap ring was made, is full of these items, and has as few slots as it can.
fn assert_full(rt: &impl Abort, made: Result<AllocRingBuffer<i64>, AllocError>, items: &[i64]) {
    let ring = made.expect(rt, "memory");
    let found = (ring.capacity(), ring.buffer_size(), ring.is_full());
    let slots = items.len().next_power_of_two();
    assert_equal(rt, found, (items.len(), slots, true));
    assert_holds(rt, &ring, items);
}

#[test]
fn a_heap_ring_has_room_for_its_source(rt: HostRuntime) -> Result<(), AllocError> {
    let (rt, alloc, four) = (&rt, rt.alloc(), [1, 2, 3, 4]);
    let growable = GrowableAllocRingBuffer::from(numbers(rt));
    let array = ConstGenericRingBuffer::<i64, 4>::from_slice(&[1, 2])?;
    assert!(rt; !growable.is_empty() && !array.is_empty());
    assert_full(rt, AllocRingBuffer::from_slice(alloc, &four), &four);
    assert_full(rt, AllocRingBuffer::from_array_ref(alloc, &four), &four);
    assert_full(
        rt,
        AllocRingBuffer::from_array(alloc, four.map(Some)),
        &four,
    );
    assert_full(rt, AllocRingBuffer::from_slice(alloc, &[1]), &[1]);
    assert_full(
        rt,
        AllocRingBuffer::from_growable(alloc, growable),
        &[1, 2, 3],
    );
    assert_full(rt, AllocRingBuffer::from_const(alloc, array), &[1, 2]);
    Ok(())
}

#[test]
fn a_ring_may_be_made_of_little_or_much(rt: HostRuntime) -> Result<(), AllocError> {
    let (rt, alloc) = (&rt, rt.alloc());
    assert_holds(rt, &GrowableAllocRingBuffer::from_slice(alloc, &[])?, &[]);
    assert_holds(rt, &GrowableAllocRingBuffer::from_array(alloc, [])?, &[]);
    assert_holds(rt, &GrowableAllocRingBuffer::from_iter(alloc, [])?, &[]);
    for (items, held, full) in [
        ([1, 2, 3, 4, 5].as_slice(), [3, 4, 5].as_slice(), true),
        ([1].as_slice(), [1].as_slice(), false),
        ([].as_slice(), [].as_slice(), false),
    ] {
        let ring = ConstGenericRingBuffer::<i64, 3>::from_slice(items)?;
        assert_holds(rt, &ring, held);
        assert_equal(rt, ring.is_full(), full);
        assert_holds(rt, &CopyRingBuffer::<i64, 3>::from_slice(9, items), held);
    }
    let places = [Some(1), Some(2), Some(3), Some(4), Some(5)];
    let heap = AllocRingBuffer::from_array(alloc, places)?;
    let array = ConstGenericRingBuffer::<i64, 3>::from_alloc(heap);
    let growable = GrowableAllocRingBuffer::from_const(alloc, array)?;
    assert_holds(rt, &growable, &[3, 4, 5]);
    Ok(())
}

#[test]
fn the_deque_of_a_growable_ring_has_its_items(rt: HostRuntime) -> Result<(), AllocError> {
    let deque = VecDeque::from_array(rt.alloc(), [1, 2])?;
    let mut items = [1, 2];
    let ring = GrowableAllocRingBuffer::from_mut_array(rt.alloc(), &mut items)?;
    assert!(rt; *ring.as_ref() == deque);
    let mut ring = GrowableAllocRingBuffer::from_mut_slice(rt.alloc(), &mut items)?;
    assert!(rt; *ring.as_ref() == deque);
    ring.as_mut().push_back(3)?;
    assert_holds(&rt, &ring, &[1, 2, 3]);
    Ok(())
}

/// Asserts that the ring gives up 1024 ones and no other item.
fn assert_gives_ones<R: RingBuffer<i64> + Drop>(rt: &impl Abort, mut ring: R) {
    assert_equal(rt, ring.len(), 1024);
    for _ in 0..1024 {
        assert_equal(rt, ring.dequeue(), Some(1));
    }
    assert_equal(rt, ring.dequeue(), None);
}

#[test]
fn a_ring_takes_all_of_an_iterator(rt: HostRuntime) -> Result<(), AllocError> {
    let growable = GrowableAllocRingBuffer::from_iter(rt.alloc(), repeat_n(1, 1024))?;
    assert_gives_ones(&rt, growable);
    for ones in [1024, 8000] {
        let array = ConstGenericRingBuffer::<i64, 1024>::from_iter(repeat_n(1, ones));
        assert_gives_ones(&rt, array);
    }
    Ok(())
}

/// Makes a deque of 2, 3 and 1, which lie in two pieces.
fn in_two_pieces(rt: &(impl Abort + AllocGlobal)) -> VecDeque<i64> {
    let mut deque = VecDeque::from(numbers(rt));
    for _ in 0..2 {
        let last = deque.pop_back().expect(rt, "a number");
        deque.push_front(last).expect(rt, "memory");
    }
    assert!(rt; !deque.as_slices().1.is_empty());
    deque
}

#[test]
fn a_deque_in_two_pieces_is_taken_whole(rt: HostRuntime) {
    let (rt, deque) = (&rt, in_two_pieces(&rt));
    assert!(rt; !deque.is_empty());
    assert_made(
        rt,
        AllocRingBuffer::from_deque(rt.alloc(), deque),
        &[2, 3, 1],
    );
    let array = ConstGenericRingBuffer::<i64, 3>::from_deque(in_two_pieces(rt));
    assert_holds(rt, &array, &[2, 3, 1]);
    let plain = CopyRingBuffer::<i64, 3>::from_deque(9, in_two_pieces(rt));
    assert_holds(rt, &plain, &[2, 3, 1]);
}

/// Asserts that the ring gives up the characters of a text and then no other, in order.
fn assert_spells<R: Spelled + Drop>(rt: &impl Abort, made: Result<R, AllocError>, text: &str) {
    let mut ring = made.expect(rt, "memory");
    for letter in text.chars() {
        assert_equal(rt, ring.dequeue(), Some(letter));
    }
    assert_equal(rt, ring.dequeue(), None);
}

const LONG: &str = "abcdefghijklmnopqrstuvwxyz";

#[test]
fn texts_may_be_short_long_or_beyond_ascii(rt: HostRuntime) -> Result<(), AllocError> {
    let (rt, alloc) = (&rt, rt.alloc());
    for (text, spelled) in [("abc", "bc"), ("\u{e9}1z", "1z"), ("", ""), (LONG, "yz")] {
        let string = String::from_str(alloc, text)?;
        assert_spells(rt, Array::of_text(alloc, text), spelled);
        assert_spells(rt, Array::of_string(alloc, string), spelled);
        assert_spells(rt, GrowableAllocRingBuffer::of_text(alloc, text), text);
        if !text.is_empty() {
            assert_spells(rt, AllocRingBuffer::of_text(alloc, text), text);
        }
    }
    let array = ConstGenericRingBuffer::<char, 3>::of_text(alloc, "abc");
    assert_spells(rt, array, "abc");
    // The first character takes two bytes, for which there is room.
    let heap = AllocRingBuffer::from_text(alloc, "\u{e9}1")?;
    let found = (heap.capacity(), heap.len(), heap.buffer_size());
    assert_equal(rt, found, (3, 2, 4));
    assert!(rt; !heap.is_full());
    Ok(())
}
