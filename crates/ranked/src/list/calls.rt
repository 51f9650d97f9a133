//! The calls of a ranked list.
ghost use Rattle.std.specs.Prelude.{◌≡◌, ℕ, ◌<◌, ◌≤◌, [], length, if◌then◌else◌, Some, nat_le, slice_set, is_none};
ghost use Rattle.std.specs.List.{slice_get, insert, remove};
ghost use Rattle.ranked.specs.Items.{items, room};
ghost use Rattle.ranked.specs.Order.{place_for, place_given, inserted_at, may_set, Found};

use super::super::rank::Rank;
use super::Ranked;

// No call changes the room: memory is lent at any size, so no type says which, and each call says that it stays.
impl<'a, T: Rank + Copy> Ranked<'a, T> {
    // An empty list over the memory.
    pub fn new(slots: &'a mut [T]) -> Ranked<'a, T>
        ensures items { items result ≡ [] }
        ensures room { room result ≡ length slots.old }
    {
        Ranked { slots, len: 0 }
    }

    pub fn clear(&mut self)
        ensures items { items self.new ≡ [] }
        ensures room { room self.new ≡ room self.old }
    {
        self.len = 0;
    }

    pub fn len(&self) -> usize
        ensures { result ≡ length (items self.now) }
    {
        self.as_slice().len()
    }

    // How many records the memory holds.
    pub fn room(&self) -> usize
        ensures { result ≡ room self.now }
    {
        self.slots.len()
    }

    pub fn as_slice(&self) -> &[T]
        ensures { result.now ≡ items self.now }
    {
        &self.slots[..self.len]
    }

    pub fn get(&self, place: usize) -> Option<T>
        ensures { result ≡ slice_get (items self.now) place }
    {
        self.as_slice().get(place).copied()
    }

    // The place of the first record with this number.
    pub fn find(&self, number: u32) -> Option<usize>
        ensures { Found T.numbered (items self.now) number result }
    {
        self.as_slice()
            .iter()
            .position(|record| record.number() == number)
    }

    // The first place whose record `x` precedes, or the end.
    pub fn place_of(&self, x: &T) -> usize
        ensures within { result ≤ length (items self.now) }
        ensures place { result ≡ place_for T.before x.now (items self.now) }
    {
        self.as_slice()
            .partition_point(|record| !x.precedes(record))
    }

    // Takes `x` in at its place and answers it, or is full and stays as it was.
    pub fn insert(&mut self, x: T) -> Option<usize>
        ensures room { room self.new ≡ room self.old }
        ensures full { is_none result ≡ nat_le (room self.old) (length (items self.old)) }
        ensures within { (k : ℕ) → result ≡ Some k → k ≤ length (items self.old) }
        ensures list { items self.new ≡ inserted_at (items self.old) result x }
        ensures place { result ≡ place_given T.before x (items self.old) (room self.old) }
    {
        let place = self.free_place(&x)?;
        self.take_in(place, x);
        Some(place)
    }

    // Takes the record at `place` out; those behind it move up.
    pub fn remove(&mut self, place: usize) -> Option<T>
        ensures room { room self.new ≡ room self.old }
        ensures answer { result ≡ slice_get (items self.old) place }
        ensures list { items self.new ≡ remove (items self.old) place }
    {
        let x = self.get(place);
        self.take_out(place);
        x
    }

    // Puts `y` in the place of a record of the same rank.
    pub fn replace(&mut self, place: usize, y: T) -> bool
        ensures room { room self.new ≡ room self.old }
        ensures answer { result ≡ may_set T.before (slice_get (items self.old) place) y }
        ensures list { items self.new ≡ (if result then slice_set (items self.old) place y else items self.old) }
    {
        let fits = self.may_put(place, &y);
        if fits {
            self.slots[place] = y;
        }
        fits
    }

    // The place for `x`, none where the list is full.
    fn free_place(&self, x: &T) -> Option<usize>
        ensures full { is_none result ≡ nat_le (room self.now) (length (items self.now)) }
        ensures within { (k : ℕ) → result ≡ Some k → k ≤ length (items self.now) }
        ensures place { result ≡ place_given T.before x.now (items self.now) (room self.now) }
    {
        if self.len() < self.room() {
            Some(self.place_of(x))
        } else {
            None
        }
    }

    fn take_in(&mut self, place: usize, x: T)
        requires within { place ≤ length (items self.old) }
        requires free { length (items self.old) < room self.old }
        requires place { Some place ≡ place_given T.before x (items self.old) (room self.old) }
        ensures room { room self.new ≡ room self.old }
        ensures list { items self.new ≡ insert (items self.old) place x }
    {
        let slots = &mut *self.slots;
        slots.copy_within(place..self.len, place + 1);
        slots[place] = x;
        self.len += 1;
    }

    fn take_out(&mut self, place: usize)
        ensures room { room self.new ≡ room self.old }
        ensures list { items self.new ≡ remove (items self.old) place }
    {
        if place < self.len {
            let slots = &mut *self.slots;
            slots.copy_within(place + 1..self.len, place);
            self.len -= 1;
        }
    }

    // Whether `y` has the rank of the record at `place`.
    fn may_put(&self, place: usize, y: &T) -> bool
        ensures { result ≡ may_set T.before (slice_get (items self.now) place) y.now }
    {
        self.get(place)
            .is_some_and(|x| !x.precedes(y) && !y.precedes(&x))
    }
}
