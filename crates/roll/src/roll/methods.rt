ghost use Rattle.std.specs.Prelude.{◌≡◌, not, length, take};
ghost use Rattle.roll.specs.Roll.{has_room, put_answer, put_slots, put_filled, pad_answer, pad_slots, pad_filled, read_answer};

use super::Roll;
use crate::RollFault;

impl<'a, T: Copy> Roll<'a, T> {
    // Nothing is filled, and the slots stay as they are.
    pub fn new(slots: &'a mut [T]) -> Roll<'a, T>
        ensures slots { result.slots.now ≡ slots.old }
        ensures filled { result.filled ≡ 0 }
        ensures lent { result.slots.ghost_name ≡ slots.entry.ghost_name }
    {
        Roll { slots, filled: 0 }
    }

    pub fn put(&mut self, item: T) -> Result<(), RollFault>
        ensures answer { result ≡ put_answer self.old.slots.now self.old.filled }
        ensures slots { self.new.slots.now ≡ put_slots self.old.slots.now self.old.filled item }
        ensures filled { self.new.filled ≡ put_filled self.old.slots.now self.old.filled }
        ensures lent { self.new.slots.ghost_name ≡ self.old.slots.ghost_name }
    {
        if self.is_full() {
            return Err(RollFault::Full);
        }
        self.slots[self.filled] = item;
        self.filled += 1;
        Ok(())
    }

    // Fills slots with copies of the item until `count` are filled; where as many are filled already, nothing changes.
    pub fn pad(&mut self, count: usize, item: T) -> Result<(), RollFault>
        ensures answer { result ≡ pad_answer self.old.slots.now count }
        ensures slots { self.new.slots.now ≡ pad_slots self.old.slots.now self.old.filled count item }
        ensures filled { self.new.filled ≡ pad_filled self.old.slots.now self.old.filled count }
        ensures lent { self.new.slots.ghost_name ≡ self.old.slots.ghost_name }
    {
        if count > self.slots.len() {
            return Err(RollFault::Full);
        }
        if self.filled < count {
            self.slots[self.filled..count].fill_with(|| item);
            self.filled = count;
        }
        Ok(())
    }

    pub fn read(&self, place: usize) -> Result<T, RollFault>
        ensures { result ≡ read_answer (take self.now.filled self.now.slots.now) place }
    {
        self.items().get(place).copied().ok_or(RollFault::NotFilled)
    }

    pub fn empty(&mut self)
        ensures slots { self.new.slots.now ≡ self.old.slots.now }
        ensures filled { self.new.filled ≡ 0 }
        ensures lent { self.new.slots.ghost_name ≡ self.old.slots.ghost_name }
    {
        self.filled = 0;
    }

    // The filled part.
    pub fn items(&self) -> &[T]
        ensures { result.now ≡ take self.now.filled self.now.slots.now }
    {
        &self.slots[..self.filled]
    }

    // How many slots there are, filled or not.
    pub fn capacity(&self) -> usize
        ensures { result ≡ length self.now.slots.now }
    {
        self.slots.len()
    }

    pub fn is_full(&self) -> bool
        ensures { result ≡ not (has_room self.now.slots.now self.now.filled) }
    {
        self.filled >= self.slots.len()
    }
}
