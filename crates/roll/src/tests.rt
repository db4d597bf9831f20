ghost use Rattle.std.specs.Prelude.{◌≡◌, [], ◌∷◌};

use crate::*;

// The lender knows what its array holds once the roll has ended.
fn lent_and_back() -> [u8; 3]
    ensures { result ≡ 7 ∷ (8 ∷ (0 ∷ [])) }
{
    let mut slots = [0u8; 3];
    let mut roll = Roll::new(&mut slots);
    let _ = roll.put(7);
    let _ = roll.put(8);
    slots
}

#[test]
fn puts_reads_and_empties(rt: HostRuntime) {
    assert_eq!(rt; lent_and_back(), [7, 8, 0]);
    let mut slots = [1u16, 2];
    let mut roll = Roll::new(&mut slots);
    assert_eq!(rt; roll.read(0), Err(RollFault::NotFilled));
    assert_eq!(rt; roll.put(5), Ok(()));
    assert_eq!(rt; roll.put(6), Ok(()));
    assert_eq!(rt; roll.put(7), Err(RollFault::Full));
    assert_eq!(rt; roll.read(1), Ok(6));
    assert_eq!(rt; roll.read(2), Err(RollFault::NotFilled));
    assert_eq!(rt; roll.items(), [5, 6].as_slice());
    roll.empty();
    assert_eq!(rt; roll.read(0), Err(RollFault::NotFilled));
    assert_eq!(rt; u16::from(RollFault::Full), 101);
    assert_eq!(rt; u16::from(RollFault::NotFilled), 102);
    assert_eq!(rt; slots, [5, 6]);
}

#[test]
fn pads_and_tells_what_room_there_is(rt: HostRuntime) {
    let mut slots = [5u16, 6];
    let mut roll = Roll::new(&mut slots);
    assert_eq!(rt; roll.put(4), Ok(()));
    assert_eq!(rt; roll.pad(3, 9), Err(RollFault::Full));
    assert!(rt; !roll.is_full() && roll.capacity() == 2);
    assert_eq!(rt; roll.pad(2, 9), Ok(()));
    assert_eq!(rt; roll.pad(1, 8), Ok(()));
    assert!(rt; roll.is_full());
    assert_eq!(rt; roll.items(), [4, 9].as_slice());
    assert_eq!(rt; slots, [4, 9]);
}
