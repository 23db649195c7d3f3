use slot_pool::{SlotId, Slots};
use std::test::Fail;

#[test]
fn slots_are_taken_lowest_first_and_given_back(rt: HostRuntime) -> Result<(), Fail> {
    let mut slots = Slots::new(rt.alloc(), 2, 2)?;
    assert_eq!(rt; slots.take(1, 5), Some(SlotId { worker: 1, slot: 0 }));
    slots.block(1, 6);
    assert_eq!(rt; slots.take(1, 5), None);
    slots.give(SlotId { worker: 1, slot: 0 });
    assert_eq!(rt; slots.free(), 4);
    Ok(())
}
