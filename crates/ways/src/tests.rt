use crate::{Associative, Block, Direct, Fifo, Lru, Mapping, Policy, SetAssociative, Slot};

// The set and the tag of the block of an address, and the number of the block that they join to.
fn there_and_back<M: Mapping>(address: u16) -> (u8, u16, u16) {
    let (set, tag) = M::split(Block::of(address));
    (set, tag, M::join((set, tag)).number())
}

#[test]
fn last_block(rt: HostRuntime) {
    assert_eq!(rt; there_and_back::<Direct>(65535), (7, 2047, 16383));
    assert_eq!(rt; there_and_back::<SetAssociative>(65535), (3, 4095, 16383));
    assert_eq!(rt; there_and_back::<Associative>(65535), (0, 16383, 16383));
}

// The entry that is given up next for the block of an address, when nothing was called yet.
fn first_victim<M: Mapping, P: Policy<M> + Drop>(address: u16) -> usize {
    P::fresh().victim(Block::of(address)).index()
}

#[test]
fn victims_at_the_making(rt: HostRuntime) {
    assert_eq!(rt; first_victim::<Direct, Fifo>(20), 5);
    assert_eq!(rt; first_victim::<SetAssociative, Fifo>(12), 6);
    assert_eq!(rt; first_victim::<Associative, Lru>(12), 0);
}

// The entry that is given up after two loads of set 0 and a hit of the first.
fn victim_after_hit<P: Policy<SetAssociative> + Drop>() -> usize {
    let mut policy = P::fresh();
    let first = policy.victim(Block::of(0));
    policy.loaded(first);
    let second = policy.victim(Block::of(0));
    policy.loaded(second);
    policy.hit(first);
    policy.victim(Block::of(0)).index()
}

#[test]
fn hits(rt: HostRuntime) {
    assert_eq!(rt; victim_after_hit::<Fifo>(), 0);
    assert_eq!(rt; victim_after_hit::<Lru>(), 1);
}

#[test]
fn all_slots(rt: HostRuntime) {
    assert_eq!(rt;
        Slot::all().map(|slot| slot.index()),
        [0, 1, 2, 3, 4, 5, 6, 7]
    );
}
