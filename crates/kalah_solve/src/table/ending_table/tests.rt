//! An ending is known once it was asked for.
use super::*;
use crate::tests::houses_of;

#[test]
fn an_ending_is_known_once_it_was_asked_for(rt: HostRuntime) {
    let houses = houses_of(&rt, 1, [3, 0, 0, 0, 0, 0], [3, 0, 0, 0, 0, 0]);
    assert!(rt; houses.seeds() <= MOST_ENDING_SEEDS);
    let endings = EndingTable::new(rt.alloc()).expect(&rt, "no memory");
    let rank = endings.rank(&houses);
    assert!(rt; endings.look_up(&houses, rank) == None);
    assert!(rt; endings.won::<1>(houses) == 6);
    assert!(rt; endings.look_up(&houses, rank) == Some(6));
}
