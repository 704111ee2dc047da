// The queue that scans, run on small tables.
use crate::Queue;
use crate::scan::ScanQueue;
use std::alloc::{AllocError, Global};
use std::test::Fail;

// A queue of this capacity after these offers, each a place and a key.
fn offered(heap: Global, capacity: usize, offers: &[(u32, u32)]) -> Result<ScanQueue, AllocError> {
    let mut queue = ScanQueue::new(vec![in heap; None; capacity]?);
    for (place, key) in offers {
        queue.offer(*place, *key);
    }
    Ok(queue)
}

#[test]
fn equal_keys_give_the_lowest_place_first(rt: HostRuntime) -> Result<(), Fail> {
    let mut queue = offered(rt.alloc(), 4, &[(3, 7), (1, 9), (4, 7), (2, 7)])?;
    assert_eq!(rt; queue.take(), Some((7, 2)));
    assert_eq!(rt; queue.take(), Some((7, 3)));
    assert_eq!(rt; queue.take(), Some((7, 4)));
    assert_eq!(rt; queue.take(), Some((9, 1)));
    assert_eq!(rt; queue.take(), None);
    Ok(())
}

#[test]
fn a_lowered_key_comes_forward_and_a_raised_one_stays(rt: HostRuntime) -> Result<(), Fail> {
    let mut queue = offered(rt.alloc(), 3, &[(1, 5), (2, 6), (3, 7)])?;
    assert!(rt; queue.offer(3, 4));
    assert!(rt; queue.offer(1, 8));
    assert_eq!(rt; queue.take(), Some((4, 3)));
    assert_eq!(rt; queue.take(), Some((5, 1)));
    assert_eq!(rt; queue.take(), Some((6, 2)));
    Ok(())
}

#[test]
fn place_0_and_places_above_the_capacity_get_no(rt: HostRuntime) -> Result<(), Fail> {
    let mut queue = offered(rt.alloc(), 2, &[(2, 5)])?;
    assert!(rt; !queue.offer(0, 1));
    assert!(rt; !queue.offer(3, 1));
    assert!(rt; !queue.offer(u32::MAX, 1));
    assert_eq!(rt; queue.capacity(), 2);
    assert_eq!(rt; queue.take(), Some((5, 2)));
    assert_eq!(rt; queue.take(), None);
    Ok(())
}

#[test]
fn every_place_up_to_the_capacity_is_held(rt: HostRuntime) -> Result<(), Fail> {
    let mut queue = offered(rt.alloc(), 50, &[])?;
    for place in 1..=50 {
        assert!(rt; queue.offer(place, 100 - place));
    }
    for key in 50..100 {
        assert_eq!(rt; queue.take(), Some((key, 100 - key)));
    }
    assert_eq!(rt; queue.take(), None);
    Ok(())
}

#[test]
fn a_cleared_queue_is_used_again(rt: HostRuntime) -> Result<(), Fail> {
    let mut queue = offered(rt.alloc(), 3, &[(1, 5), (3, 0)])?;
    queue.clear();
    assert_eq!(rt; queue.take(), None);
    assert!(rt; queue.offer(1, 8));
    assert_eq!(rt; queue.take(), Some((8, 1)));
    Ok(())
}

#[test]
fn what_a_table_held_before_has_no_effect(rt: HostRuntime) -> Result<(), Fail> {
    let mut queue = ScanQueue::new(vec![in rt.alloc(); Some(3), None, Some(0)]?);
    assert_eq!(rt; queue.take(), None);
    assert!(rt; queue.offer(1, 9));
    let mut again = ScanQueue::new(queue.into_table());
    assert_eq!(rt; again.capacity(), 3);
    assert_eq!(rt; again.take(), None);
    Ok(())
}
