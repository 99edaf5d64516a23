use crate::Refusing;
use std::alloc::{AllocError, Allocator};
use std::collections::BTreeMap;

/// Three keys in a map and their copy in a list.
fn work<A: Allocator + Clone>(first: A, second: A) -> Result<usize, AllocError> {
    let mut map = BTreeMap::new(first);
    let mut list = Vec::new(second);
    for key in 0..3u8 {
        map.insert(key, key)?;
        list.push(key)?;
    }
    let _ = &map;
    Ok(list.len())
}

#[test]
fn refuses_each_request_in_turn(rt: HostRuntime) {
    let heap = Refusing::new(rt.alloc());
    for n in 1..1000u64 {
        heap.refuse_only(n);
        let answer = work(&heap, &heap);
        if !heap.has_refused() {
            assert_eq!(rt; answer, Ok(3));
            assert_eq!(rt; heap.asked(), n - 1);
            assert!(rt; 1 < n);
            return;
        }
        assert_eq!(rt; answer, Err(AllocError), "at {n}");
        assert_eq!(rt; heap.asked(), n, "at {n}");
    }
    panic!(rt; "no run met no refusal");
}

#[test]
fn refuses_from_a_request_on(rt: HostRuntime) -> Result<(), AllocError> {
    let heap = Refusing::new(rt.alloc());
    let mut list = Vec::with_capacity(&heap, 2)?;
    assert!(rt; (heap.asked(), heap.bytes()) == (1, 2));
    heap.refuse_from(1);
    list.push(1u8)?;
    list.push(2)?;
    assert!(rt; list.push(3).is_err());
    assert!(rt; list.push(3).is_err());
    assert!(rt; list.as_slice() == [1, 2].as_slice());
    assert!(rt; (heap.asked(), heap.bytes()) == (2, 16));
    heap.refuse_none();
    assert!(rt; (heap.asked(), heap.bytes()) == (0, 0));
    list.push(3)?;
    assert!(rt; (heap.asked(), heap.bytes()) == (1, 8));
    assert!(rt; list.as_slice() == [1, 2, 3].as_slice());
    Ok(())
}
