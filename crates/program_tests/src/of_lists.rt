use plain_list::{Sequence, Shared};
use std::alloc::{AllocError, Global};
use std::test::Fail;

#[test]
fn a_list_grows_and_gives_back(rt: HostRuntime) -> Result<(), Fail> {
    let mut numbers = Sequence::of_one(rt.alloc(), 7u32)?;
    numbers.push(8)?;
    numbers.append(Sequence::from_slice(rt.alloc(), &[9, 10])?)?;
    numbers.put(0, 6);
    let copy = numbers.copy(rt.alloc())?;
    assert_eq!(rt; copy.as_slice(), [6, 8, 9, 10].as_slice());
    assert_eq!(rt; numbers.pop(), Some(10));
    assert_eq!(rt; numbers.into_vec().as_slice(), [6, 8, 9].as_slice());
    Ok(())
}

#[test]
fn a_list_begins_empty(rt: HostRuntime) {
    let none: Sequence<u8> = Sequence::from_vec(Sequence::new(rt.alloc()).into_vec());
    assert!(rt; none.is_empty());
    assert_eq!(rt; none.len(), 0);
    assert!(rt; none.get(0).is_none());
}

fn counted(alloc: Global, from: Shared<u64>, count: u64) -> Result<Shared<u64>, AllocError> {
    let mut list = from;
    for number in 0..count {
        list = list.with(alloc, number)?;
    }
    Ok(list)
}

fn newest(list: &Shared<u64>) -> Option<u64> {
    match list.newest() {
        Some((number, _)) => Some(*number),
        None => None,
    }
}

#[test]
fn a_million_links_are_shared_and_dropped(rt: HostRuntime) -> Result<(), Fail> {
    let none = Shared::new(rt.alloc())?;
    assert!(rt; none.is_empty());
    let list = counted(rt.alloc(), none, 1_000_000)?;
    let other = counted(rt.alloc(), list.copy()?, 3)?;
    drop(list);
    assert_eq!(rt; newest(&other), Some(2));
    let list = other.copy()?.with(rt.alloc(), 7)?;
    drop(other);
    assert_eq!(rt; newest(&list), Some(7));
    assert!(rt; !list.is_empty());
    Ok(())
}
