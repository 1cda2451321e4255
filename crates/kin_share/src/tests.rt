//! A list of more than a page, written after it was shared.

use crate::SharedList;
use std::process::Abort;
use std::test::Fail;

// The first and the last item of chunks, of the page and of the rest.
const PLACES: [usize; 6] = [0, 63, 64, 4095, 4096, 4999];

#[test]
fn a_share_stays_as_it_was(rt: HostRuntime) -> Result<(), Fail> {
    let alloc = rt.alloc();
    let mut numbers: Vec<u32> = (0..5000).collect(alloc)?;
    let mut list = SharedList::new(alloc);
    for number in &numbers {
        list.push(*number)?;
    }
    let share = list.clone()?;
    let shared: Vec<u32> = share.iter().copied().collect(alloc)?;
    assert!(rt; shared.as_slice() == numbers.as_slice());
    for place in PLACES {
        if place < list.len() {
            list.set(place, 7000)?;
        }
        if let Some(number) = numbers.get_mut(place) {
            *number = 7000;
        }
    }
    list.push(8000)?;
    numbers.push(8000)?;
    let written: Vec<u32> = list.iter().copied().collect(alloc)?;
    assert!(rt; written.as_slice() == numbers.as_slice());
    let kept: Vec<u32> = share.iter().copied().collect(alloc)?;
    assert!(rt; kept.as_slice() == shared.as_slice());
    Ok(())
}

#[test]
fn few_items(rt: HostRuntime) -> Result<(), Fail> {
    let mut list = SharedList::new(rt.alloc());
    assert!(rt; list.is_empty() && list.head(16).is_empty() && list.iter().next().is_none());
    list.push('a')?;
    list.push('b')?;
    assert_eq!(rt; list.len(), 2);
    assert_eq!(rt; (list.at(0), list.at(1)), ('a', 'b'));
    assert!(rt; list.head(1) == ['a'].as_slice());
    Ok(())
}
