use super::*;
use kin_ids::{Epoch, Inc, IngestId, Memory, PartId, Stamp, StampList};
use std::alloc::Global;
use std::test::Fail;

fn stamp(ingest: u16, inc: u16, from: u64, to: u64) -> Stamp {
    Stamp {
        ingest: IngestId(ingest),
        inc: Inc(inc),
        from,
        to,
    }
}

fn end(inc: u16, to: u64) -> End {
    End { inc: Inc(inc), to }
}

// Of two nodes the transactions up to 2 and up to 4.
fn pending(alloc: Global) -> Result<[StampList; 2], Memory> {
    let mut lists = [StampList::new(alloc), StampList::new(alloc)];
    for (ingest, list) in lists.iter_mut().enumerate() {
        list.push(stamp(ingest as u16, 0, 0, 2))?;
        list.push(stamp(ingest as u16, 0, 2, 4))?;
    }
    Ok(lists)
}

#[test]
fn fair_cuts(rt: HostRuntime) -> Result<(), Fail> {
    let lists = pending(rt.alloc())?;
    let ends = [
        [2, 0],
        [2, 0],
        [2, 2],
        [2, 2],
        [4, 2],
        [4, 2],
        [4, 4],
        [4, 4],
        [4, 4],
        [4, 4],
        [4, 4],
        [4, 4],
    ];
    for (n, expected) in (1..).zip(ends) {
        let vector = fair(rt.alloc(), &[0, 0], &lists, n)?;
        assert!(rt; vector.as_slice() == expected.as_slice(), "at {n} records");
    }
    Ok(())
}

// Past 2 and 2, of node 0 the transaction up to 4, and under the next incarnation the one up to 5; of node 1 the one up to 4.
fn restarted(alloc: Global) -> Result<[StampList; 2], Memory> {
    let mut lists = [StampList::new(alloc), StampList::new(alloc)];
    lists[0].push(stamp(0, 0, 2, 4))?;
    lists[0].push(stamp(0, 1, 4, 5))?;
    lists[1].push(stamp(1, 0, 2, 4))?;
    Ok(lists)
}

#[test]
fn cuts_before_and_after_a_restart(rt: HostRuntime) -> Result<(), Fail> {
    let mut table = Table::new(rt.alloc(), 2, 1)?;
    let lists = pending(rt.alloc())?;
    let refused = table.cut(None, &lists);
    assert!(rt; matches!(refused, Err(CutRefused::NotReported(PartId(0)))));
    table.report(PartId(0), &[Inc(0), Inc(0)], &[5, 4]);
    assert_eq!(rt; table.raise(IngestId(0), 5), Raised::Raised(5));
    assert_eq!(rt; table.raise(IngestId(1), 4), Raised::Raised(4));
    let first = table.cut(Some(3), &lists)?;
    assert!(rt; first.ends.as_slice() == [end(0, 2), end(0, 2)].as_slice());
    let second = table.cut(None, &restarted(rt.alloc())?)?;
    assert!(rt; second.ends.as_slice() == [end(1, 5), end(0, 4)].as_slice());
    Ok(())
}
