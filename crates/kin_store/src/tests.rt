//! One partition's store, written and read after it was shared.

use crate::{Index, Pair, PartSnap};
use kin_ids::{Epoch, IngestId, Op, PartId, Place, Tag, User};
use std::alloc::Global;
use std::marker::Model;
use std::process::Abort;
use std::test::Fail;
use std::thread;

// The store of the only partition, and its index.
#[derive(Drop)]
struct Written {
    snap: PartSnap,
    index: Index,
    number: u32,
}

impl Model for Written {
    ghost use Rattle.std.specs.Prelude.{◌≡◌, ◌≤◌};
    ghost use Rattle.kin_ids.specs.declared.ids.User.{User};
    ghost use Rattle.kin_store.specs.State.{row_of};
    ghost use Rattle.kin_store.specs.Changes.{kept};
    ghost use Rattle.kin_store.specs.Hints.{IsIndexed};

    ghost Value = { Unit {0} };

    ghost view = { λ _. tt };

    ghost invariant = { λ a. IsIndexed (kept a.snap) a.index
        × (((a.snap.part ≡ 0) × (a.snap.parts ≡ 1)) × ((u : User) → (row_of a.snap u).said ≤ a.number)) };
}

impl Written {
    fn new(alloc: Global) -> Result<Written, Fail> {
        let snap = PartSnap::new(alloc, PartId(0), 1)?;
        Ok(Written {
            snap,
            index: Index::new(alloc),
            number: 0,
        })
    }

    // What the next record does.
    fn write(&mut self, op: Op) -> Result<(), Fail> {
        let number = self.number;
        let Some(more) = number.checked_add(1) else {
            return Ok(());
        };
        let place = Place {
            epoch: Epoch(1),
            ingest: IngestId(0),
            number: u64::from(number),
        };
        self.number = more;
        self.snap.write(&mut self.index, place, &op)?;
        Ok(())
    }
}

fn pair(user: u32, other: u32) -> Pair {
    Pair {
        user: User(user),
        other: User(other),
    }
}

#[test]
fn a_long_row(rt: HostRuntime) -> Result<(), Fail> {
    let mut all = Written::new(rt.alloc())?;
    for number in 0..5000 {
        all.write(Op::AddOut(User(0), User(number + 1)))?;
    }
    let share = all.snap.share()?;
    for (user, at) in [
        (1, 0),
        (16, 15),
        (17, 16),
        (64, 63),
        (65, 64),
        (4097, 4096),
        (5000, 4999),
    ] {
        let half = all.snap.out_half(&all.index, pair(0, user));
        assert!(rt; half.is_some_and(|half| half.added.number == at && half.present));
    }
    assert!(rt; all.snap.out_half(&all.index, pair(0, 5001)).is_none());
    all.write(Op::DropOut(User(0), User(17)))?;
    all.write(Op::AddOut(User(0), User(5001)))?;
    let half = all.snap.out_half(&all.index, pair(0, 17));
    assert!(rt; half.is_some_and(|half| half.added.number == 16 && !half.present));
    assert!(rt; share.row(User(0)).out().iter().all(|half| half.present));
    assert_eq!(rt; share.row(User(0)).out().len(), 5000);
    Ok(())
}

#[test]
fn halves_and_mentions(rt: HostRuntime) -> Result<(), Fail> {
    let mut all = Written::new(rt.alloc())?;
    all.write(Op::AddIn(User(2), User(1)))?;
    all.write(Op::DropIn(User(2), User(1)))?;
    all.write(Op::MentionOut(User(3), User(4)))?;
    all.write(Op::MentionIn(User(5), User(6)))?;
    let (snap, index) = (&all.snap, &all.index);
    let half = snap.in_half(index, pair(2, 1));
    assert!(rt; half.is_some_and(|half| !half.present));
    assert!(rt; snap.mentions_user(index, pair(3, 4)));
    assert!(rt; snap.mentioned_by(index, pair(5, 6)));
    assert!(rt; !snap.mentioned_by(index, pair(6, 5)));
    Ok(())
}

#[test]
fn uses(rt: HostRuntime) -> Result<(), Fail> {
    let Some(go) = Tag::read(b"go") else {
        return Ok(());
    };
    let mut all = Written::new(rt.alloc())?;
    all.write(Op::Use(User(70000), go))?;
    all.write(Op::TagUse(go, User(8)))?;
    let (snap, index) = (&all.snap, &all.index);
    let first = snap.first_use(index, User(70000), go);
    assert!(rt; first.is_some_and(|entry| entry.first.number == 0));
    assert!(rt; snap.has_tag_user(index, go, User(8)));
    assert!(rt; snap.tags()?.as_slice() == [go].as_slice());
    Ok(())
}

#[test]
fn vertices_ascend(rt: HostRuntime) -> Result<(), Fail> {
    let Some(go) = Tag::read(b"go") else {
        return Ok(());
    };
    let mut all = Written::new(rt.alloc())?;
    let none = all.snap.share()?;
    all.write(Op::Use(User(70000), go))?;
    all.write(Op::Said(User(9)))?;
    all.write(Op::DropOut(User(3), User(1)))?;
    all.write(Op::AddIn(User(2), User(1)))?;
    let users = all.snap.vertices()?;
    assert!(rt; users.as_slice() == [User(2), User(70000)].as_slice());
    assert_eq!(rt;
        (all.snap.row(User(9)).said(), none.vertices()?.len()),
        (1, 0)
    );
    Ok(())
}

#[test]
fn read_by_two_threads(rt: HostRuntime) -> Result<(), Fail> {
    let mut all = Written::new(rt.alloc())?;
    all.write(Op::AddOut(User(1), User(2)))?;
    let snap = all.snap.share()?;
    let (follower, followed) = thread::join(
        &rt,
        || snap.row(User(1)).is_vertex(),
        || snap.row(User(2)).is_vertex(),
    );
    assert_eq!(rt; (follower, followed), (true, false));
    let (moved, _) = thread::join(&rt, move || snap.row(User(3)).is_vertex(), || ());
    assert!(rt; !moved);
    Ok(())
}
