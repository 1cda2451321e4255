use crate::{Close, Hops};
use kin_ids::User;
use kin_rules::{EdgeKind, PushRule};
use std::test::Fail;

// The landmark, and what a follow edge and a mention edge offer past 2.
fn offers<R: PushRule>(rule: &R) -> (User, [Option<u32>; 2]) {
    (
        rule.landmark(),
        [
            rule.along(EdgeKind::Follow, 2),
            rule.along(EdgeKind::Mention, 2),
        ],
    )
}

#[test]
fn what_edges_offer_their_ends(rt: HostRuntime) -> Result<(), Fail> {
    for landmark in [User(0), User(7)] {
        let (hops, close) = (Hops { landmark }, Close { landmark });
        assert!(rt; offers(&hops) == (landmark, [Some(3), None]));
        assert!(rt; offers(&close) == (landmark, [Some(5), Some(3)]));
    }
    Ok(())
}
