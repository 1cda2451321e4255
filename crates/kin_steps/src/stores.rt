//! A snapshot as text.

ghost use Rattle.std.specs.Prelude.{◌≡◌, ◌<◌};

use crate::faults::Fault;
use kin_graph::{Steps, Use, View};
use kin_hub::Snap;
use kin_ids::{Place, Tag, User};
use std::alloc::Global;
use std::fmt;
use std::marker::Brand;
use std::sync::ledger::{Blank, Ledger};

#[derive(Clone, Copy, Debug)]
pub(crate) struct At(pub(crate) Place);

#[derive(Clone, Copy, Debug)]
pub(crate) struct TagText(pub(crate) Tag);

// Lists, whose items each stand after a space.
#[derive(Clone, Copy)]
struct Halves<'a>(&'a kin_graph::Halves);

#[derive(Clone, Copy, Debug)]
struct Users<'a>(&'a [User]);

#[derive(Clone, Copy, Debug)]
struct Uses<'a>(&'a [Use]);

impl fmt::Display for At {
    fn fmt<W: fmt::Write>(&self, f: &mut fmt::Formatter<W>) -> fmt::Result {
        let place = self.0;
        write!(f, "{}.{}.{}", place.epoch.0, place.ingest.0, place.number)
    }
}

impl fmt::Display for TagText {
    fn fmt<W: fmt::Write>(&self, f: &mut fmt::Formatter<W>) -> fmt::Result {
        for byte in self.0.bytes() {
            write!(f, "{}", char::from(*byte))?;
        }
        Ok(())
    }
}

impl fmt::Display for Halves<'_> {
    fn fmt<W: fmt::Write>(&self, f: &mut fmt::Formatter<W>) -> fmt::Result {
        for half in self.0.iter() {
            let sign = if half.present { '+' } else { '-' };
            write!(f, " {}@{}{sign}", half.other.0, At(half.added))?;
        }
        Ok(())
    }
}

impl fmt::Display for Users<'_> {
    fn fmt<W: fmt::Write>(&self, f: &mut fmt::Formatter<W>) -> fmt::Result {
        for user in self.0 {
            write!(f, " {}", user.0)?;
        }
        Ok(())
    }
}

impl fmt::Display for Uses<'_> {
    fn fmt<W: fmt::Write>(&self, f: &mut fmt::Formatter<W>) -> fmt::Result {
        for first in self.0 {
            write!(f, " {}@{}", TagText(first.tag), At(first.first))?;
        }
        Ok(())
    }
}

fn ascending(alloc: Global, users: &kin_graph::Users) -> Result<Vec<User>, Fault> {
    let mut users: Vec<User> = users.iter().copied().collect(alloc)?;
    users.sort_unstable();
    Ok(users)
}

fn print_user<R: Print + Alloc<A = Global>, L: Ledger>(
    rt: &R,
    snap: &Snap,
    user: User,
    steps: &mut Steps<L>,
) -> Result<(), Fault> {
    let out = Halves(snap.out(user, steps));
    let inn = Halves(snap.inn(user, steps));
    let mentions = ascending(rt.alloc(), snap.mentions(user, steps))?;
    let mentioners = ascending(rt.alloc(), snap.mentioners(user, steps))?;
    let mut uses: Vec<Use> = snap.uses(user).iter().copied().collect(rt.alloc())?;
    uses.sort_by_key(|first| first.tag)?;
    print!(rt; "user {} out{out} in{inn}", user.0)?;
    print!(rt;
        " mentions{} mentioned{}",
        Users(&mentions),
        Users(&mentioners)
    )?;
    println!(rt; " said {} uses{}", snap.said(user), Uses(&uses))?;
    Ok(())
}

fn print_users<R: Print + Alloc<A = Global>, L: Ledger>(
    rt: &R,
    snap: &Snap,
    blank: Blank,
) -> Result<(), Fault>
    requires name { blank.name ≡ L.name }
    requires parts { (blank.parts ≡ L.parts) × (0 < L.parts) }
{
    let mut steps = Steps::<L>::new(blank);
    for user in &snap.users()? {
        print_user(rt, snap, *user, &mut steps)?;
    }
    Ok(())
}

/// Prints a line for each vertex and then one for each tag in use, with the number of its users. Follow halves stand in the order of
/// first adding; all else ascends.
pub(crate) fn print_store<R: Print + Alloc<A = Global>>(rt: &R, snap: &Snap) -> Result<(), Fault> {
    print_users::<_, Brand>(rt, snap, Blank::new(1))?;
    for tag in &snap.tags()? {
        println!(rt; "tag {} {}", TagText(*tag), snap.tag_users(*tag))?;
    }
    Ok(())
}
