//! The values of an epoch as text.

use crate::faults::Fault;
use crate::stores::TagText;
use kin_ids::{Tag, User};
use kin_mine::{EpochResult, Miner, ResultRefused};
use std::fmt;

// The value of a rule on walks, `-` where there is none.
#[derive(Clone, Copy, Debug)]
struct Value(Option<u32>);

impl fmt::Display for Value {
    fn fmt<W: fmt::Write>(&self, f: &mut fmt::Formatter<W>) -> fmt::Result {
        match self.0 {
            Some(value) => write!(f, "{value}"),
            None => write!(f, "-"),
        }
    }
}

fn print_user<R: Print>(
    rt: &R,
    values: &EpochResult,
    landmarks: usize,
    user: User,
) -> Result<(), Fault> {
    let (ins, outs) = (values.in_of(user), values.out_of(user));
    let (said, rank) = (values.said_of(user), values.rank_of(user));
    print!(rt;
        "value {} in {ins} out {outs} said {said} rank {rank} hops",
        user.0
    )?;
    for landmark in 0..landmarks {
        print!(rt; " {}", Value(values.hops_of(landmark, user)))?;
    }
    print!(rt; " close")?;
    for landmark in 0..landmarks {
        print!(rt; " {}", Value(values.close_of(landmark, user)))?;
    }
    println!(rt; "")?;
    Ok(())
}

fn print_tag<R: Print>(rt: &R, values: &EpochResult, tag: Tag) -> Result<(), Fault> {
    print!(rt; "use {} {}", TagText(tag), values.users_of(tag))?;
    for count in values.expo_of(tag) {
        print!(rt; " {}:{}", count.k, count.users)?;
    }
    println!(rt; "")?;
    Ok(())
}

fn print_values<R: Print>(rt: &R, values: &EpochResult, landmarks: usize) -> Result<(), Fault> {
    println!(rt; "result {}", values.epoch().0)?;
    for user in values.users() {
        print_user(rt, values, landmarks, *user)?;
    }
    for tag in values.tags() {
        print_tag(rt, values, *tag)?;
    }
    Ok(())
}

/// Prints the epoch begun last and a line for each vertex and then for each tag in use, with all their values. Where
/// users are active it prints the least of them.
pub(crate) fn print_result<R: Print>(rt: &R, miner: &Miner) -> Result<(), Fault> {
    match miner.result() {
        Ok(values) => print_values(rt, values, miner.landmarks().len())?,
        Err(ResultRefused::NotBegun) => println!(rt; "not-begun")?,
        Err(ResultRefused::Active(user)) => println!(rt; "active {}", user.0)?,
    }
    Ok(())
}
