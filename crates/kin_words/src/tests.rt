use super::*;
use kin_ids::{DemoWords, ReplayWords};
use std::alloc::{AllocError, Global};
use std::process::Abort;
use std::test::Fail;

// The words of a line, which are parted by one space.
fn words_of(alloc: Global, line: &str) -> Result<Vec<String>, AllocError> {
    let mut words = Vec::new(alloc);
    for word in line.split(' ') {
        words.push(String::from_str(alloc, word)?)?;
    }
    Ok(words)
}

fn replay(alloc: Global, line: &str) -> Result<ReplayWords, WordsFault> {
    match words_of(alloc, line) {
        Ok(words) => read_replay(alloc, words.as_slice()),
        Err(_) => Err(WordsFault::Memory),
    }
}

fn demo(alloc: Global, line: &str) -> Result<DemoWords, WordsFault> {
    match words_of(alloc, line) {
        Ok(words) => read_demo(alloc, words.as_slice()),
        Err(_) => Err(WordsFault::Memory),
    }
}

const REFUSED: [&str; 41] = [
    "",
    "--script s",
    "--feeds a",
    "--script s --feeds",
    "--script --feeds a",
    "--script s --feeds a --top 1001",
    "--script s --feeds a --top 01",
    "--script s --feeds a --top -1",
    "--script s --feeds a --top=",
    "--script s --feeds a --top",
    "--script s --feeds a --top 1 --top 1",
    "--script s --feeds a,",
    "--script s --feeds ,a",
    "--script s --feeds a,,b",
    "--script s --feeds a --feeds b",
    "--script s --feeds=-a",
    "--script s --feeds -a",
    "--script s --feeds a --trace --trace",
    "--script s --feeds a --trace=true",
    "--script s --feeds a --trace=",
    "--script s --feeds a --",
    "-- --script s --feeds a",
    "--script -- --feeds a",
    "--script s --feeds a b",
    "--script s --feeds a --rules in,in",
    "--script s --feeds a --rules in,",
    "--script s --feeds a --rules In",
    "--script s --feeds a --rules",
    "--script s --feeds a --parts 0",
    "--script s --feeds a --parts 65",
    "--script s --feeds a --landmarks 1,1",
    "--script s --feeds a --landmarks 01",
    "--script s --feeds a --landmarks 4294967296",
    "--script s --feeds a --landmarks 1,2,3,4,5,6,7,8,9,10,11,12,13,14,15,16,17",
    "--script s --feeds a,a,a,a,a,a,a,a,a,a,a,a,a,a,a,a,a",
    "--script s --feeds a --help",
    "--script s --feeds a --version",
    "--script s --feeds a -h",
    "--script s --feeds a --every 1",
    "--scrip s --feeds a",
    "--script s --feeds a --=b",
];

const TAKEN: [&str; 14] = [
    "--feeds=a --script=s",
    "--script s --feeds a",
    "--trace --feeds a --script s",
    "--script=a=b --feeds a",
    "--script s --feeds a,a",
    "--script s --feeds a=b,--c",
    "--script s --feeds a,a,a,a,a,a,a,a,a,a,a,a,a,a,a,a",
    "--script s --feeds a --parts 64",
    "--script s --feeds a --parts=1",
    "--script s --feeds a --top 0",
    "--script s --feeds a --top 1000",
    "--script s --feeds a --landmarks 0,4294967295",
    "--script s --feeds a --rules close,in,out,said,tags,rank,expo,hops",
    "--script s --feeds a --landmarks 1,2,3,4,5,6,7,8,9,10,11,12,13,14,15,16",
];

#[test]
fn words_that_replay_refuses(rt: HostRuntime) {
    for line in REFUSED {
        assert!(&rt;
            replay(rt.alloc(), line).err() == Some(WordsFault::Usage),
            "at {line}"
        );
    }
    assert!(&rt; read_replay(rt.alloc(), &[]).err() == Some(WordsFault::Usage));
}

#[test]
fn words_that_replay_takes(rt: HostRuntime) {
    for line in TAKEN {
        assert!(&rt; replay(rt.alloc(), line).is_ok(), "at {line}");
    }
}

#[test]
fn what_words_choose(rt: HostRuntime) {
    let line = "--rules hops,in --trace --parts 3 --feeds a,b,a --landmarks 9,1 --top=7 --script s";
    let Ok(words) = replay(rt.alloc(), line) else {
        assert!(&rt; false, "no words");
        return;
    };
    let rules = words.options.rules;
    assert!(&rt; words.script.as_str() == "s" && words.feeds.as_slice().len() == 3);
    assert!(&rt; words.parts == 3 && words.options.top == 7 && words.trace);
    assert!(&rt; rules.ins && rules.hops && !rules.outs && !rules.close);
    assert!(&rt; words.options.landmarks.as_slice().len() == 2);
    let Ok(plain) = replay(rt.alloc(), "--script s --feeds a") else {
        return;
    };
    let rules = plain.options.rules;
    assert!(&rt; plain.parts == 1 && plain.options.top == 10 && !plain.trace);
    assert!(&rt;
        rules.ins
            && rules.outs
            && rules.said
            && rules.tags
            && rules.rank
            && rules.expo
            && rules.hops
            && rules.close
    );
}

#[test]
fn words_of_demo(rt: HostRuntime) {
    let words = demo(rt.alloc(), "--seed 18446744073709551615 --records 500000").ok();
    let most = DemoWords {
        seed: u64::MAX,
        records: 500000,
    };
    assert!(&rt; words == Some(most));
    let refused = [
        "",
        "--seed 7",
        "--records 1",
        "--seed 7 --records 0",
        "--seed 7 --records 500001",
        "--seed 18446744073709551616 --records 1",
        "--seed 7 --records 1 --seed 7",
        "--seed 7 --records 1 --records=1",
        "--seed 7 --records 1 --top 1",
    ];
    for line in refused {
        assert!(&rt;
            demo(rt.alloc(), line).err() == Some(WordsFault::Usage),
            "at {line}"
        );
    }
}

#[test]
fn first_words(rt: HostRuntime) {
    let table = [
        ("replay", Some(Command::Replay)),
        ("demo x", Some(Command::Demo)),
        ("", None),
        ("Replay", None),
        ("live", None),
    ];
    for (line, command) in table {
        if let Ok(words) = words_of(rt.alloc(), line) {
            assert!(&rt; pick(words.as_slice()) == command, "at {line}");
        }
    }
}
