//! Rows of words, each in one line, and what they are. In a row `|` stands between words.

use super::*;
use std::alloc::Global;
use std::test::Fail;
use uuid::Uuid;

// The words of a row.
fn split(alloc: Global, row: &str) -> Result<Vec<String>, Fail> {
    let mut words = Vec::new(alloc);
    for word in row.split('|') {
        words.push(word.to_string(alloc)?)?;
    }
    Ok(words)
}

/// Words that are no command of dmzadm: words that ask for help, two flags, a flag or an option twice, a flag without
/// what it needs or with what it doesn't take, numbers, identifiers and labels that are none, and stray words.
static NO_ADMIN: [&str; 32] = [
    "",
    "img",
    "--help",
    "-h",
    "--check|--help|img",
    "--check",
    "--check|img|other",
    "--check|--status|img",
    "--check|--check|img",
    "--check=yes|img",
    "--check|-x",
    "--check|--unknown|img",
    "--chec|img",
    "--check|--label|tank|img",
    "--check|--seq|2|img",
    "--repair|--uuid|00000000-0000-4000-8000-000000000001|img",
    "--format|img",
    "--format|--uuid|none|img",
    "--format|--uuid|00000000-0000-4000-8000-000000000001",
    "--format|--seq|65537|--uuid|00000000-0000-4000-8000-000000000001|img",
    "--format|--seq|02|--uuid|00000000-0000-4000-8000-000000000001|img",
    "--format|--seq|+2|--uuid|00000000-0000-4000-8000-000000000001|img",
    "--format|--seq||--uuid|00000000-0000-4000-8000-000000000001|img",
    "--format|--seq|2|--seq=2|--uuid|00000000-0000-4000-8000-000000000001|img",
    "--relabel|img",
    "--relabel|--label|img",
    "--relabel|--label|--tank|img",
    "--relabel|--label|tank|--seq|2|img",
    "--relabel|--label|a-label-of-thirty-three-bytes-long|img",
    "--upgrade|img",
    "--status|--|--check|img",
    "--status|img|--label",
];

#[test]
fn words_that_are_no_command_of_dmzadm(rt: HostRuntime) -> Result<(), Fail> {
    for row in &NO_ADMIN {
        let words = split(rt.alloc(), row)?;
        assert_eq!(rt; admin_command(rt.alloc(), words.as_slice()), Ok(None));
    }
    Ok(())
}

// The bytes of a label that is a short text.
fn label(text: &[u8]) -> [u8; LABEL_BYTES] {
    let mut label = [0; LABEL_BYTES];
    for (at, byte) in label.iter_mut().zip(text) {
        *at = *byte;
    }
    label
}

// Whether a row is this command of dmzadm, on the image `img`.
fn is_admin(alloc: Global, row: &str, task: AdminTask) -> Result<bool, Fail> {
    let words = split(alloc, row)?;
    let image = "img";
    Ok(admin_command(alloc, words.as_slice()) == Ok(Some(AdminCommand { task, image })))
}

#[test]
fn words_of_dmzadm_in_any_order(rt: HostRuntime) -> Result<(), Fail> {
    let alloc = rt.alloc();
    let volume = Uuid::from_u128(0x0000_0000_0000_4000_8000_0000_0000_0001);
    let tank = AdminTask::Relabel {
        label: label(b"tank"),
    };
    let format = AdminTask::Format {
        reserved: 7,
        volume,
        label: label(b"-a=b"),
    };
    let upgrade = AdminTask::Upgrade {
        volume,
        label: label(b""),
    };
    assert!(rt; is_admin(alloc, "--check|img", AdminTask::Check)?);
    assert!(rt; is_admin(alloc, "img|--check", AdminTask::Check)?);
    assert!(rt; is_admin(alloc, "--repair|--|img", AdminTask::Repair)?);
    assert!(rt; is_admin(alloc, "img|--status|--", AdminTask::Show)?);
    assert!(rt; is_admin(alloc, "--label=tank|img|--relabel", tank)?);
    assert!(rt;
        is_admin(
            alloc,
            "img|--seq|7|--label=-a=b|--format|--uuid=00000000000040008000000000000001",
            format
        )?
    );
    assert!(rt;
        is_admin(
            alloc,
            "--uuid|00000000-0000-4000-8000-000000000001|--upgrade|img",
            upgrade
        )?
    );
    Ok(())
}

/// Words that are no command of zreplay_one: neither a script nor a seed or both, one of two options, numbers that are
/// none or out of their bounds, an option of zreplay, stray words.
static NO_ALONE: [&str; 14] = [
    "",
    "img",
    "--help",
    "img|s|other",
    "-img|s",
    "--make|1|img",
    "--count|3|img",
    "--make|1|--count|3|img|s",
    "--make|1|--count|3",
    "--make|1|--count|0|img",
    "--make|1|--count|4097|img",
    "--make|18446744073709551616|--count|1|img",
    "--make|-1|--count|1|img",
    "--actors|1|img|s",
];

#[test]
fn words_that_are_no_command_of_zreplay_one(rt: HostRuntime) -> Result<(), Fail> {
    for row in &NO_ALONE {
        let words = split(rt.alloc(), row)?;
        assert_eq!(rt; alone_command(rt.alloc(), words.as_slice()), Ok(None));
    }
    Ok(())
}

// Whether a row is this command of zreplay_one, on the image `img`.
fn is_alone(alloc: Global, row: &str, task: ReplayTask<'static>) -> Result<bool, Fail> {
    let words = split(alloc, row)?;
    let image = "img";
    Ok(alone_command(alloc, words.as_slice()) == Ok(Some(AloneCommand { task, image })))
}

#[test]
fn words_of_zreplay_one_in_any_order(rt: HostRuntime) -> Result<(), Fail> {
    let alloc = rt.alloc();
    let last = ReplayTask::Made {
        seed: 18_446_744_073_709_551_615,
        count: 4_096,
    };
    assert!(rt; is_alone(alloc, "img|s", ReplayTask::Script { script: "s" })?);
    assert!(rt; is_alone(alloc, "img|-", ReplayTask::Script { script: "-" })?);
    assert!(rt;
        is_alone(
            alloc,
            "img|--|--make",
            ReplayTask::Script { script: "--make" }
        )?
    );
    assert!(rt;
        is_alone(
            alloc,
            "--count=3|img|--make|1",
            ReplayTask::Made { seed: 1, count: 3 }
        )?
    );
    assert!(rt; is_alone(alloc, "--make|18446744073709551615|--count|4096|img", last)?);
    Ok(())
}

// Whether a row is this command of zreplay, on the image `img`.
fn is_replay(
    alloc: Global,
    row: &str,
    task: ReplayTask<'static>,
    actors: u32,
) -> Result<bool, Fail> {
    let words = split(alloc, row)?;
    let image = "img";
    let wanted = ReplayCommand {
        task,
        image,
        actors,
    };
    Ok(replay_command(alloc, words.as_slice()) == Ok(Some(wanted)))
}

#[test]
fn words_of_zreplay(rt: HostRuntime) -> Result<(), Fail> {
    let alloc = rt.alloc();
    let script = ReplayTask::Script { script: "s" };
    assert!(rt; is_replay(alloc, "img|s", script, 4)?);
    assert!(rt; is_replay(alloc, "img|s|--actors|64", script, 64)?);
    assert!(rt;
        is_replay(
            alloc,
            "--actors=1|--make|0|--count|1|img",
            ReplayTask::Made { seed: 0, count: 1 },
            1
        )?
    );
    for row in [
        "img",
        "--actors|0|img|s",
        "--actors|65|img|s",
        "--actors|1|--actors|1|img|s",
    ] {
        let words = split(alloc, row)?;
        assert_eq!(rt; replay_command(alloc, words.as_slice()), Ok(None));
    }
    Ok(())
}
