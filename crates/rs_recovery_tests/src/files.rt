//! A source on a real file, which is reopened after each stop as a disk of another type.

use super::asking::Asked::{Delete, Publish, Put};
use super::asking::{Answer, Asked, answer_of, at, commands_of, told};
use rs_file::{FileDisk, Start};
use rs_recovery::format_run_recover_twice;
use rs_store::{Ack, Source};
use std::fs;
use std::test::Fail;

/// The bytes of the file when it is made.
#[derive(Drop)]
struct Made;

/// Its bytes when it is opened again.
#[derive(Drop)]
struct Opened;

/// Its bytes when it is opened a third time.
#[derive(Drop)]
struct OpenedAgain;

impl Start for Made {
    ghost use Rattle.std.specs.Prelude.{[]};

    ghost first = { [] };

    ghost torn = { λ _. [] };
}

impl Start for Opened {
    ghost use Rattle.std.specs.Prelude.{[]};

    ghost first = { [] };

    ghost torn = { λ _. [] };
}

impl Start for OpenedAgain {
    ghost use Rattle.std.specs.Prelude.{[]};

    ghost first = { [] };

    ghost torn = { λ _. [] };
}

/// The answers of both runs, and the source that was recovered.
type Recovered = (Vec<Ack>, Vec<Ack>, Source<FileDisk<OpenedAgain>>);

// The commands of the first run, which come at the moment 1000, and those of the second.
const FIRST: [Asked; 3] = [Put(b"a", b"one"), Publish, Put(b"b", b"two")];

const MORE: [Asked; 2] = [Delete(b"a"), Put(b"c", b"three")];

// The source after zero, one, two or three commands of the first run and both of the second.
const TOLD: [&str; 4] = [
    "held: c=three; published 0:; changes 1; last 1",
    "held: c=three; published 0:; changes 3; last 1002",
    "held: c=three; published 1: a; changes 3; last 1003",
    "held: b=two c=three; published 1: a; changes 4; last 1004",
];

/// Returns the bytes of a file of this name after a source was formatted on it and ran these commands.
fn bytes_after(rt: &HostRuntime, path: &str, asked: &[Asked]) -> Result<Vec<u8>, Fail> {
    let commands = commands_of(rt.alloc(), asked, 1000)?;
    let disk = FileDisk::create(rt, path, 16384, Made)?;
    let mut source = match Source::format(rt.alloc(), disk, b"http://a", 2, at(0)?) {
        Ok(source) => source,
        Err((_, fault)) => return Err(fault.into()),
    };
    let _acks = source.run(&commands)?;
    drop(source);
    let bytes = fs::read(rt, path)?;
    fs::remove_file(rt, path)?;
    Ok(bytes)
}

/// Formats a file of this name and runs commands. Writes these bytes, which a stop may have left, reopens the file,
/// runs more commands, and reopens it once more.
fn recovered(rt: &HostRuntime, path: &str, bytes: &[u8]) -> Result<Recovered, Fail> {
    let commands = commands_of(rt.alloc(), &FIRST, 1000)?;
    let more = commands_of(rt.alloc(), &MORE, 0)?;
    let disk = FileDisk::create(rt, path, 16384, Made)?;
    let second = |left: FileDisk<Made>| {
        drop(left);
        match fs::write(rt, path, bytes) {
            Ok(()) => FileDisk::open(rt, path, Opened).ok(),
            Err(_) => None,
        }
    };
    let third = |left: FileDisk<Opened>| {
        drop(left);
        FileDisk::open(rt, path, OpenedAgain).ok()
    };
    let ran = format_run_recover_twice(
        rt.alloc(),
        disk,
        b"http://a",
        2,
        at(0)?,
        &commands,
        second,
        &more,
        third,
    );
    fs::remove_file(rt, path)?;
    match ran {
        Ok(recovered) => Ok(recovered),
        Err(_) => Err("not recovered".into()),
    }
}

#[test]
fn a_file_is_opened_anew_twice(rt: HostRuntime) -> Result<(), Fail> {
    let path = "rs_recovery_test_twice";
    let _left = fs::remove_file(&rt, path);
    for (n, want) in TOLD.iter().enumerate() {
        let bytes = bytes_after(&rt, path, &FIRST[..n.min(3)])?;
        let (acks, answers, source) = recovered(&rt, path, &bytes)?;
        let mut source = source;
        assert_eq!(rt; told(rt.alloc(), &mut source)?.as_str(), *want);
        assert_eq!(rt; acks.last().map(answer_of), Some(Answer::Created(1002)));
        assert_eq!(rt; answers.len(), 2);
    }
    Ok(())
}
