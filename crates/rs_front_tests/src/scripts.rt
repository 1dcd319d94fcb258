//! Scripts over readers, writers and devices that fail.

use crate::ends::{Call, FailsOnce};
use crate::sources::{commands_of, new_source, new_source_on};
use rs_disk::{FaultyReader, FaultyWriter, MemoryDisk};
use rs_io::{StreamFault, Watched};
use rs_script::{script, script_bytes};
use rs_store::Source;
use std::process::Abort;
use std::test::Fail;

/// Three commands. The last line ends with the input.
const PUBLISHED: &[u8] = b"publish\npublish\npublish";

/// Returns the number of lines that end in these bytes.
fn lines_in(bytes: &[u8]) -> usize {
    bytes.iter().filter(|b| **b == b'\n').count()
}

/// Runs the three commands over a reader that gives pieces of this length and fails from a read on. The lines that came
/// whole before it are done and answered, and no others.
fn fails_reading(
    rt: &(impl Abort + AllocGlobal),
    source: &mut Source<MemoryDisk>,
    piece: usize,
    fail_at: usize,
) -> Result<(), Fail> {
    let before = commands_of(source)?;
    let mut reader = Watched::new(FaultyReader::new(PUBLISHED, piece.max(1), fail_at as u64));
    let mut writer = Watched::new(Vec::new(rt.alloc()));
    let ended = script(rt.alloc(), source, &mut reader, &mut writer);
    let come = piece.saturating_mul(fail_at).min(PUBLISHED.len());
    // The read after the last byte finds the end.
    let (wanted, whole) = if fail_at > PUBLISHED.len().div_ceil(piece.max(1)) {
        (Ok(()), 3)
    } else {
        (Err(StreamFault::Read), lines_in(&PUBLISHED[..come]))
    };
    assert!(rt; ended == wanted, "pieces of {piece}, read {fail_at}");
    assert!(rt;
        lines_in(&writer.into_inner()) == whole,
        "pieces of {piece}, read {fail_at}"
    );
    let after = commands_of(source)?;
    assert!(rt;
        after.checked_sub(before) == Some(whole as u64),
        "pieces of {piece}, read {fail_at}"
    );
    Ok(())
}

/// Lets every read fail in turn, for pieces of several lengths.
fn fails_at_each_read(
    rt: &(impl Abort + AllocGlobal),
    source: &mut Source<MemoryDisk>,
) -> Result<(), Fail> {
    for piece in [1, 5, 8, PUBLISHED.len()] {
        for fail_at in 0..PUBLISHED.len().div_ceil(piece) + 2 {
            fails_reading(rt, source, piece, fail_at)?;
        }
    }
    Ok(())
}

#[test]
fn a_reader_fails_at_each_read(rt: HostRuntime) -> Result<(), Fail> {
    let mut source = new_source(rt.alloc())?;
    fails_at_each_read(&rt, &mut source)
}

/// A line, its answer, and the number of commands that have been accepted then.
type Row<'a> = (&'a [u8], &'a [u8], u64);

/// A script with one line for most statements.
const TALK: [Row<'static>; 9] = [
    (
        b"put a 6162 a/b\n",
        b"created 1970-01-01T00:00:00.001Z\n",
        1,
    ),
    (b"show /resource/a\n", b"bytes 2\nab\n", 1),
    (b"verify\n", b"verified 1\n", 1),
    (b"publish\n", b"published 1 1970-01-01T00:00:00.002Z\n", 2),
    (
        b"show /.well-known/resourcesync\n",
        b"bytes 292
<?xml version=\"1.0\" encoding=\"UTF-8\"?>
<urlset xmlns=\"http://www.sitemaps.org/schemas/sitemap/0.9\" xmlns:rs=\"http://www.openarchives.org/rs/terms/\">
<rs:md capability=\"description\"/>
<url><loc>http://127.0.0.1:8080/capabilitylist.xml</loc><rs:md capability=\"capabilitylist\"/></url>
</urlset>

",
        2,
    ),
    (b"no line\n", b"refused BadLine\n", 2),
    (b"put a - a/b\n", b"updated 1970-01-01T00:00:00.003Z\n", 3),
    (b"delete a\n", b"deleted 1970-01-01T00:00:00.004Z\n", 4),
    (
        b"status",
        b"resources 0 changes 3 publication 1 last 1970-01-01T00:00:00.004Z\n",
        4,
    ),
];

/// Checks that these bytes are a beginning of the answers, and counts the commands that were accepted for them.
fn commands_for(rt: &impl Abort, written: &[u8]) -> u64 {
    let mut rest = written;
    for (_, answer, commands) in &TALK {
        if rest.len() < answer.len() {
            assert!(rt; answer.starts_with(rest));
            return *commands;
        }
        assert!(rt; rest.starts_with(answer));
        rest = &rest[answer.len()..];
    }
    assert!(rt; rest.is_empty());
    4
}

/// Runs the script of the table over a writer that fails from a call on, and answers whether it failed. The lines whose
/// answers are written are done, and the next one.
fn fails_writing(
    rt: &(impl Abort + AllocGlobal),
    source: &mut Source<MemoryDisk>,
    input: &[u8],
    fail_at: u64,
) -> Result<bool, Fail> {
    let mut reader = Watched::new(input);
    let mut writer = Watched::new(FaultyWriter::new(rt.alloc(), fail_at));
    let ended = script(rt.alloc(), source, &mut reader, &mut writer);
    let commands = commands_for(rt, writer.get_ref().bytes());
    assert!(rt; commands_of(source)? == commands, "write {fail_at}");
    assert!(rt;
        ended == Ok(()) || ended == Err(StreamFault::Write),
        "write {fail_at}"
    );
    Ok(ended.is_err())
}

/// Does the same on a new source.
fn fails_writing_new(
    rt: &(impl Abort + AllocGlobal),
    input: &[u8],
    fail_at: u64,
) -> Result<bool, Fail> {
    let mut source = new_source(rt.alloc())?;
    fails_writing(rt, &mut source, input, fail_at)
}

/// Lets every write of a script fail in turn, and counts them.
fn fails_at_each_write(rt: &(impl Abort + AllocGlobal), input: &[u8]) -> Result<u64, Fail> {
    for fail_at in 0..200 {
        if !fails_writing_new(rt, input, fail_at)? {
            return Ok(fail_at);
        }
    }
    Err("two hundred writes".into())
}

#[test]
fn a_writer_fails_at_each_call(rt: HostRuntime) -> Result<(), Fail> {
    let mut input = Vec::new(rt.alloc());
    for (line, _, _) in &TALK {
        input.extend_from_slice(line)?;
    }
    // Every answer is at least one write.
    let writes = fails_at_each_write(&rt, &input)?;
    assert!(rt; writes >= TALK.len() as u64, "{writes}");
    Ok(())
}

/// Returns the number of commands accepted for these answers, or `None` if the bytes end within an answer.
fn commands_answered(written: &[u8]) -> Option<u64> {
    let mut rest = written;
    let mut accepted = 0;
    for (_, answer, commands) in &TALK {
        if rest.is_empty() {
            return Some(accepted);
        }
        if !rest.starts_with(answer) {
            return None;
        }
        rest = &rest[answer.len()..];
        accepted = *commands;
    }
    if rest.is_empty() {
        Some(accepted)
    } else {
        None
    }
}

/// Runs the script of the table, one byte a read, over a writer that fails at one call, and answers the kind of that
/// call. No line begins after the fault. If a write failed, its own line is done.
fn fails_once_writing(
    rt: &(impl Abort + AllocGlobal),
    source: &mut Source<MemoryDisk>,
    input: &[u8],
    fails_at: u32,
) -> Result<Option<Call>, Fail> {
    let mut reader = Watched::new(FaultyReader::new(input, 1, u64::MAX));
    let mut writer = Watched::new(FailsOnce::new(Vec::new(rt.alloc()), fails_at));
    let ended = script(rt.alloc(), source, &mut reader, &mut writer);
    let failed = writer.get_ref().failed();
    let written = writer.get_ref().bytes();
    let accepted = commands_of(source)?;
    match failed {
        Some(Call::Write) => {
            assert!(rt; commands_for(rt, written) == accepted, "call {fails_at}")
        }
        _ => assert!(rt;
            commands_answered(written) == Some(accepted),
            "call {fails_at}"
        ),
    }
    let wanted = if failed.is_some() {
        Err(StreamFault::Write)
    } else {
        Ok(())
    };
    assert!(rt; ended == wanted, "call {fails_at}");
    Ok(failed)
}

/// Does the same on a new source.
fn fails_once_writing_new(
    rt: &(impl Abort + AllocGlobal),
    input: &[u8],
    fails_at: u32,
) -> Result<Option<Call>, Fail> {
    let mut source = new_source(rt.alloc())?;
    fails_once_writing(rt, &mut source, input, fails_at)
}

#[test]
fn a_writer_fails_once_at_each_call(rt: HostRuntime) -> Result<(), Fail> {
    let mut input = Vec::new(rt.alloc());
    for (line, _, _) in &TALK[..3] {
        input.extend_from_slice(line)?;
    }
    let mut flushes = 0u32;
    for fails_at in 0..200 {
        match fails_once_writing_new(&rt, &input, fails_at)? {
            Some(Call::Flush) => flushes = flushes.saturating_add(1),
            Some(_) => {}
            None => {
                // One flush before every read, and one at the end.
                assert!(rt; flushes as usize == input.len() + 2);
                return Ok(());
            }
        }
    }
    Err("two hundred calls".into())
}

/// Runs the three commands, one byte a read, over a reader that fails at one read. No command after it is done.
fn fails_once_reading(
    rt: &(impl Abort + AllocGlobal),
    source: &mut Source<MemoryDisk>,
    fails_at: u32,
) -> Result<(), Fail> {
    let before = commands_of(source)?;
    let bytes = FaultyReader::new(PUBLISHED, 1, u64::MAX);
    let mut reader = Watched::new(FailsOnce::new(bytes, fails_at));
    let mut writer = Watched::new(Vec::new(rt.alloc()));
    let ended = script(rt.alloc(), source, &mut reader, &mut writer);
    assert!(rt; ended == Err(StreamFault::Read), "read {fails_at}");
    let come = (fails_at as usize).min(PUBLISHED.len());
    let whole = lines_in(&PUBLISHED[..come]);
    assert!(rt; lines_in(&writer.into_inner()) == whole, "read {fails_at}");
    assert!(rt;
        commands_of(source)?.checked_sub(before) == Some(whole as u64),
        "read {fails_at}"
    );
    Ok(())
}

#[test]
fn a_reader_fails_once_at_each_read(rt: HostRuntime) -> Result<(), Fail> {
    let mut source = new_source(rt.alloc())?;
    for fails_at in [0, 5, 8, 12, 16, PUBLISHED.len() as u32] {
        fails_once_reading(&rt, &mut source, fails_at)?;
    }
    Ok(())
}

/// Runs a script from memory, and checks its answers.
fn is_answered(
    rt: &(impl Abort + AllocGlobal),
    source: &mut Source<MemoryDisk>,
) -> Result<(), Fail> {
    let mut output = Watched::new(Vec::new(rt.alloc()));
    script_bytes(
        rt.alloc(),
        source,
        b"at 7\nput a 61 a/b\nshow /resource/a",
        &mut output,
    )?;
    assert!(rt;
        output.into_inner().as_slice()
            == b"ok\ncreated 1970-01-01T00:00:00.007Z\nbytes 1\na\n".as_slice()
    );
    Ok(())
}

#[test]
fn a_script_lies_in_memory(rt: HostRuntime) -> Result<(), Fail> {
    let mut source = new_source(rt.alloc())?;
    is_answered(&rt, &mut source)
}

/// Two resources, one of them empty, and `verify` twice.
const VERIFIED: &[u8] = b"put a - a/b
publish
put b 616263 a/b
verify
verify
show /resource/b
publish
";

/// Runs that script over a device that fails in the first `verify`. The source is unchanged and stays open.
fn goes_on_after_a_fault(
    rt: &(impl Abort + AllocGlobal),
    source: &mut Source<MemoryDisk>,
) -> Result<(), Fail> {
    let mut output = Watched::new(Vec::new(rt.alloc()));
    script_bytes(rt.alloc(), source, VERIFIED, &mut output)?;
    let wanted = b"created 1970-01-01T00:00:00.001Z
published 1 1970-01-01T00:00:00.002Z
created 1970-01-01T00:00:00.003Z
refused Device
verified 2
bytes 3
abc
published 2 1970-01-01T00:00:00.004Z
";
    assert!(rt; output.into_inner().as_slice() == wanted.as_slice());
    Ok(())
}

#[test]
fn a_device_fails_in_verify(rt: HostRuntime) -> Result<(), Fail> {
    let mut disk = MemoryDisk::new(rt.alloc(), 65_536)?;
    // The formatting makes six calls, and the commands 24. The next one is the first read of `b`: the empty body needs
    // no read.
    disk.fail_once(30);
    let mut source = new_source_on(rt.alloc(), disk)?;
    goes_on_after_a_fault(&rt, &mut source)
}
