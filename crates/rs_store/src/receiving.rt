//! Puts whose body comes from a reader.

ghost use Rattle.std.specs.Prelude.{◌≡◌, ◌<◌, ◌≤◌, ◌+◌, ◌*◌, ◌++◌, ◌^◌, ℕ, Bool, List, false, None, length, take, drop, IfOk, IfErr, OnOk, OnErr, IsErrOf, [], ◌∷◌};
ghost use Rattle.std.specs.Io.KnownBytes.{Consumes, Keeps, IsAtEnd};
ghost use Rattle.rs_io.specs.Watch.{watched, calls, failures, EndFailed, TellsEnd, Took};
ghost use Rattle.rs_extent.specs.Blocks.{block_size};
ghost use Rattle.rs_extent.specs.Extents.{IsOnDisk};
ghost use Rattle.rs_fixity.specs.Digests.{digests};
ghost use Rattle.rs_body.specs.Blocks.{part};
ghost use Rattle.rs_body.specs.Outside.{WritesOnly};
ghost use Rattle.rs_model.specs.declared.command.Command.TheVariants.{Put};
ghost use Rattle.rs_plan.specs.declared.planning.PlanFault.{PlanFault};
ghost use Rattle.rs_plan.specs.Allowed.{MayPut};
ghost use Rattle.rs_plan.specs.Plans.{IsFullFor};
ghost use Rattle.rs_plan.specs.Drafts.{AwaitsBody, IsDraft, IsDraftOf};
ghost use Rattle.rs_model.specs.Step.{moment_at};
ghost use Rattle.rs_store.specs.Source.{rooted_in, state_of};
ghost use Rattle.rs_store.specs.Refusals.{decided};
ghost use Rattle.rs_store.specs.Received.{AnswersFrom, IsCut, IsStopped, ReadsFor, coming_put, empty_reads, empty_reads_of};

use crate::source::rooted_by;
use crate::{Refusal, Source};
use rs_body::write_piece;
use rs_disk::Disk;
use rs_extent::Extent;
use rs_fixity::{Digests, Hashing};
use rs_io::{ReadFault, Watched};
use rs_model::Reply;
use rs_plan::{Plan, PlanFault, draft_put};
use rs_record::{MediaType, Name};
use rs_time::Moment;
use std::io::Read;

// The bytes of a piece of a body. The last piece may be shorter.
const PIECE_SIZE: usize = 4096;

impl<D: Disk> Source<D> {
    /// Puts the next `body_length` bytes of a reader as [`Source::put`] puts bytes. It first finds the blocks for all
    /// bytes that it will write. Then it reads the body in pieces of at most 4,096 bytes, and writes a piece before it
    /// reads the next, so memory does not grow with the body. It reads no byte after the body, makes at most one read
    /// per byte, and no read after a failed one.
    ///
    /// # Errors
    ///
    /// As with [`Source::put`], and right after [`Refusal::Full`]:
    ///
    /// - [`Refusal::ReadFault`] if a read of the body failed,
    /// - [`Refusal::ShortBody`] if the input ended within it.
    ///
    /// After these two the source holds the same state as before. The refusals before them come before any read.
    pub fn put_from<R: Read>(
        &mut self,
        name: &Name,
        kind: &MediaType,
        reader: &mut Watched<R>,
        body_length: u64,
        now: Moment,
    ) -> Result<Reply, Refusal>
        ensures came { (came : List ℕ)
            × Consumes (R.remaining (watched reader.old)) (R.remaining (watched reader.new)) came
            × AnswersFrom D.state self.old self.new (coming_put name.now kind.now body_length now) came result
            × ReadsFor (empty_reads_of result) reader.old reader.new came }
        ensures failed { TellsEnd (IsErrOf result Refusal.ReadFault) reader.old reader.new }
        ensures ended { IsErrOf result Refusal.ShortBody
            → IsAtEnd (R.remaining (watched reader.new)) }
    {
        let moment = self.accept_put(name, body_length, now)?;
        let length = body_length as u32;
        let mut plan = self.drafted_put(name, kind, length, moment)?;
        self.receive_planned(&mut plan, name, reader, length)
    }

    /// Plans a put of `body_length` bytes, at this moment and before they come.
    fn drafted_put(
        &mut self,
        name: &Name,
        kind: &MediaType,
        body_length: u32,
        moment: Moment,
    ) -> Result<Plan, PlanFault>
        requires may { MayPut self.old.contents name.now body_length moment }
        ensures same { self.new ≡ self.old }
        ensures draft { IfOk result
            (IsDraft (rooted_in D.state self.old) name.now kind.now body_length moment) }
        ensures full { IsErrOf result PlanFault.Full
            → (bytes : List ℕ) → length bytes ≡ body_length
            → IsFullFor (rooted_in D.state self.old) (Put name.now kind.now bytes) moment }
    {
        let rooted = rooted_by(&self.disk, &self.slots, &self.contents);
        draft_put(
            self.alloc,
            &mut self.used,
            &rooted,
            name,
            kind,
            body_length,
            moment,
        )
    }

    /// Reads the body of a drafted put, writes it to its extent, and then writes the lists.
    fn receive_planned<R: Read>(
        &mut self,
        plan: &mut Plan,
        name: &Name,
        reader: &mut Watched<R>,
        body_length: u32,
    ) -> Result<Reply, Refusal>
        requires is_open { self.old.is_closed ≡ false }
        requires spare { self.old.slots.root.generation + 1 < 2 ^ 64 }
        requires awaits { AwaitsBody name.now plan.old }
        requires planned { (kind : List ℕ) × (moment : ℕ)
            × IsDraftOf (rooted_in D.state self.old) name.now kind body_length moment plan.old }
        ensures came { (came : List ℕ)
            × Consumes (R.remaining (watched reader.old)) (R.remaining (watched reader.new)) came
            × ((kind : List ℕ) (now : ℕ)
            → ((bytes : List ℕ) → length bytes ≡ body_length
            → decided self.old (state_of D.state self.old) (Put name.now kind bytes) now ≡ None)
            → IsDraftOf (rooted_in D.state self.old) name.now kind body_length
            (moment_at (state_of D.state self.old) now) plan.old
            → AnswersFrom D.state self.old self.new (coming_put name.now kind body_length now) came result)
            × ReadsFor (empty_reads_of result) reader.old reader.new came }
        ensures failed { TellsEnd (IsErrOf result Refusal.ReadFault) reader.old reader.new }
        ensures ended { IsErrOf result Refusal.ShortBody
            → IsAtEnd (R.remaining (watched reader.new)) }
    {
        let digests = match receive(&mut self.disk, reader, plan.bodies[0], body_length) {
            Ok(digests) => digests,
            Err(refusal) => match refusal {
                Refusal::Device => {
                    self.is_closed = true;
                    return Err(Refusal::Device);
                }
                _ => return Err(refusal),
            },
        };
        plan.fill(name, digests);
        self.finish(plan)
    }
}

/// Reads the next `body_length` bytes of a reader and writes them to the front of an extent, in pieces. With any
/// result, only this extent changes.
fn receive<R: Read, D: Disk>(
    disk: &mut D,
    reader: &mut Watched<R>,
    extent: Extent,
    body_length: u32,
) -> Result<Digests, Refusal>
    requires room { IsOnDisk extent (D.state disk.old).size }
    requires fits { body_length ≤ block_size * extent.blocks }
    ensures took { OnOk result (Took R.remaining reader.old reader.new
        (part extent body_length (D.state disk.new).now.seen)) }
    ensures whole { OnOk result (length (part extent body_length (D.state disk.new).now.seen)
        ≡ body_length) }
    ensures digests { IfOk result (λ found. found
        ≡ digests (part extent body_length (D.state disk.new).now.seen)) }
    ensures stopped { IfErr result (λ refusal. (came : List ℕ)
        × Consumes (R.remaining (watched reader.old)) (R.remaining (watched reader.new)) came
        × IsStopped body_length (R.remaining (watched reader.new)) came refusal
        × ReadsFor (empty_reads refusal) reader.old reader.new came) }
    ensures reads { OnOk result (calls reader.new ≤ calls reader.old + body_length) }
    ensures failed { TellsEnd (IsErrOf result Refusal.ReadFault) reader.old reader.new }
    ensures writes { WritesOnly (extent ∷ []) (IsErrOf result Refusal.Device)
        (D.state disk.old) (D.state disk.new) }
{
    let mut buffer = [0; PIECE_SIZE];
    let mut hashing = Hashing::new();
    let mut at = 0;
    while at < body_length {
        let size = (body_length - at).min(PIECE_SIZE as u32);
        let piece = &mut buffer[..size as usize];
        receive_piece(disk, reader, extent, at, piece)?;
        hashing.add(piece);
        at += size;
    }
    Ok(hashing.done())
}

/// Fills a piece with the next bytes of a reader, and writes it to its place in an extent.
fn receive_piece<R: Read, D: Disk>(
    disk: &mut D,
    reader: &mut Watched<R>,
    extent: Extent,
    at: u32,
    piece: &mut [u8],
) -> Result<(), Refusal>
    requires room { IsOnDisk extent (D.state disk.old).size }
    requires fits { at + length piece.old ≤ block_size * extent.blocks }
    ensures ok { OnOk result (Took R.remaining reader.old reader.new piece.new) }
    ensures reads { OnOk result (part extent (at + length piece.old) (D.state disk.new).now.seen
        ≡ part extent at (D.state disk.old).now.seen ++ piece.new) }
    ensures stopped { IfErr result (λ refusal. (came : List ℕ)
        × Consumes (R.remaining (watched reader.old)) (R.remaining (watched reader.new)) came
        × IsStopped (length piece.old) (R.remaining (watched reader.new)) came refusal
        × ReadsFor (empty_reads refusal) reader.old reader.new came) }
    ensures called { OnOk result (calls reader.new ≤ calls reader.old + length piece.new) }
    ensures failed { TellsEnd (IsErrOf result Refusal.ReadFault) reader.old reader.new }
    ensures writes { WritesOnly (extent ∷ []) (IsErrOf result Refusal.Device)
        (D.state disk.old) (D.state disk.new) }
{
    read_into(reader, piece)?;
    if write_piece(disk, extent, at, piece).is_err() {
        return Err(Refusal::Device);
    }
    Ok(())
}

/// Reads once into a buffer, after its first bytes.
fn read_behind<R: Read>(
    reader: &mut Watched<R>,
    buf: &mut [u8],
    filled: usize,
) -> Result<usize, ReadFault>
    requires { filled < length buf.old }
    ensures size { length buf.new ≡ length buf.old }
    ensures front { take filled buf.new ≡ take filled buf.old }
    ensures fits { IfOk result (λ n. filled + n ≤ length buf.old) }
    ensures ok { IfOk result
        (λ n. Took R.remaining reader.old reader.new (take n (drop filled buf.new))) }
    ensures end { IfOk result (λ n. n ≡ 0 → IsAtEnd (R.remaining (watched reader.new))) }
    ensures err { OnErr result
        (Keeps (R.remaining (watched reader.old)) (R.remaining (watched reader.new))) }
    ensures failed { OnErr result (EndFailed reader.old reader.new) }
    ensures called { calls reader.new ≤ calls reader.old + 1 }
    ensures once { (failures reader.new).all ≤ (failures reader.old).all + 1 }
{
    reader.read(&mut buf[filled..])
}

/// Fills a buffer with the next bytes of a reader, and reads no byte after them.
///
/// # Errors
///
/// - [`Refusal::ReadFault`] if a read failed.
/// - [`Refusal::ShortBody`] if the input ended before the buffer was full.
pub fn read_into<R: Read>(reader: &mut Watched<R>, buf: &mut [u8]) -> Result<(), Refusal>
    ensures size { length buf.new ≡ length buf.old }
    ensures ok { OnOk result (Took R.remaining reader.old reader.new buf.new) }
    ensures cut { IfErr result (λ refusal. (came : List ℕ)
        × Consumes (R.remaining (watched reader.old)) (R.remaining (watched reader.new)) came
        × IsCut (length buf.old) (R.remaining (watched reader.new)) came refusal
        × ReadsFor (empty_reads refusal) reader.old reader.new came) }
    ensures reads { OnOk result (calls reader.new ≤ calls reader.old + length buf.new) }
    ensures failed { TellsEnd (IsErrOf result Refusal.ReadFault) reader.old reader.new }
{
    let mut filled = 0;
    while filled < buf.len() {
        match read_behind(reader, buf, filled) {
            Ok(0) => return Err(Refusal::ShortBody),
            Ok(count) => filled += count,
            Err(_) => return Err(Refusal::ReadFault),
        }
    }
    Ok(())
}
