//! The serving of a kept ledger: the entries of pairs are committed, and then the replies that depend on them are sent.
ghost use Rattle.std.specs.Prelude.{◌≡◌, true, false, IfErr, IsTrue, OnOk, OnErr};
ghost use Rattle.tb_file_journal.specs.Ready.{IsReady, with_waiting};
ghost use Rattle.tb_machine.specs.Dumps.{dumped};
ghost use Rattle.tb_machine.specs.Histories.{answer_to, fits, reply_at, step};
ghost use Rattle.tb_machine.specs.Recording.{IsRecord};
ghost use Rattle.tb_sessions.specs.Judged.{class_of};
ghost use Rattle.tb_file.specs.Keeping.{IsFresh, IsUsable};
ghost use Rattle.tb_file.specs.Rounds.{Served};
ghost use Rattle.tb_file.specs.private.Steps.{IsRefusal, KeepsEntry, KeepsPair, CommitsAndReplies, is_end_of_time, MayReply, EndsReplying, KeepsNext, HandsOutOver, HoldsReplyOver, reply_state, round_state};

use crate::faults::KeepFault;
use crate::keepers::Keeper;
use crate::replies::Replies;
use std::alloc::{AllocError, Allocator, Global};
use tb_file_journal::{Device, Journal, Written};
use tb_machine::{Delivery, Entry, Judged, Machine, RunFault, answer_known, write_entry};
use tb_records::streams::read_timed_from;
use tb_records::{Request, Sink, Source, holds_pair, put_all};
use tb_sessions::Class;

/// When this many bytes of replies are held they are sent, even if more pairs are buffered.
pub const HELD_BYTES_MAX: usize = 1 << 20;

/// A batch that is committed has at most this many bytes.
pub const BATCH_BYTES_MAX: usize = 1 << 22;

/// The greatest block of an entry: 11 bytes of latch, length and checksum, two numbers of 8 bytes, and the frame of a request of 8,190 items.
pub(crate) const BLOCK_BYTES_MAX: usize = 11 + 16 + 48 + 8190 * 128;

/// An entry whose record is written where it waits for the commit.
#[derive(Clone, Copy)]
struct Recorded<'a> {
    entry: &'a Entry,
}

impl<'a> Written for Recorded<'a> {
    ghost bytes = { λ r. dumped r.entry.now };

    ghost known = { λ r. IsRecord (dumped r.entry.now) r.entry.now };

    fn write(&self, out: &mut Vec<u8>) -> Result<(), AllocError> {
        write_entry(self.entry, out)
    }
}

/// Appends the record of an entry, which waits for the next commit.
fn append_entry<D: Device>(journal: &mut Journal<D>, entry: &Entry) -> Result<(), KeepFault>
    requires { journal.old.usable ≡ true }
    ensures waits { OnOk result (journal.new ≡ with_waiting journal.old (dumped entry.now)) }
    ensures fits { OnOk result (IsRecord (dumped entry.now) entry.now) }
    ensures refused { IfErr result (λ f. IsRefusal f journal.old (dumped entry.now)) }
    ensures stays { OnErr result (journal.new ≡ journal.old) }
{
    journal.append_written(&Recorded { entry })?;
    Ok(())
}

/// Enters an entry whose record waits, and holds the reply to it. The reply is held whole, or memory runs out.
fn hold_new<A: Allocator + Clone>(
    machine: &mut Machine<A>,
    replies: &mut Replies,
    entry: Entry,
) -> Result<(), KeepFault>
    requires { IsTrue (fits machine.old entry) }
    ensures entered { OnOk result (machine.new ≡ step machine.old entry) }
    ensures holds { HoldsReplyOver result (reply_at machine.old entry) replies.old replies.new }
{
    match machine.enter_and_reply(replies, entry) {
        Ok(Delivery::Whole) => Ok(()),
        Ok(Delivery::Cut(_)) => Err(KeepFault::Serving(RunFault::NoMemory)),
        Err(back) => {
            drop(back);
            Err(KeepFault::Serving(RunFault::NoMemory))
        }
    }
}

/// Holds the reply to a request that is not new.
fn hold_known<A: Allocator + Clone>(
    machine: &Machine<A>,
    replies: &mut Replies,
    request: &Request,
    class: Class,
) -> Result<(), KeepFault>
    requires { class ≡ class_of machine.now.rows request.now }
    ensures { HoldsReplyOver result (answer_to machine.now request.now) replies.old replies.new }
{
    match answer_known(machine, replies, request, class) {
        Ok(()) => Ok(()),
        Err(_) => Err(KeepFault::Serving(RunFault::NoMemory)),
    }
}

/// Appends the record of the entry of a new request for the next commit, enters the entry, and holds the reply.
fn keep_new<D: Device, A: Allocator + Clone>(
    keeper: &mut Keeper<D, A>,
    replies: &mut Replies,
    entry: Entry,
) -> Result<(), KeepFault>
    requires fits { IsTrue (fits keeper.old.state entry) }
    requires usable { keeper.old.journal.usable ≡ true }
    ensures keeps { KeepsEntry result entry keeper.old keeper.new replies.old.bytes.items
        replies.new.bytes.items }
    ensures cut { keeper.new.cut ≡ keeper.old.cut }
{
    match append_entry(&mut keeper.journal, &entry) {
        Ok(()) => hold_new(&mut keeper.machine, replies, entry),
        Err(fault) => {
            drop(entry);
            Err(fault)
        }
    }
}

/// Serves a request that comes at a moment: the record of a new one waits for the next commit, and the reply is held.
fn keep_pair<D: Device, A: Allocator + Clone>(
    keeper: &mut Keeper<D, A>,
    replies: &mut Replies,
    moment: u64,
    request: Request,
) -> Result<(), KeepFault>
    requires { keeper.old.journal.usable ≡ true }
    ensures keeps { KeepsPair result (moment, request) keeper.old keeper.new replies.old.bytes.items
        replies.new.bytes.items }
    ensures cut { keeper.new.cut ≡ keeper.old.cut }
{
    match keeper.machine.judge(moment, request) {
        Judged::New(entry) => keep_new(keeper, replies, entry),
        Judged::NoTime => Err(KeepFault::Serving(RunFault::TimeExhausted)),
        Judged::Known(class, request) => {
            let held = hold_known(&keeper.machine, replies, &request, class);
            drop(request);
            held
        }
    }
}

/// Sends what is held.
fn hand_out<W: Sink>(replies: &mut Replies, writer: &mut W) -> Result<(), KeepFault>
    ensures { HandsOutOver W.output result replies.old replies.new writer.old writer.new }
{
    if let Err(fault) = put_all(writer, replies.bytes()) {
        return Err(KeepFault::Serving(RunFault::Frame(fault)));
    }
    replies.clear();
    writer.pass_on();
    Ok(())
}

/// Commits the entries that wait, and then sends the replies that depend on them.
fn commit_and_reply<D: Device, A: Allocator + Clone, W: Sink>(
    keeper: &mut Keeper<D, A>,
    replies: &mut Replies,
    writer: &mut W,
) -> Result<(), KeepFault>
    requires usable { keeper.old.journal.usable ≡ true }
    requires ready { D.tells → IsReady D.disk keeper.old.journal }
    ensures replies { CommitsAndReplies D.tells D.disk result (reply_state W.output keeper.old replies.old writer.old)
        (reply_state W.output keeper.new replies.new writer.new) }
    ensures cut { keeper.new.cut ≡ keeper.old.cut }
{
    keeper.journal.commit()?;
    hand_out(replies, writer)
}

/// Commits and sends the replies if the next pair is not buffered whole, if the replies are many, or if the batch may have no space for one more
/// entry.
fn reply_before_waiting<D: Device, A: Allocator + Clone, R: Source, W: Sink>(
    keeper: &mut Keeper<D, A>,
    replies: &mut Replies,
    reader: &R,
    writer: &mut W,
) -> Result<(), KeepFault>
    requires usable { keeper.old.journal.usable ≡ true }
    requires ready { D.tells → IsReady D.disk keeper.old.journal }
    ensures may { MayReply D.tells D.disk result (round_state R.input W.output keeper.old reader.now replies.old writer.old)
        (round_state R.input W.output keeper.new reader.now replies.new writer.new) }
    ensures cut { keeper.new.cut ≡ keeper.old.cut }
{
    if holds_pair(reader.at_hand())
        && replies.len() < HELD_BYTES_MAX
        && keeper.journal.waiting_bytes() <= BATCH_BYTES_MAX - BLOCK_BYTES_MAX
    {
        return Ok(());
    }
    commit_and_reply(keeper, replies, writer)
}

/// Whether a fault is that the end of time leaves no time for a pair.
fn is_end_of_time(fault: KeepFault) -> bool
    ensures { result ≡ is_end_of_time fault }
{
    matches!(fault, KeepFault::Serving(RunFault::TimeExhausted))
}

/// Sends what is held before a fault ends serving, and returns the fault that ends it.
fn reply_and_stop<D: Device, A: Allocator + Clone, W: Sink>(
    keeper: &mut Keeper<D, A>,
    replies: &mut Replies,
    writer: &mut W,
    stop: KeepFault,
) -> KeepFault
    requires usable { keeper.old.journal.usable ≡ true }
    requires ready { D.tells → IsReady D.disk keeper.old.journal }
    ensures ends { EndsReplying D.tells D.disk stop result (reply_state W.output keeper.old replies.old writer.old)
        (reply_state W.output keeper.new replies.new writer.new) }
    ensures cut { keeper.new.cut ≡ keeper.old.cut }
{
    match commit_and_reply(keeper, replies, writer) {
        Ok(()) => stop,
        Err(fault) => fault,
    }
}

/// Reads and serves the next pair: false if there is no pair. If no frame is read, or there is no time for a pair, what is held is sent before the
/// fault is returned.
fn keep_next<D: Device, A: Allocator + Clone, R: Source, W: Sink>(
    alloc: Global,
    keeper: &mut Keeper<D, A>,
    replies: &mut Replies,
    reader: &mut R,
    writer: &mut W,
) -> Result<bool, KeepFault>
    requires usable { keeper.old.journal.usable ≡ true }
    requires ready { D.tells → IsReady D.disk keeper.old.journal }
    ensures keeps { KeepsNext D.tells D.disk result (round_state R.input W.output keeper.old reader.old replies.old writer.old)
        (round_state R.input W.output keeper.new reader.new replies.new writer.new) }
    ensures cut { keeper.new.cut ≡ keeper.old.cut }
{
    match read_timed_from(alloc, reader) {
        Ok(Some((moment, request))) => match keep_pair(keeper, replies, moment, request) {
            Ok(()) => Ok(true),
            Err(fault) => {
                if is_end_of_time(fault) {
                    return Err(reply_and_stop(keeper, replies, writer, fault));
                }
                Err(fault)
            }
        },
        Ok(None) => Ok(false),
        Err(fault) => {
            let stop = KeepFault::Serving(RunFault::Frame(fault));
            Err(reply_and_stop(keeper, replies, writer, stop))
        }
    }
}

/// Serves pairs until they end, and returns the number of replies sent.
fn keep_all<D: Device, A: Allocator + Clone, R: Source, W: Sink>(
    alloc: Global,
    keeper: &mut Keeper<D, A>,
    reader: &mut R,
    writer: &mut W,
) -> Result<u64, KeepFault>
    requires usable { keeper.old.journal.usable ≡ true }
    requires fresh { D.tells → IsFresh D.disk keeper.old }
    ensures served { Served D.tells D.disk result keeper.old keeper.new (R.input reader.old)
        (R.input reader.new) (W.output writer.old) (W.output writer.new) }
    ensures fresh { D.tells → OnOk result (IsFresh D.disk keeper.new) }
    ensures usable { OnOk result (keeper.new.journal.usable ≡ true) }
    ensures serves { OnOk result (keeper.new.usable ≡ keeper.old.usable) }
    ensures cut { keeper.new.cut ≡ keeper.old.cut }
{
    let mut replies = Replies::new(alloc);
    for k in 0..u64::MAX {
        reply_before_waiting(keeper, &mut replies, reader, writer)?;
        if !keep_next(alloc, keeper, &mut replies, reader, writer)? {
            commit_and_reply(keeper, &mut replies, writer)?;
            return Ok(k);
        }
    }
    Err(KeepFault::Serving(RunFault::TooLong))
}

/// Serves pairs, a moment and the frame of a request each, until they end, and returns the number of replies sent. Each reply is sent after the
/// entries that it depends on are in the file. If no frame is read, or the end of time leaves no time for a request, the replies to all before it
/// are sent. After any other fault nothing more is sent: what was read since the last commit gets no reply. After any fault the keeper no longer
/// serves.
pub fn keep<D: Device, A: Allocator + Clone, R: Source, W: Sink>(
    alloc: Global,
    keeper: &mut Keeper<D, A>,
    reader: &mut R,
    writer: &mut W,
) -> Result<u64, KeepFault>
    // For any device.
    requires usable { IsUsable keeper.old }
    requires fresh { D.tells → IsFresh D.disk keeper.old }
    ensures served { Served D.tells D.disk result keeper.old keeper.new (R.input reader.old)
        (R.input reader.new) (W.output writer.old) (W.output writer.new) }
    ensures fresh { D.tells → OnOk result (IsFresh D.disk keeper.new) }
    ensures usable { OnOk result (IsUsable keeper.new) }
    ensures ended { OnErr result (keeper.new.usable ≡ false) }
    ensures cut { keeper.new.cut ≡ keeper.old.cut }
{
    match keep_all(alloc, keeper, reader, writer) {
        Ok(count) => Ok(count),
        Err(fault) => {
            keeper.usable = false;
            Err(fault)
        }
    }
}
