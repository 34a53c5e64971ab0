//! A follower: a machine, the position of the last entry, and the hashes of the log and of the replies.
ghost use Rattle.std.specs.Prelude.{◌≡◌, ◌+◌, IfOk, IfErr};
ghost use Rattle.tb_log.specs.Format.{placed};
ghost use Rattle.tb_log.specs.Following.{begun_following, with_content};
ghost use Rattle.tb_log.specs.Steps.{Frames, NoFrame, RepliesToPair, follower_standing, WritesStanding, WritesBytes};

use crate::chains::Chain;
use crate::faults::LogFault;
use std::alloc::{AllocError, Allocator, Global};
use std::marker::Model;
use tb_machine::{Machine, RunFault, serve_pair};
use tb_records::{ClientsMax, Counting, Profile, Request, Sink, put_all};

/// A machine, the position of the last entry, and the hashes of the log and of the replies.
#[derive(Drop)]
pub(crate) struct Follower<A: Allocator + Clone> {
    machine: Machine<A>,
    position: u64,
    log: Chain,
    replies: Chain,
}

impl<A: Allocator + Clone> Model for Follower<A> {
    ghost use Rattle.tb_log.specs.Following.{Following};

    ghost Value = { Following };

    ghost view = { λ f. record { state = f.machine; position = f.position; log = f.log; replies = f.replies } };
}

/// Writes bytes; returns `Device` if the writer fails or takes nothing.
fn write<W: Sink>(writer: &mut W, bytes: &[u8]) -> Result<(), LogFault>
    ensures { WritesBytes result bytes.now (W.output writer.old) (W.output writer.new) }
{
    put_all(writer, bytes).map_err(|_| LogFault::Device)
}

/// Serves a pair of the entry at a position, and returns the frame of the reply.
fn frame_of<A: Allocator + Clone>(
    global: Global,
    machine: &mut Machine<A>,
    position: u64,
    moment: u64,
    request: Request,
) -> Result<Vec<u8>, LogFault>
    ensures frame { IfOk result
        (λ made. Frames made.items (moment, request) machine.old machine.new) }
    ensures none { IfErr result (λ f. NoFrame position f (moment, request) machine.old) }
{
    let mut frame = Counting::new(Vec::new(global));
    match serve_pair(machine, &mut frame, moment, request) {
        Ok(()) => Ok(frame.into_inner()),
        Err(RunFault::TimeExhausted) => Err(LogFault::TimeExhausted(position)),
        Err(_) => Err(LogFault::NoMemory),
    }
}

/// The bytes of a reply with its numbers.
#[tactic(auto, using(crate::proofs::Numbers::eight_written, crate::proofs::Numbers::four_written))]
fn numbered(global: Global, position: u64, index: u32, frame: &[u8]) -> Result<Vec<u8>, AllocError>
    ensures { IfOk result
        (λ line. line.items ≡ placed position index frame.now) }
{
    let mut line = Vec::new(global);
    line.push(1)?;
    line.extend_from_slice(&position.to_le_bytes())?;
    line.extend_from_slice(&index.to_le_bytes())?;
    line.extend_from_slice(frame)?;
    Ok(line)
}

impl<A: Allocator + Clone> Follower<A> {
    /// A follower that has read nothing, with the records of its machine in memory of `alloc`.
    pub(crate) fn new_in(
        global: Global,
        alloc: A,
        profile: Profile,
        clients_max: ClientsMax,
    ) -> Result<Follower<A>, AllocError>
        ensures { IfOk result (λ follower. follower ≡ begun_following profile clients_max) }
    {
        Ok(Follower {
            machine: Machine::new_in(global, alloc, profile, clients_max)?,
            position: 0,
            log: Chain::new(),
            replies: Chain::new(),
        })
    }

    /// The position of the last entry.
    pub(crate) fn position(&self) -> u64
        ensures { result ≡ self.now.position }
    {
        self.position
    }

    /// Takes the entry at the next position, before its pairs.
    pub(crate) fn begin(&mut self, position: u64, content: &[u8])
        requires { position ≡ self.old.position + 1 }
        ensures { self.new ≡ with_content self.old content.now }
    {
        self.position = position;
        self.log.add(content);
    }

    /// Serves the pair of an index in the last entry, and writes the reply.
    pub(crate) fn answer<W: Sink>(
        &mut self,
        global: Global,
        writer: &mut W,
        index: u32,
        moment: u64,
        request: Request,
    ) -> Result<(), LogFault>
        ensures { RepliesToPair W.output index result self.old self.new (moment, request) writer.old writer.new }
    {
        let frame = frame_of(global, &mut self.machine, self.position, moment, request)?;
        let line = numbered(global, self.position, index, &frame)?;
        self.replies.add(&frame);
        write(writer, &line)
    }

    /// The bytes of the answer to a question.
    #[tactic(auto, using(crate::proofs::Numbers::eight_written))]
    fn standing(&self, global: Global) -> Result<Vec<u8>, AllocError>
        ensures { IfOk result
            (λ line. line.items ≡ follower_standing self.now) }
    {
        let mut line = Vec::new(global);
        line.push(2)?;
        line.extend_from_slice(&self.position.to_le_bytes())?;
        line.extend_from_slice(self.log.as_bytes())?;
        line.extend_from_slice(self.replies.as_bytes())?;
        Ok(line)
    }

    /// Writes the position and both hashes.
    pub(crate) fn write_standing<W: Sink>(
        &self,
        global: Global,
        writer: &mut W,
    ) -> Result<(), LogFault>
        ensures { WritesStanding result self.now (W.output writer.old) (W.output writer.new) }
    {
        write(writer, &self.standing(global)?)
    }
}
