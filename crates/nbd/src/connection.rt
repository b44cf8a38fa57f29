//! The server's side of one connection.
ghost use Rattle.std.specs.Prelude.{◌≡◌, ◌+◌, ◌<◌, ◌≤◌, ◌++◌, [], length, IfErr, IfOk, OnErr, OnOk, IsTrue, ◌↔◌};
ghost use Rattle.blocks.specs.declared.refusal.Refusal.TheVariants.{NoMemory};
ghost use Rattle.nbd.specs.declared.phase.Phase.TheVariants as phase;
ghost use Rattle.nbd.specs.declared.phase.Part.TheVariants as part;
ghost use Rattle.std.specs.List.{AllByRecursion};
ghost use Rattle.nbd.specs.Exports.{export_now};
ghost use Rattle.nbd.specs.Inside.{IsInside};
ghost use Rattle.nbd.specs.Machine.{Adds, Begins, IsPortion, Waits, fed, after_step, is_negotiating, payload_bytes};
ghost use Rattle.nbd.specs.Options.{greeting};
ghost use Rattle.nbd.specs.Requested.{IsOf};
ghost use Rattle.nbd.specs.Steps.{view};

use crate::options::greeting;
use crate::phase::{Part, Phase, Refused};
use crate::step::{Step, end_skip, take_part};
use crate::{Export, Output, Sayings, Terms};
use blocks::Refusal;
use std::alloc::Global;
use std::marker::Model;
use std::mem;

/// The server's side of one connection. It takes the client's bytes in any pieces, and produces the bytes to
/// send back and the requests to serve. The server sends [`Connection::greet`] first.
#[derive(Drop)]
pub struct Connection {
    alloc: Global,
    // Its number, which each of its requests and sayings has.
    id: u64,
    export: Export,
    phase: Phase,
    // The bytes that have arrived of the part that the phase gathers; empty in any other phase.
    held: Vec<u8>,
}

impl Model for Connection {
    ghost use Rattle.nbd.specs.Machine.{Machine, Waits};

    ghost Value = { Machine };

    ghost view = { λ c. record { of = c.id; export = c.export; phase = c.phase; held = c.held.items } };

    ghost invariant = { λ c. Waits c.export c.phase c.held.items };
}

impl Connection {
    /// Creates a connection with the number `id`, whose client has sent nothing yet. Takes no memory. A caller with several
    /// connections gives each another number.
    pub fn new(alloc: Global, export: Export, id: u64) -> Connection
        ensures { result ≡ record {
          of = id;
          export = export;
          phase = phase.Gather part.ClientFlags;
          held = [];
        } }
    {
        Connection {
            alloc,
            id,
            export,
            phase: Phase::Gather(Part::ClientFlags),
            held: Vec::new(alloc),
        }
    }

    /// Returns the bytes that a server sends first. `NoMemory` (7) is the only refusal.
    pub fn greet(&self) -> Result<Sayings, Refusal>
        ensures of { IfOk result (λ s. s.of ≡ self.now.of) }
        ensures bytes { IfOk result (λ s. s.bytes ≡ greeting) }
        ensures refused { IfErr result (λ e. e ≡ NoMemory) }
    {
        let mut bytes = Vec::new(self.alloc);
        bytes.extend_from_slice(greeting().as_slice())?;
        Ok(Sayings::new(self.id, bytes))
    }

    /// Returns whether the connection is closed: the client disconnected or broke the protocol, or memory ran out. The
    /// caller still serves the requests that it has, sends their replies, and then closes the socket.
    pub fn is_closed(&self) -> bool
        ensures { IsTrue result ↔ (self.now.phase ≡ phase.Closed) }
    {
        matches!(self.phase, Phase::Closed)
    }

    /// Returns what the handshake has agreed by now.
    pub fn terms(&self) -> Terms
        ensures { result ≡ self.now.export.terms }
    {
        self.export.terms()
    }

    /// Returns how many bytes the payload has that the connection gathers: those of a WRITE, and 0 while it gathers none. It holds no
    /// more of it than has come.
    pub fn payload_bytes(&self) -> u32
        ensures { result ≡ payload_bytes self.now.phase }
    {
        match self.phase {
            Phase::Gather(Part::Payload(header)) => header.length,
            Phase::Gather(
                Part::ClientFlags | Part::Option { .. } | Part::OptionData { .. } | Part::Request,
            )
            | Phase::Skip { .. }
            | Phase::Closed => 0,
        }
    }

    /// Returns whether the client is still in its handshake: it has chosen no export. A server limits the time for that, or
    /// connections that never ask for anything keep others out.
    pub fn is_negotiating(&self) -> bool
        ensures { result ≡ is_negotiating self.now.phase }
    {
        match self.phase {
            Phase::Gather(part) => part.is_of_handshake(),
            Phase::Skip { refused, .. } => matches!(refused, Refused::LongOption { .. }),
            Phase::Closed => false,
        }
    }

    /// Takes the client's next bytes, and returns the bytes to send back and the requests to serve. It does not matter how the bytes
    /// are cut.
    ///
    /// A request that [`Export::judge`] refuses gets one error reply, in the output, and is not given to the
    /// caller; the payload of a refused WRITE is skipped and never kept. A closed connection ignores all
    /// further bytes. `NoMemory` (7), the only refusal, closes the connection and gives no output.
    pub fn feed(&mut self, piece: &[u8]) -> Result<Output, Refusal>
        ensures machine { OnOk result (self.new ≡ (fed self.old piece.now).machine) }
        ensures sent { IfOk result (λ out. out.bytes ≡ (fed self.old piece.now).sent) }
        ensures given { IfOk result (λ out. out.requests ≡ (fed self.old piece.now).requests) }
        ensures closed { OnErr result (self.new.phase ≡ phase.Closed) }
        ensures refused { IfErr result (λ e. e ≡ NoMemory) }
        // Each request lies inside the device.
        ensures inside { AllByRecursion (IsInside self.old.export.blocks) (fed self.old piece.now).requests }
        // Each request is this connection's, and so is the output.
        ensures of { AllByRecursion (IsOf self.old.of) (fed self.old piece.now).requests }
        ensures number { self.new.of ≡ self.old.of }
        ensures own { IfOk result (λ out. out.of ≡ self.old.of) }
        // The bytes that the connection holds between two calls.
        ensures bounded { length self.new.held ≤ 28 + 33554432 }
    {
        self.is_waiting();
        let mut out = Output::new(self.alloc, self.id);
        let taken = self.take_all(piece, &mut out);
        if taken.is_err() {
            self.close();
        }
        self.is_waiting();
        taken?;
        Ok(out)
    }

    /// Proof hint: brings the invariant of the phase and the bound on the held bytes into scope.
    fn is_waiting(&self)
        ensures waits { Waits self.now.export self.now.phase self.now.held }
        ensures bounded { length self.now.held ≤ 28 + 33554432 }
    {
        let _phase = self.phase;
    }

    /// Closes the connection.
    fn close(&mut self)
        ensures number { self.new.of ≡ self.old.of }
        ensures phase { self.new.phase ≡ phase.Closed }
        ensures held { self.new.held ≡ [] }
    {
        self.phase = Phase::Closed;
        self.held.clear();
    }

    /// Takes a piece, portion after portion. An error may leave some output in `out`.
    fn take_all(&mut self, piece: &[u8], out: &mut Output) -> Result<(), Refusal>
        ensures adds { OnOk result (Adds (fed self.old piece.now) self.new
            out.old.bytes out.new.bytes out.old.requests out.new.requests) }
        ensures number { self.new.of ≡ self.old.of }
        ensures own { out.new.of ≡ out.old.of }
        ensures begins { Begins out.old.bytes out.new.bytes }
        ensures begins_given { Begins out.old.requests out.new.requests }
        ensures refused { IfErr result (λ e. e ≡ NoMemory) }
    {
        let mut rest = piece;
        while !rest.is_empty() {
            let (now, later) = rest.split_at(self.portion(rest.len()));
            self.take(now, out)?;
            rest = later;
        }
        Ok(())
    }

    /// Returns how many of the next `count` bytes to take at once: at most as many as the phase still needs.
    fn portion(&self, count: usize) -> usize
        requires { 0 < count }
        ensures some { 0 < result }
        ensures within { result ≤ count }
        ensures portion { IsPortion self.now.phase self.now.held result }
    {
        match self.phase {
            Phase::Gather(part) => (part.wanted() - self.held.len()).min(count),
            Phase::Skip { left, .. } => (left as usize).min(count),
            Phase::Closed => count,
        }
    }

    /// Takes one portion. An error leaves `out` as it was.
    fn take(&mut self, bytes: &[u8], out: &mut Output) -> Result<(), Refusal>
        requires some { 0 < length bytes.now }
        requires portion { IsPortion self.old.phase self.old.held (length bytes.now) }
        ensures number { self.new.of ≡ self.old.of }
        ensures own { out.new.of ≡ out.old.of }
        ensures adds { OnOk result (Adds (fed self.old bytes.now) self.new
            out.old.bytes out.new.bytes out.old.requests out.new.requests) }
        ensures same_bytes { OnErr result (out.new.bytes ≡ out.old.bytes) }
        ensures same_requests { OnErr result (out.new.requests ≡ out.old.requests) }
        ensures refused { IfErr result (λ e. e ≡ NoMemory) }
    {
        let phase = self.phase;
        match phase {
            Phase::Gather(part) if self.held.len() + bytes.len() < part.wanted() => {
                self.held.extend_from_slice(bytes)?;
                Ok(())
            }
            Phase::Gather(part) => {
                let mut held = mem::replace(&mut self.held, Vec::new(self.alloc));
                held.extend_from_slice(bytes)?;
                let step = take_part(self.alloc, self.id, &self.export, part, &mut held)?;
                held.clear();
                self.take_step(step, held, out)
            }
            Phase::Skip { left, refused } if bytes.len() < left as usize => {
                self.phase = Phase::Skip {
                    left: left - bytes.len() as u32,
                    refused,
                };
                Ok(())
            }
            Phase::Skip { refused, .. } => {
                let step = end_skip(self.alloc, refused)?;
                let held = mem::replace(&mut self.held, Vec::new(self.alloc));
                self.take_step(step, held, out)
            }
            Phase::Closed => Ok(()),
        }
    }

    /// Applies a step: appends its output and enters its phase, with nothing held. It reserves exactly the
    /// bytes of the next part, at most 32 MiB. An error leaves `out` as it was.
    fn take_step(&mut self, step: Step, mut held: Vec<u8>, out: &mut Output) -> Result<(), Refusal>
        requires empty { held.items ≡ [] }
        requires waits { Waits (export_now self.old.export step.terms) step.phase [] }
        ensures number { self.new.of ≡ self.old.of }
        ensures own { out.new.of ≡ out.old.of }
        ensures adds { OnOk result (Adds (after_step self.old.of self.old.export (view step)) self.new
            out.old.bytes out.new.bytes out.old.requests out.new.requests) }
        ensures same_bytes { OnErr result (out.new.bytes ≡ out.old.bytes) }
        ensures same_requests { OnErr result (out.new.requests ≡ out.old.requests) }
        ensures refused { IfErr result (λ e. e ≡ NoMemory) }
    {
        if let Phase::Gather(part) = step.phase {
            held.reserve_exact(part.wanted())?;
        }
        out.put(step.made)?;
        self.export.agree(step.terms);
        self.phase = step.phase;
        self.held = held;
        Ok(())
    }
}
