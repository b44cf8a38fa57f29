//! The peer's hello, what it decides, and the beginning of the stream.
ghost use Rattle.std.specs.Prelude.{◌≡◌, ◌≤◌, Some, None};
ghost use Rattle.endpoint.specs.Meaning.{meaning};
ghost use Rattle.primary_core.specs.Take.{taken_as};
ghost use Rattle.primary_protocol.specs.Core.{EndState, with_end};
ghost use Rattle.primary_protocol.specs.Taking.{begun_with, hearing, last_connection, meeting, taking_hello};
ghost use Rattle.transferlog.specs.Log.{connecting};

use crate::state::PrimaryCore;
use blocks::{Decision, Done, Refusal, Tuple, What};
use generations::{decide, stands_in};
use packets::Packet;

impl PrimaryCore {
    /// Takes the next frame of the peer's hello.
    pub(crate) fn take_hello(&mut self, packet: Packet) -> Result<Done, Refusal>
        requires { self.old.state.log.connection ≡ None }
        ensures { (e : EndState) → self.old.state.end ≡ Some e → taken_as result self.new.state ≡ taking_hello e.hello_received (meaning packet) (hearing e) self.old.state }
    {
        let Some(connection) = &self.connection else {
            return Err(Refusal::BadCommand);
        };
        let command = connection.handshake.judge(&packet, &self.settings)?;
        if let Packet::Uuids(peer) = packet {
            return self.take_peer_identifiers(peer);
        }
        self.hello_frame_received();
        Ok(Done::about(What::Frame(command, None)))
    }

    // Counts another frame of the peer's hello as taken.
    fn hello_frame_received(&mut self)
        ensures { self.new.state ≡ with_end hearing self.old.state }
    {
        if let Some(connection) = &mut self.connection {
            connection.handshake.frame_received();
        }
    }

    // Takes the peer's identifiers, and begins the stream as they decide.
    fn take_peer_identifiers(&mut self, peer: Tuple) -> Result<Done, Refusal>
        requires { self.old.state.log.connection ≡ None }
        ensures { (e : EndState) → self.old.state.end ≡ Some e → taken_as result self.new.state ≡ meeting peer (hearing e) self.old.state }
    {
        let Some(connection) = &self.connection else {
            return Err(Refusal::BadCommand);
        };
        let sync = connection.sync;
        let loss = connection.loss;
        self.peer = Some(peer);
        if stands_in(sync, &peer) || stands_in(loss, &peer) {
            return Err(Refusal::UsedIdentifier);
        }
        let decided = decide(&self.generations.tuple, &peer)?;
        self.hello_frame_received();
        self.begin(decided);
        Ok(self.finish_step(What::Decided(decided), None))
    }

    // Begins the stream, with the SYNC_UUID of a resync if one was decided.
    fn begin(&mut self, decided: Decision)
        requires { self.old.state.log.connection ≡ None }
        ensures { (e : EndState) → self.old.state.end ≡ Some e → self.new.state ≡ begun_with decided e self.old.state }
    {
        match decided {
            Decision::NoSync => self.connect(),
            Decision::BitmapSync => {
                self.connect();
                self.begin_resync();
            }
            Decision::FullSync => {
                self.marks.mark_all();
                self.connect();
                self.begin_resync();
            }
        }
    }

    // Begins the stream.
    fn connect(&mut self)
        requires { self.old.state.log.connection ≡ None }
        ensures state { self.new.state ≡ record self.old.state { log = connecting (last_connection self.old.state) self.old.state.log } }
        ensures room { (e : EndState) → self.old.state.end ≡ Some e → 2 ≤ self.new.stream_room }
    {
        self.log.connect(self.connections.max(1));
    }
}
