//! A link whose frames the simulation holds back and loses.
ghost use Rattle.std.specs.Prelude.{◌≡◌, [], None, true, IfErr};

use blocks::Refusal;
use link::{FrameIn, FrameOut, GhostFrames, Offered};
use packets::Frame;
use std::alloc::Global;
use std::cell::RefCell;
use std::collections::VecDeque;
use std::rc::Rc;

/// A frame on its way, with the number of its connection.
#[derive(Drop)]
struct Sent {
    number: u32,
    frame: Frame,
}

/// The frames of one direction that are on their way.
#[derive(Drop)]
pub(crate) struct Direction {
    frames: VecDeque<Sent>,
    capacity: usize,
    // Whether what is sent gets lost.
    is_cut: bool,
}

impl Direction {
    /// Returns a direction with room for `capacity` frames.
    pub(crate) fn new(alloc: Global, capacity: u32) -> Direction {
        Direction {
            frames: VecDeque::new(alloc),
            capacity: capacity as usize,
            is_cut: false,
        }
    }

    /// Loses all frames but the first `kept` ones, and all that are sent from now on.
    pub(crate) fn cut(&mut self, kept: u64) {
        self.is_cut = true;
        for _ in 0..self.frames.len() {
            if self.frames.len() as u64 > kept {
                let _ = self.frames.pop_back();
            }
        }
    }

    /// Carries frames again.
    pub(crate) fn mend(&mut self) {
        self.is_cut = false;
        self.frames.clear();
    }

    /// Returns whether what is sent gets lost.
    pub(crate) fn is_cut(&self) -> bool {
        self.is_cut
    }

    // Takes a frame on, or hands it back if there is no room.
    fn put(&mut self, number: u32, frame: Frame) -> Result<(), Frame>
        ensures { IfErr result (λ handed. handed ≡ frame) }
    {
        if self.is_cut {
            return Ok(());
        }
        if self.frames.len() >= self.capacity {
            return Err(frame);
        }
        match self.frames.push_back(Sent { number, frame }) {
            Ok(()) => Ok(()),
            Err(failed) => Err(failed.value.frame),
        }
    }

    // Takes the next frame of a connection out, and drops those of earlier ones.
    fn take(&mut self, number: u32) -> Option<Frame> {
        for _ in 0..self.frames.len() {
            let next = self.frames.front()?.number;
            if next > number {
                return None;
            }
            let sent = self.frames.pop_front()?;
            if next == number {
                return Some(sent.frame);
            }
        }
        None
    }
}

/// The sending end of a direction.
#[derive(Drop)]
pub(crate) struct WireOut {
    direction: Rc<RefCell<Direction>>,
    number: u32,
    sent: GhostFrames,
}

impl WireOut {
    /// Returns an end on a first connection.
    pub(crate) fn new(direction: Rc<RefCell<Direction>>) -> WireOut
        ensures number { result.number ≡ 1 }
        ensures sent { result.sent.went ≡ record { frames = []; past = [] } }
    {
        WireOut {
            direction,
            number: 1,
            sent: GhostFrames::new(),
        }
    }
}

impl FrameOut for WireOut {
    ghost state = { λ e. record {
      sent = e.sent.went.frames;
      number = e.number;
      past = e.sent.went.past;
      partly = None;
      waiting = None;
      room = None;
    } };

    fn offer(&mut self, frame: Frame) -> Result<(), Offered> {
        let sent = self.sent.and(&frame);
        let put = match self.direction.try_borrow_mut() {
            Ok(mut direction) => direction.put(self.number, frame),
            Err(_) => Err(frame),
        };
        match put {
            Ok(()) => {
                self.sent = sent;
                Ok(())
            }
            Err(frame) => Err(Offered { frame }),
        }
    }

    fn restart(&mut self, number: u32) {
        self.sent = self.sent.over(&self.number);
        self.number = number;
    }
}

/// The receiving end of a direction.
#[derive(Drop)]
pub(crate) struct WireIn {
    direction: Rc<RefCell<Direction>>,
    number: u32,
    taken: GhostFrames,
}

impl WireIn {
    /// Returns an end on a first connection.
    pub(crate) fn new(direction: Rc<RefCell<Direction>>) -> WireIn
        ensures number { result.number ≡ 1 }
        ensures taken { result.taken.went ≡ record { frames = []; past = [] } }
    {
        WireIn {
            direction,
            number: 1,
            taken: GhostFrames::new(),
        }
    }
}

impl FrameIn for WireIn {
    ghost state = { λ e. record {
      taken = e.taken.went.frames;
      number = e.number;
      past = e.taken.went.past;
      is_ready = true;
      queued = None;
      capacity = None;
    } };

    fn ready(&mut self) -> Result<(), Refusal> {
        Ok(())
    }

    fn take(&mut self) -> Result<Frame, Refusal> {
        let taken = match self.direction.try_borrow_mut() {
            Ok(mut direction) => direction.take(self.number),
            Err(_) => None,
        };
        match taken {
            Some(frame) => {
                self.taken = self.taken.and(&frame);
                Ok(frame)
            }
            None => Err(Refusal::NothingThere),
        }
    }

    fn restart(&mut self, number: u32) {
        self.taken = self.taken.over(&self.number);
        self.number = number;
    }
}
