//! The thread that waits for the order to end.
use crate::service::Service;
use client_socket::Address;
use std::io::{ErrorKind, Read};
use std::net::{Net, TcpStream};
use std::sync::Wait;
use std::time::{Clock, Duration};
use std::{str, thread};

/// The order to end.
const QUIT: &str = "quit";

/// The most bytes of a line that may be the order: it, and white space around it. A longer line is not kept, since it may never
/// end.
const MOST_BYTES: usize = 64;

/// The time between two looks at an input that has nothing yet and does not wait, in milliseconds.
const LOOK_MS: u64 = 100;

/// The most bytes that are read at once.
const BUFFER_BYTES: usize = 512;

/// A line as it comes.
#[derive(Clone, Copy)]
struct Line {
    bytes: [u8; MOST_BYTES],
    // All bytes of the line, also those that are not kept.
    length: usize,
}

impl Line {
    // Creates an empty line.
    fn new() -> Line {
        Line {
            bytes: [0; MOST_BYTES],
            length: 0,
        }
    }

    // Takes a byte of the line.
    fn push(&mut self, byte: u8) {
        if let Some(place) = self.bytes.get_mut(self.length) {
            *place = byte;
        }
        self.length = self.length.saturating_add(1);
    }

    // Returns whether the line is the order to end, with or without white space around it.
    fn is_order(&self) -> bool {
        let Some(bytes) = self.bytes.get(..self.length) else {
            return false;
        };
        // What is not UTF-8 is no order.
        str::from_utf8(bytes).unwrap_or("").trim() == QUIT
    }

    // Takes bytes of this line and of further ones. Returns whether one that ends among them is the order.
    fn take(&mut self, bytes: &[u8]) -> bool {
        for byte in bytes {
            if *byte != b'\n' {
                self.push(*byte);
            } else if self.is_order() {
                return true;
            } else {
                self.length = 0;
            }
        }
        false
    }
}

/// Waits for a line `quit`, and then ends the server, which listens at these addresses. The end of the input is no such
/// line.
pub(crate) fn wait_for_quit<R: Wait + Clock + Net<Stream = TcpStream>, I: Read + Drop>(
    rt: &R,
    service: &Service,
    input: I,
    addresses: &[Address],
) {
    if !reads_quit(rt, input) {
        return;
    }
    service.end();
    // The threads that wait for clients look at each client, and so at these, whether the server ends.
    for address in addresses {
        address.visit(rt);
    }
}

// Reads lines up to the order to end. Returns whether it came: not if the input ends before, or cannot be read.
fn reads_quit<R: Wait + Clock, I: Read + Drop>(rt: &R, input: I) -> bool {
    let mut input = input;
    let mut line = Line::new();
    let mut buffer = [0u8; BUFFER_BYTES];
    for _ in rt.forever() {
        match input.read(&mut buffer) {
            // The last line may have no newline.
            Ok(0) => return line.is_order(),
            Ok(count) => {
                if line.take(&buffer[..count]) {
                    return true;
                }
            }
            Err(error) if error.kind() == ErrorKind::Interrupted => {}
            // Another program may have set the input to answer at once.
            Err(error) if error.kind() == ErrorKind::WouldBlock => {
                thread::sleep(rt, Duration::from_millis(LOOK_MS));
            }
            Err(_) => return false,
        }
    }
    unreachable!()
}
