//! Tests of a script that cannot be read, and of an output that cannot be written.
use crate::scripts::run::{check_no_script, check_one_line};
use script::script_on;
use std::io;
use std::io::Read;

/// An input that fails after its bytes.
#[derive(Drop)]
struct Broken {
    bytes: &'static [u8],
}

impl Read for Broken {
    fn read(&mut self, buf: &mut [u8]) -> io::Result<usize> {
        match (self.bytes.split_first(), buf.first_mut()) {
            (Some((byte, rest)), Some(place)) => {
                *place = *byte;
                self.bytes = rest;
                Ok(1)
            }
            _ => Err(io::Error::from(io::ErrorKind::BrokenPipe)),
        }
    }
}

#[test]
fn an_input_that_fails_runs_nothing(rt: HostRuntime) {
    for bytes in [b"".as_slice(), b"pair\nsent\n".as_slice()] {
        check_no_script(&rt, &mut Broken { bytes });
    }
}

#[test]
fn an_output_that_fails_stops_a_script(rt: HostRuntime) {
    let alloc = rt.alloc();
    let mut room = [0u8; 8];
    let mut written = room.as_mut_slice();
    let mut errors = Vec::new(alloc);
    let mut input = b"pair\nmarks\nsent\n".as_slice();
    let status = script_on(alloc, &mut input, &mut written, &mut errors);
    assert_eq!(rt; status, 1);
    assert_eq!(rt; room.as_slice(), b"pair ok\n".as_slice());
    check_one_line(&rt, &errors);
}
