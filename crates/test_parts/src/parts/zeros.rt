//! Tests of the test for zeros.
use blocks::{BLOCK_BYTES, are_zeros};
use std::process::Abort;

/// Checks that zeros are taken for zeros, and that a byte of 1 is seen at each of their places.
fn sees_each_place(rt: &impl Abort, bytes: &mut [u8]) {
    for place in 0..bytes.len() {
        assert!(rt; are_zeros(bytes));
        bytes[place] = 1;
        assert!(rt; !are_zeros(bytes));
        bytes[place] = 0;
    }
    assert!(rt; are_zeros(bytes));
}

#[test]
fn a_byte_at_each_place_of_a_block(rt: HostRuntime) {
    sees_each_place(&rt, &mut [0; BLOCK_BYTES]);
}

#[test]
fn a_byte_at_each_place_of_300(rt: HostRuntime) {
    sees_each_place(&rt, &mut [0; 300]);
}

#[test]
fn no_bytes_are_zeros(rt: HostRuntime) {
    assert!(rt; are_zeros(&[]));
}
