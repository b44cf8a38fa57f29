//! Bytes for one place of a device.
ghost use Rattle.std.specs.Prelude.{◌≡◌};
ghost use Rattle.device_parts.specs.Places.{Place};

use bytes::Bytes;

/// Bytes for one place of a device, which are written once. Its maker decides what they are; a device takes them as they are.
pub trait Part: Drop {
    ghost place: { Self → Place };

    /// Returns the block in which the place begins.
    fn block(&self) -> u64
        ensures { result ≡ (place self.now).block };

    /// Returns the byte of that block with which the place begins.
    fn from(&self) -> u32
        ensures { result ≡ (place self.now).from };

    /// Returns the bytes.
    fn into_bytes(self) -> Bytes
        ensures { result ≡ (place self).bytes };
}
