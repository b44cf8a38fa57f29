//! The buffer of a pump.
ghost use Rattle.std.specs.Prelude.{◌≡◌, ◌≤◌, ◌+◌, ◌-◌, [], ◌++◌, length, take, IfErr, IfOk, MatchResult};
ghost use Rattle.std.specs.Io.KnownBytes.{Consumes, IsAtEnd, Keeps};
ghost use Rattle.blocks.specs.declared.refusal.Refusal.TheVariants.{NoMemory};

use blocks::Refusal;
use std::alloc::Global;
use std::io;
use std::io::Read;
use std::marker::Model;

/// The bytes of a pump's buffer: 64 KiB, so that one call of a socket carries many short frames, and then the longest
/// frame.
pub const BUFFER_BYTES: usize = 196_640;

/// The bytes that a pump has in hand: 196,640 at most, in memory that is allocated once.
#[derive(Drop)]
pub struct Buffer {
    memory: Vec<u8>,
    len: usize,
}

impl Model for Buffer {
    ghost use Rattle.std.specs.Prelude.{◌≡◌, ◌≤◌, ℕ, List, take, vec_len};

    ghost Value = { List ℕ };

    ghost view = { λ b. take b.len b.memory.items };

    ghost invariant = { λ b. (b.len ≤ 196640) × (vec_len b.memory ≡ 196640) };
}

impl Buffer {
    /// Creates an empty buffer. `NoMemory` (7) if its memory cannot be allocated.
    pub fn new(alloc: Global) -> Result<Buffer, Refusal>
        ensures empty { IfOk result (λ buffer. buffer ≡ []) }
        ensures refused { IfErr result (λ e. e ≡ NoMemory) }
    {
        Ok(Buffer {
            memory: Vec::from_elem(alloc, 0, BUFFER_BYTES)?,
            len: 0,
        })
    }

    /// Returns its bytes.
    pub(crate) fn bytes(&self) -> &[u8]
        ensures value { result.now ≡ self.now }
        ensures few { length self.now ≤ 196640 }
    {
        &self.memory[..self.len]
    }

    /// Returns how many more bytes it has room for.
    pub(crate) fn room(&self) -> usize
        ensures { result + length self.now ≡ 196640 }
    {
        BUFFER_BYTES - self.len
    }

    /// Drops its bytes.
    pub(crate) fn clear(&mut self)
        ensures { self.new ≡ [] }
    {
        self.len = 0;
    }

    /// Appends bytes.
    pub(crate) fn append(&mut self, bytes: &[u8])
        requires { length self.old + length bytes.now ≤ 196640 }
        ensures { self.new ≡ self.old ++ bytes.now }
    {
        let end = self.len + bytes.len();
        self.memory[self.len..end].copy_from_slice(bytes);
        self.len = end;
    }

    /// Reads once, up to 196,640 bytes, which replace its own. It is empty after a failure.
    pub(crate) fn read_from<D: Read>(&mut self, reader: &mut D) -> io::Result<usize>
        ensures count { IfOk result (λ count. length self.new ≡ count) }
        ensures read { MatchResult result
            (λ _. Consumes (D.remaining reader.old) (D.remaining reader.new) self.new)
            (λ _. (self.new ≡ []) × Keeps (D.remaining reader.old) (D.remaining reader.new)) }
        ensures end { IfOk result (λ count. count ≡ 0 → IsAtEnd (D.remaining reader.new)) }
    {
        self.len = 0;
        self.len = reader.read(&mut self.memory)?;
        Ok(self.len)
    }
}
