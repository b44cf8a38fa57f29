//! Where a server listens.
ghost use Rattle.std.specs.Prelude.{◌≡◌, IsTrue, false};
ghost use Rattle.program_values.specs.Names.{IsName, are_of_name, is_of_name};

use std::net::SocketAddr;

/// The most bytes of a server's name. The path of its socket has 107 at most.
const MOST_BYTES: usize = 64;

/// A place at which a server listens.
#[derive(Clone, Copy)]
pub enum ListenAt<'a> {
    /// An IP address and a port; for port 0 the system picks one.
    Ip(SocketAddr),
    /// The path of a Unix socket.
    Unix(&'a str),
}

/// The name of a server, and the folder in which named servers have one each, with their status socket in it.
#[derive(Clone, Copy)]
pub struct ServerName<'a> {
    /// 1 to 64 letters, digits, `-`, `_` and `.`, the first one a letter or a digit.
    pub name: &'a str,
    pub run_folder: &'a str,
}

impl ServerName<'_> {
    /// Returns whether a word is the name of a server: 1 to 64 letters, digits, `-`, `_` and `.`, the first one a letter or a digit, and not
    /// `all`, which stands for all servers.
    pub fn is_name(word: &str) -> bool
        ensures name { IsTrue result → IsName word.now }
        ensures none { result ≡ false → IsName word.now → ⊥ }
    {
        let bytes = word.as_bytes();
        let begins = match bytes {
            [first, ..] => first.is_ascii_alphanumeric(),
            [] => false,
        };
        begins && bytes.len() <= MOST_BYTES && word != "all" && are_of_name(bytes)
    }
}

// Returns whether each byte may stand in a name.
fn are_of_name(bytes: &[u8]) -> bool
    ensures { result ≡ are_of_name bytes.now }
{
    for byte in bytes {
        if !is_of_name(*byte) {
            return false;
        }
    }
    true
}

// Returns whether a byte may stand in a name.
fn is_of_name(byte: u8) -> bool
    ensures { result ≡ is_of_name byte }
{
    byte.is_ascii_alphanumeric() || matches!(byte, b'-' | b'_' | b'.')
}
