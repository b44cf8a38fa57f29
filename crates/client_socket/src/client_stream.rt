//! The socket of a client, whichever way it came.
ghost use Rattle.std.specs.Io.{ReadsAtMost, WritesAtMost};

use std::io;
use std::io::{Read, Write};
use std::net::{Shutdown, TcpStream};
use std::os::unix::net::UnixStream;
use std::sync::atomic::{AtomicU64, Ordering};
use std::time::Duration;

/// The socket of a client that came by an IP address or by a Unix socket.
#[derive(Drop)]
pub struct ClientStream {
    socket: Socket,
    // How long a write waits, in milliseconds, 0 as long as that was not said.
    write_limit_ms: AtomicU64,
}

#[derive(Drop)]
enum Socket {
    Tcp(TcpStream),
    Unix(UnixStream),
}

impl From<TcpStream> for ClientStream {
    fn from(stream: TcpStream) -> ClientStream {
        ClientStream::of(Socket::Tcp(stream))
    }
}

impl From<UnixStream> for ClientStream {
    fn from(stream: UnixStream) -> ClientStream {
        ClientStream::of(Socket::Unix(stream))
    }
}

impl ClientStream {
    fn of(socket: Socket) -> ClientStream {
        ClientStream {
            socket,
            write_limit_ms: AtomicU64::new(0),
        }
    }

    /// Makes the socket send without delay. One of the same machine does anyway.
    pub fn send_without_delay(&self) -> io::Result<()> {
        match &self.socket {
            Socket::Tcp(stream) => stream.set_nodelay(true),
            Socket::Unix(_) => Ok(()),
        }
    }

    /// Limits how long a read waits. The limit is not zero.
    pub fn limit_reads(&self, limit: Duration) -> io::Result<()> {
        match &self.socket {
            Socket::Tcp(stream) => stream.set_read_timeout(Some(limit)),
            Socket::Unix(stream) => stream.set_read_timeout(Some(limit)),
        }
    }

    /// Limits how long a write waits, to the whole milliseconds of this limit, and to one at least. The system is told only where that
    /// changes something: most replies are written at once, and each begins with the same limit.
    pub fn limit_writes(&self, limit: Duration) -> io::Result<()> {
        let limit_ms = u64::try_from(limit.as_millis()).unwrap_or(u64::MAX).max(1);
        if self.write_limit_ms.load(Ordering::Relaxed) == limit_ms {
            return Ok(());
        }
        let limit = Some(Duration::from_millis(limit_ms));
        match &self.socket {
            Socket::Tcp(stream) => stream.set_write_timeout(limit)?,
            Socket::Unix(stream) => stream.set_write_timeout(limit)?,
        }
        self.write_limit_ms.store(limit_ms, Ordering::Relaxed);
        Ok(())
    }

    /// Reads what the client has sent.
    pub fn read_some(&self, buffer: &mut [u8]) -> io::Result<usize>
        ensures bound { ReadsAtMost result buffer.new }
    {
        match &self.socket {
            Socket::Tcp(stream) => {
                let mut stream = stream;
                stream.read(buffer)
            }
            Socket::Unix(stream) => {
                let mut stream = stream;
                stream.read(buffer)
            }
        }
    }

    /// Writes bytes from the front.
    pub fn write_some(&self, bytes: &[u8]) -> io::Result<usize>
        ensures bound { WritesAtMost result bytes.now }
    {
        match &self.socket {
            Socket::Tcp(stream) => {
                let mut stream = stream;
                stream.write(bytes)
            }
            Socket::Unix(stream) => {
                let mut stream = stream;
                stream.write(bytes)
            }
        }
    }

    /// Ends the connection, one way or both.
    pub fn shutdown(&self, how: Shutdown) -> io::Result<()> {
        match &self.socket {
            Socket::Tcp(stream) => stream.shutdown(how),
            Socket::Unix(stream) => stream.shutdown(how),
        }
    }
}
