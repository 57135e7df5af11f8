//! The stream of a connection whose peer may be slow or silent.

use std::cell::Cell;
use std::io;
use std::io::{ErrorKind, Read, Write};
use std::net::{OpenStream, Shutdown, TcpStream};
use std::time::{Duration, Instant};

/// How many seconds a connection may be silent before a message begins.
const SILENCE: u64 = 1;

/// How many seconds a message may take to arrive completely, once it has begun.
const MESSAGE: u64 = 10;

/// How many seconds the peer may take to read a reply.
const REPLY: u64 = 10;

/// How many seconds, at most, bytes that a peer sends after the last reply are read and dropped.
const REST: u64 = 2;

/// The most reads of such bytes, of up to 4 KiB each.
const PIECES: u64 = 256;

/// A connection with a peer, which ends if the peer takes too long.
///
/// The connection counts as ended if no message begins within a second after it opened or after the last reply. A
/// message that has begun, and a reply, have ten seconds; then the read or the write fails. Only waiting for the peer
/// counts, not computing a reply.
#[derive(Drop)]
pub struct Peer<'a> {
    rt: &'a HostRuntime,
    stream: &'a TcpStream,
    /// The time left for the current message to arrive; `None` between messages.
    message: Cell<Option<Duration>>,
    /// The time left for the peer to read the current reply.
    reply: Cell<Duration>,
    /// Whether the last read found the end, because the peer closed the connection or was silent.
    is_drained: Cell<bool>,
}

impl<'a> Peer<'a> {
    /// The peer of a new connection.
    pub fn new(rt: &'a HostRuntime, stream: &'a TcpStream) -> Peer<'a> {
        Peer {
            rt,
            stream,
            message: Cell::new(None),
            reply: Cell::new(Duration::from_secs(REPLY)),
            is_drained: Cell::new(false),
        }
    }

    /// Shuts down writing, which shows the client that the last reply has ended. Then reads and drops some unread
    /// bytes, since closing a socket with unread bytes resets the connection and may lose the last reply. It doesn't
    /// wait again for a peer that was silent or has closed the connection.
    pub fn end(&self) -> io::Result<()> {
        self.stream.shutdown(Shutdown::Write)?;
        if self.is_drained.get() {
            return Ok(());
        }
        let begun = Instant::now(self.rt)?;
        let mut reader = self.stream;
        let mut piece = [0u8; 4096];
        for _ in 0..PIECES {
            let left = Duration::from_secs(REST).saturating_sub(begun.elapsed(self.rt)?);
            // A timeout of zero would be refused.
            self.stream.set_read_timeout(Some(left))?;
            if reader.read(&mut piece)? == 0 {
                return Ok(());
            }
        }
        Ok(())
    }
}

impl Read for &Peer<'_> {
    fn read(&mut self, buf: &mut [u8]) -> io::Result<usize> {
        let left = self.message.get();
        let wait = left.unwrap_or(Duration::from_secs(SILENCE));
        self.stream.set_read_timeout(Some(wait))?;
        let begun = Instant::now(self.rt)?;
        let mut reader = self.stream;
        match reader.read(buf) {
            Ok(k) => {
                let spent = begun.elapsed(self.rt)?;
                let left = match left {
                    Some(left) => left.saturating_sub(spent),
                    None => Duration::from_secs(MESSAGE),
                };
                self.message.set(Some(left));
                self.is_drained.set(k == 0);
                Ok(k)
            }
            Err(error) if left.is_none() && error.kind() == ErrorKind::WouldBlock => {
                self.is_drained.set(true);
                Ok(0)
            }
            Err(error) => Err(error),
        }
    }
}

impl Write for &Peer<'_> {
    fn write(&mut self, buf: &[u8]) -> io::Result<usize> {
        let left = self.reply.get();
        self.stream.set_write_timeout(Some(left))?;
        let begun = Instant::now(self.rt)?;
        let mut writer = self.stream;
        let k = writer.write(buf)?;
        if k == buf.len() {
            // The reply is complete, so the next message is due.
            self.message.set(None);
            self.reply.set(Duration::from_secs(REPLY));
        } else {
            let spent = begun.elapsed(self.rt)?;
            self.reply.set(left.saturating_sub(spent));
        }
        Ok(k)
    }

    fn flush(&mut self) -> io::Result<()> {
        Ok(())
    }
}
