//! The connections to a port of this machine.

ghost use Rattle.std.specs.Prelude.{◌≡◌, ◌++◌, ℕ, codes, is_ok, IfOk, IfErr};
ghost use Rattle.std.specs.Fmt.{decimal};
ghost use Rattle.std.specs.String.{string_bytes};
ghost use Rattle.life_archive.specs.Session.{CannotListen, ServesOne, unknown, failures_after};

use crate::peer::Peer;
use life_archive::{ArchiveStop, Connections, connection_line, run_serve};
use life_jobs::Stop;
use life_pages::IoFault;
use life_rle::{FromRead, FromWrite};
use life_store::Archive;
use sqlite::Alter;
use std::alloc::{AllocError, Global};
use std::io;
use std::net::{OpenListener, TcpListener};

/// The address that the program listens at: 127.0.0.1, which only programs on this machine can reach.
fn address_of(alloc: Global, port: u64) -> Result<String, AllocError>
    ensures { IfOk result (λ address. string_bytes address ≡ codes "127.0.0.1:" ++ decimal port) }
{
    format!(in alloc; "127.0.0.1:{port}")
}

/// Listens at a port of this machine. `NoPort` if the system refuses it.
fn listen(rt: &HostRuntime, port: u64) -> Result<TcpListener, ArchiveStop>
    ensures { IfErr result CannotListen }
{
    let Ok(address) = address_of(rt.alloc(), port) else {
        return Err(ArchiveStop::Job(Stop::Unavailable));
    };
    match TcpListener::bind(rt, address.as_str()) {
        Ok(listener) => Ok(listener),
        Err(_) => Err(ArchiveStop::NoPort),
    }
}

/// Prints the address on standard output, once the port accepts connections.
fn say_port(rt: &HostRuntime, port: u64) -> io::Result<()> {
    println!(rt; "listening on 127.0.0.1:{port}")
}

/// Serves the next connection. Without a listener no connection comes, which counts as a failed read.
fn serve_next<S: Alter>(
    rt: &HostRuntime,
    alloc: Global,
    archive: &mut Archive<S>,
    listener: &Option<TcpListener>,
) -> Result<(), IoFault>
    ensures { (n : ℕ) → ServesOne S.Store archive.old archive.new (unknown n) (unknown (failures_after (is_ok result) n)) }
{
    let Some(listener) = listener else {
        return Err(IoFault::Read);
    };
    let Ok((stream, _)) = listener.accept() else {
        return Err(IoFault::Read);
    };
    let peer = Peer::new(rt, &stream);
    let served = run_serve(
        alloc,
        archive,
        &mut FromRead::new(&peer),
        &mut FromWrite::new(&peer),
    );
    // An error here only means that the client has gone.
    let _ended = peer.end();
    served
}

/// The connections to a port. The program listens there only after it has opened the archive.
#[derive(Drop)]
pub struct PortConnections<'a> {
    rt: &'a HostRuntime,
    port: u64,
    listener: Option<TcpListener>,
    /// How many connections ended with a fault. It only grows, up to the greatest `u64`.
    failures: u64,
}

impl<'a> PortConnections<'a> {
    /// The port, before the program listens there.
    pub fn new(rt: &'a HostRuntime, port: u64) -> PortConnections<'a>
        ensures { ⟦<PortConnections<'static> as Connections>⟧.traffic result ≡ unknown 0 }
    {
        PortConnections {
            rt,
            port,
            listener: None,
            failures: 0,
        }
    }
}

impl Connections for PortConnections<'_> {
    // The bytes of a socket are unknown; only the number of failed connections is tracked.
    ghost traffic = { λ s. unknown s.failures };

    /// Listens at the port, and prints the line that says so.
    fn listen(&mut self) -> Result<(), ArchiveStop> {
        self.listener = Some(listen(self.rt, self.port)?);
        match say_port(self.rt, self.port) {
            Ok(()) => Ok(()),
            Err(_) => Err(ArchiveStop::Job(Stop::Unwritable)),
        }
    }

    /// Serves one connection. If it fails, prints a line on standard error.
    fn serve_next<S: Alter>(&mut self, alloc: Global, archive: &mut Archive<S>) {
        match serve_next(self.rt, alloc, archive, &self.listener) {
            Ok(()) => {}
            Err(fault) => {
                self.failures = self.failures.saturating_add(1);
                // If standard error fails, the error can't be reported.
                let _ignored = self.rt.eprintln(connection_line(fault));
            }
        }
    }
}
