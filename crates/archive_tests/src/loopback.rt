//! A message over loopback, within one process and without threads. A peer connects, sends and shuts down; then the
//! server accepts the connection, answers and shuts down.
use crate::pages::{DEPOSITED, GLIDER};
use life_archive::run_serve;
use life_pages::IoFault;
use life_rle::{FromRead, FromWrite};
use life_store::Archive;
use std::io;
use std::io::{Read, Write};
use std::net::{Ipv4Addr, OpenListener, OpenStream, Shutdown, SocketAddr, TcpListener, TcpStream};
use std::test::Fail;

/// Answers the next connection from a new archive.
fn answer_next(rt: &HostRuntime, listener: &TcpListener) -> io::Result<Result<(), IoFault>> {
    let (stream, _) = listener.accept()?;
    let served = match Archive::open_in_memory(rt.alloc(), 2) {
        Ok(mut archive) => run_serve(
            rt.alloc(),
            &mut archive,
            &mut FromRead::new(&stream),
            &mut FromWrite::new(&stream),
        ),
        Err(_) => Err(IoFault::Memory),
    };
    stream.shutdown(Shutdown::Write)?;
    Ok(served)
}

/// The result of serving a peer that sends these bytes, and the bytes that the peer receives.
fn exchanged(rt: &HostRuntime, sent: &[u8]) -> io::Result<(Result<(), IoFault>, Vec<u8>)> {
    let listener = TcpListener::bind(rt, SocketAddr::from((Ipv4Addr::LOCALHOST, 0)))?;
    let mut peer = TcpStream::connect(rt, listener.local_addr()?)?;
    peer.write_all(sent)?;
    peer.shutdown(Shutdown::Write)?;
    let served = answer_next(rt, &listener)?;
    let mut received = Vec::new(rt.alloc());
    peer.read_to_end(&mut received)?;
    Ok((served, received))
}

/// Whether the peer's deposit is acknowledged.
fn is_acknowledged(rt: &HostRuntime) -> bool {
    match exchanged(rt, GLIDER.as_bytes()) {
        Ok((served, received)) => served == Ok(()) && received.as_slice() == DEPOSITED.as_bytes(),
        Err(_) => false,
    }
}

#[test]
fn a_deposit_over_loopback(rt: HostRuntime) -> Result<(), Fail> {
    assert!(rt; is_acknowledged(&rt));
    Ok(())
}
