//! One TCP connection, which is made where it is first used.
ghost use Rattle.std.specs.Prelude.{◌≤◌, length, IfOk};

use crate::regular::kept;
use crate::stdin_source::read_on;
use std::alloc::{AllocError, Global};
use std::io;
use std::io::{Error, ErrorKind, Write};
use std::net::{Net, TcpListener, TcpStream};

/// How far a connection has come.
#[derive(Drop)]
enum End {
    /// It is to connect to this address.
    Connects(String),
    /// It is to accept one connection.
    Listens(TcpListener),
    /// It could not be bound to its address.
    Unbound(Error),
    Open(TcpStream),
}

/// A connection of the system's network.
#[derive(Drop)]
pub(crate) struct Connection<R: Net<Stream = TcpStream, Listener = TcpListener> + Drop> {
    system: R,
    end: End,
}

impl<R: Net<Stream = TcpStream, Listener = TcpListener> + Drop> Connection<R> {
    /// A connection to `address`, a host and a port, which the first call makes.
    pub(crate) fn to(alloc: Global, system: R, address: &str) -> Result<Connection<R>, AllocError> {
        Ok(Connection {
            system,
            end: End::Connects(String::from_str(alloc, address)?),
        })
    }

    /// The first connection that comes to `address`, a host and a port. It is bound now, and the first
    /// call accepts.
    pub(crate) fn at(system: R, address: &str) -> Connection<R> {
        let end = match bind(&system, address) {
            Ok(listener) => End::Listens(listener),
            Err(reason) => End::Unbound(reason),
        };
        Connection { system, end }
    }

    /// Makes the connection, where there is none yet.
    fn open(&mut self) -> io::Result<()> {
        let stream = match &self.end {
            End::Open(_) => return Ok(()),
            End::Unbound(reason) => return Err(*reason),
            End::Connects(address) => TcpStream::connect(&self.system, address.as_str())?,
            End::Listens(listener) => listener.accept()?.0,
        };
        // A listener is closed here, so that nobody else waits for it.
        self.end = End::Open(kept(stream)?);
        Ok(())
    }

    /// Sends all of `bytes`.
    pub(crate) fn send(&mut self, bytes: &[u8]) -> io::Result<()> {
        self.open()?;
        match &mut self.end {
            End::Open(stream) => stream.write_all(bytes),
            End::Connects(_) | End::Listens(_) | End::Unbound(_) => Err(not_open()),
        }
    }

    /// Takes what has come, and waits where nothing has. No byte means that the peer sends no more.
    pub(crate) fn recv(&mut self, into: &mut [u8]) -> io::Result<usize>
        ensures { IfOk result (λ n. n ≤ length into.new) }
    {
        self.open()?;
        match &mut self.end {
            End::Open(stream) => read_on(stream, into),
            End::Connects(_) | End::Listens(_) | End::Unbound(_) => Err(not_open()),
        }
    }
}

fn bind<R: Net<Stream = TcpStream, Listener = TcpListener>>(
    system: &R,
    address: &str,
) -> io::Result<TcpListener> {
    kept(TcpListener::bind(system, address)?)
}

fn not_open() -> Error {
    Error::from(ErrorKind::NotConnected)
}
