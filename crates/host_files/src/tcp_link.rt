ghost use Rattle.std.specs.Prelude.{◌≡◌, ◌^◌, ◌-◌, ◌<◌, ◌≤◌, ◌↔◌, length, IfOk, IsErr, IsSome, None};
ghost use Rattle.host_model.specs.Cause.{HasCause};
ghost use Rattle.host_model.specs.Calls.{raised};

use crate::connection::Connection;
use crate::faults::Faults;
use host_model::{Failed, Link};
use std::alloc::{AllocError, Global};
use std::io;
use std::net::{Net, TcpListener, TcpStream};

/// A TCP connection as a link. It tells nothing.
///
/// A peer that is silent is waited for, as long as it takes: there is no timeout, neither while the
/// connection is made nor while bytes are sent or awaited. Once a call has failed, each later one fails
/// for the same reason: so what was sent stays a prefix of what was to be sent.
#[derive(Drop)]
pub struct TcpLink<R: Net<Stream = TcpStream, Listener = TcpListener> + Drop> {
    connection: Connection<R>,
    faults: Faults<io::Error>,
}

impl<R: Net<Stream = TcpStream, Listener = TcpListener> + Drop> TcpLink<R> {
    /// A link to `address`, a host and a port as `example.org:19999`. The first call connects; it fails
    /// where the address is none, where nobody is there and where the connection is refused. No call
    /// has failed.
    pub fn connecting(alloc: Global, system: R, address: &str) -> Result<TcpLink<R>, AllocError>
        ensures { IfOk result (λ link. ⟦<TcpLink<R> as Link>⟧.faults link ≡ 0) }
    {
        Ok(TcpLink {
            connection: Connection::to(alloc, system, address)?,
            faults: Faults::new(),
        })
    }

    /// A link that listens at `address`, a host and a port, from now on. The first call accepts one
    /// connection, and nobody can connect to it after that; it fails where the address could not be
    /// bound. No call has failed.
    pub fn listening(system: R, address: &str) -> TcpLink<R>
        ensures { ⟦<TcpLink<R> as Link>⟧.faults result ≡ 0 }
    {
        TcpLink {
            connection: Connection::at(system, address),
            faults: Faults::new(),
        }
    }

    /// Why the first call that failed did.
    pub fn error(&self) -> Option<io::Error>
        ensures { IsSome result ↔ (0 < ⟦<TcpLink<R> as Link>⟧.faults self.now) }
    {
        self.faults.first()
    }

    /// Counts a failed call.
    fn fail(&mut self, reason: io::Error) -> Failed
        ensures count { self.new.faults.count ≡ raised self.old.faults.count }
        ensures range { self.old.faults.count ≤ 2 ^ 64 - 1 }
    {
        self.faults.add(reason);
        Failed
    }
}

impl<R: Net<Stream = TcpStream, Listener = TcpListener> + Drop> Link for TcpLink<R> {
    ghost sent = { λ _. None };

    ghost left = { λ _. None };

    ghost faults = { λ link. link.faults.count };

    fn send(&mut self, bytes: &[u8]) -> Result<(), Failed>
        ensures cause { HasCause self.old.faults.count self.new.faults.count (IsErr result) }

        // Once a call has failed, each later one does.
        ensures lost { 0 < self.old.faults.count → IsErr result }
    {
        let sent = match self.faults.first() {
            Some(reason) => Err(reason),
            None => self.connection.send(bytes),
        };
        match sent {
            Ok(()) => Ok(()),
            Err(reason) => Err(self.fail(reason)),
        }
    }

    fn recv(&mut self, into: &mut [u8]) -> Result<usize, Failed>
        ensures within { IfOk result (λ n. n ≤ length into.new) }
        ensures cause { HasCause self.old.faults.count self.new.faults.count (IsErr result) }

        // Once a call has failed, each later one does.
        ensures lost { 0 < self.old.faults.count → IsErr result }
    {
        let taken = match self.faults.first() {
            Some(reason) => Err(reason),
            None => self.connection.recv(into),
        };
        match taken {
            Ok(size) => Ok(size),
            Err(reason) => Err(self.fail(reason)),
        }
    }
}

#[cfg(test)]
mod tests;
