//! A connection that notes what is sent over it.
ghost use Rattle.std.specs.Prelude.{None};

use host_files::TcpLink;
use host_model::{Failed, Link};
use std::alloc::Global;

/// A link of which is known what was sent over it, as far as there was memory. It tells nothing.
#[derive(Drop)]
pub struct Tap {
    link: TcpLink<HostRuntime>,
    sent: Vec<u8>,
}

impl Tap {
    pub fn new(alloc: Global, link: TcpLink<HostRuntime>) -> Tap {
        Tap {
            link,
            sent: Vec::new(alloc),
        }
    }

    /// Closes the connection, and gives what was sent over it.
    pub fn close(self) -> Vec<u8> {
        self.sent
    }
}

/// Notes these bytes, as far as there is memory.
fn note(sent: &mut Vec<u8>, bytes: &[u8]) {
    let _ = sent.extend_from_slice(bytes);
}

impl Link for Tap {
    ghost sent = { λ _. None };

    ghost left = { λ _. None };

    ghost faults = { λ tap. ⟦<TcpLink<HostRuntime> as Link>⟧.faults tap.link };

    fn send(&mut self, bytes: &[u8]) -> Result<(), Failed> {
        note(&mut self.sent, bytes);
        self.link.send(bytes)
    }

    fn recv(&mut self, into: &mut [u8]) -> Result<usize, Failed> {
        self.link.recv(into)
    }
}
