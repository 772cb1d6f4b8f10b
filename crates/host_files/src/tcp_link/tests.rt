use super::*;
use std::test::Fail;

type OwnLink<'a> = TcpLink<&'a HostRuntime>;

/// An address of this machine at which nobody listens. Its port was free a moment ago.
fn free_address(rt: &HostRuntime) -> Result<String, Fail> {
    let listener = TcpListener::bind(rt, "127.0.0.1:0")?;
    let address = listener.local_addr()?;
    Ok(format!(in rt.alloc(); "{address}")?)
}

fn connecting<'a>(rt: &'a HostRuntime, address: &str) -> Result<OwnLink<'a>, Fail> {
    Ok(TcpLink::connecting(rt.alloc(), rt, address)?)
}

fn send(link: &mut OwnLink<'_>, bytes: &[u8]) -> Result<(), Failed> {
    link.send(bytes)
}

/// Takes so many bytes one by one, or those before the end.
fn take(alloc: Global, link: &mut OwnLink<'_>, size: usize) -> Result<Vec<u8>, Fail> {
    let mut bytes = Vec::new(alloc);
    let mut byte = [0; 1];
    for _ in 0..size {
        if link.recv(&mut byte)? > 0 {
            bytes.push(byte[0])?;
        }
    }
    Ok(bytes)
}

#[test]
fn two_ends_speak_in_turn(rt: HostRuntime) -> Result<(), Fail> {
    let address = free_address(&rt)?;
    let mut here = TcpLink::listening(&rt, address.as_str());
    let mut there = connecting(&rt, address.as_str())?;
    send(&mut there, b"hello")?;
    let bytes = take(rt.alloc(), &mut here, 5)?;
    assert_eq!(rt; bytes.as_slice(), b"hello".as_slice());
    send(&mut here, b"and ")?;
    send(&mut here, b"back")?;
    let bytes = take(rt.alloc(), &mut there, 8)?;
    assert_eq!(rt; bytes.as_slice(), b"and back".as_slice());
    Ok(())
}

#[test]
fn an_end_that_is_gone_sends_and_takes_nothing(rt: HostRuntime) -> Result<(), Fail> {
    let address = free_address(&rt)?;
    let mut here = TcpLink::listening(&rt, address.as_str());
    let mut there = connecting(&rt, address.as_str())?;
    send(&mut there, b"a")?;
    drop(there);
    assert_eq!(rt; take(rt.alloc(), &mut here, 3)?.len(), 1);
    // The system may take bytes before it has heard that the peer is gone.
    let mut failed = false;
    for _ in 0..1_000 {
        failed = failed || send(&mut here, b"x").is_err();
    }
    assert!(rt; failed);
    assert!(rt; here.error().is_some());
    Ok(())
}

#[test]
fn an_address_that_is_none_fails(rt: HostRuntime) -> Result<(), Fail> {
    for address in ["", "127.0.0.1", "127.0.0.1:65536", "127.0.0.1:x"] {
        let mut there = connecting(&rt, address)?;
        assert!(rt; send(&mut there, b"a").is_err());
        let mut here = TcpLink::listening(&rt, address);
        assert!(rt; here.recv(&mut [0; 1]).is_err());
    }
    Ok(())
}

#[test]
fn a_connection_that_is_refused_fails(rt: HostRuntime) -> Result<(), Fail> {
    let address = free_address(&rt)?;
    let mut there = connecting(&rt, address.as_str())?;
    assert!(rt; there.recv(&mut [0; 1]).is_err());
    Ok(())
}

#[test]
fn an_address_that_is_taken_fails(rt: HostRuntime) -> Result<(), Fail> {
    let address = free_address(&rt)?;
    let _here = TcpLink::listening(&rt, address.as_str());
    let mut second = TcpLink::listening(&rt, address.as_str());
    assert!(rt; send(&mut second, b"a").is_err());
    Ok(())
}

#[test]
fn one_connection_is_accepted(rt: HostRuntime) -> Result<(), Fail> {
    let address = free_address(&rt)?;
    let mut here = TcpLink::listening(&rt, address.as_str());
    let mut first = connecting(&rt, address.as_str())?;
    send(&mut first, b"a")?;
    assert_eq!(rt; take(rt.alloc(), &mut here, 1)?.len(), 1);
    let mut second = connecting(&rt, address.as_str())?;
    assert!(rt; send(&mut second, b"b").is_err());
    Ok(())
}
