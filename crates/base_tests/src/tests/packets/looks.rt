//! Looks at headers, by hand.

use super::*;
use messages::look_at;
use std::fmt;
use std::test::Fail;

/// Bytes, and what their header says.
static LOOKED: [(&[u8], &str); 4] = [
    (
        b"FC\x01\x08\0\0\0\x08\0\0\0\x03\0\0\0\x0c\0\0\0\0\0\0\0\x05\0\0\0\x0f",
        "Client Server(ServerNo(3)) StateAck",
    ),
    (
        b"FC\x01\x11\0\0\0\x07\0\0\0\x08\0\0\x04\x21\x06\0\0\0\0\0\0\0\x01",
        "Server(ServerNo(7)) Client Piece",
    ),
    (
        b"FC\x01\x10\0\0\0\0\0\0\0\x01\xff\xff\xff\xff",
        "Server(ServerNo(0)) Server(ServerNo(1)) Refused",
    ),
    (
        b"FC\x01\x15\0\0\0\x09\0\0\0\x08\0\0\0\x08",
        "Mirror Client Granted",
    ),
];

/// Bytes that have no header of a frame: too few, another letter, another version, a kind that isn't
/// known, and a node above 9.
static STRANGE: [&[u8]; 9] = [
    b"",
    b"FC\x01\x08\0\0\0\x08\0\0\0\x03\0\0\0",
    b"fC\x01\x08\0\0\0\x08\0\0\0\x03\0\0\0\x0c",
    b"Fc\x01\x08\0\0\0\x08\0\0\0\x03\0\0\0\x0c",
    b"FC\x02\x08\0\0\0\x08\0\0\0\x03\0\0\0\x0c",
    b"FC\x01\x00\0\0\0\x08\0\0\0\x03\0\0\0\x0c",
    b"FC\x01\x16\0\0\0\x08\0\0\0\x03\0\0\0\x0c",
    b"FC\x01\x08\0\0\0\x0a\0\0\0\x03\0\0\0\x0c",
    b"FC\x01\x08\0\0\0\x08\x01\0\0\x03\0\0\0\x0c",
];

/// What a header says, in letters.
fn said(alloc: Global, bytes: &[u8]) -> Result<String, fmt::Error> {
    let mut text = String::new(alloc);
    if let Some(look) = look_at(bytes) {
        write!(text, "{:?} {:?} {}", look.from, look.to, look.kind.name())?;
    }
    Ok(text)
}

/// Whether a header says just this.
fn says(alloc: Global, bytes: &[u8], wanted: &str) -> bool {
    match said(alloc, bytes) {
        Ok(said) => said.as_str() == wanted,
        Err(_) => false,
    }
}

#[test]
fn looks_at_headers(rt: HostRuntime) -> Result<(), Fail> {
    for (bytes, wanted) in &LOOKED {
        if !says(rt.alloc(), bytes, wanted) {
            return Err(Fail::new(*wanted));
        }
    }
    Ok(())
}

#[test]
fn looks_at_strange_headers(_rt: HostRuntime) -> Result<(), Fail> {
    for (row, bytes) in STRANGE.iter().enumerate() {
        if look_at(bytes).is_some() {
            return Err(Fail::new(row));
        }
    }
    Ok(())
}
