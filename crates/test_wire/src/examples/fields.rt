//! A number and a text in OER.

use st_oer::{Cut, OerError, put_octets, put_var_uint};
use std::alloc::Allocator;

/// A number and a text as OER spells them, one after the other.
fn spelled<A: Allocator>(alloc: A, number: u64, text: &[u8]) -> Result<Vec<u8, A>, OerError> {
    let mut out = Vec::new(alloc);
    put_var_uint(&mut out, number)?;
    put_octets(&mut out, text)?;
    Ok(out)
}

/// The number and the text again, and what follows them.
fn read_back(bytes: &[u8]) -> Result<(u64, &[u8], &[u8]), OerError> {
    let mut cut = Cut::new(bytes);
    let number = cut.var_uint()?;
    let text = cut.octets()?;
    Ok((number, text, cut.rest()))
}

#[test]
fn fields_are_written_and_read(rt: HostRuntime) {
    let out = spelled(rt.alloc(), 256, b"hi").expect(&rt, "there is memory");
    sure!(&rt; out.as_slice() == b"\x02\x01\0\x02hi".as_slice());
    let want = (256, b"hi".as_slice(), b"!".as_slice());
    sure!(&rt; read_back(b"\x02\x01\0\x02hi!") == Ok(want));
}
