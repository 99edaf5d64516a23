//! A response that arrives in chunks.

use st_http::{HttpError, Reading};
use std::alloc::Global;

/// The body of a response 200 whose bytes arrive in chunks, if they are a whole one.
fn body_of(global: Global, pieces: &[&[u8]]) -> Result<Option<Vec<u8>>, HttpError> {
    let mut reading = Reading::response(global, global);
    for piece in pieces {
        reading.feed(piece)?;
    }
    Ok(reading.into_body())
}

#[test]
fn a_response_comes_in_pieces(rt: HostRuntime) -> Result<(), std::test::Fail> {
    let pieces = [
        b"HTTP/1.1 200 OK\r\nContent-".as_slice(),
        b"Length: 2\r\n\r\no".as_slice(),
        b"k".as_slice(),
    ];
    let body = body_of(rt.alloc(), &pieces)?;
    sure!(&rt; body.is_some_and(|body| body.as_slice() == b"ok".as_slice()));
    sure!(&rt; body_of(rt.alloc(), &pieces[..2])?.is_none());
    Ok(())
}
