//! Two ends in memory.

use st_end::{EndConfig, EndError, EndState, Got, Keys, Moment, Role, StreamId};
use std::alloc::Global;

/// A client and a server that share a secret.
fn both_ends(
    alloc: Global,
    secret: [u8; 32],
    config: EndConfig,
) -> Result<(EndState<Global>, EndState<Global>), EndError> {
    let (ours, theirs) = (Keys::of(secret), Keys::of(secret));
    let client = EndState::new(alloc, Role::Client, ours, "test.a", "test.b", config)?;
    let server = EndState::new(alloc, Role::Server, theirs, "test.b", "test.a", config)?;
    Ok((client, server))
}

/// Sends the client's next Prepare to the server, and gives the answer to the client.
fn pass(
    client: &mut EndState<Global>,
    server: &mut EndState<Global>,
    iv: [u8; 12],
    now: Moment,
) -> Result<(), EndError> {
    let Some((flight, prepare)) = client.send(iv, now)? else {
        return Ok(());
    };
    let answer = server.receive(&prepare, now);
    if !client.is_open(&flight) {
        flight.abandon();
        return Ok(());
    }
    match answer {
        Ok(mut received) => {
            let _is_fulfilled = client.answer(flight, &mut received.bytes);
        }
        Err(_) => client.fault(flight),
    }
    Ok(())
}

/// Sends "hi" and ten units, and closes the stream: what the server read, if it read the end too.
fn say_hi(
    client: &mut EndState<Global>,
    server: &mut EndState<Global>,
    now: Moment,
) -> Result<Option<Vec<u8>>, EndError> {
    let stream = client.open_stream()?;
    server.set_receive_max(stream, 10)?;
    client.write(stream, b"hi")?;
    client.offer(stream, 10)?;
    client.close(stream)?;
    pass(client, server, [0; 12], now)?;
    pass(client, server, [1; 12], now)?;
    let Got::Bytes(bytes) = server.read(stream, 100)? else {
        return Ok(None);
    };
    let is_over = matches!(server.read(stream, 100)?, Got::End);
    Ok(is_over.then_some(bytes))
}

#[test]
fn two_ends_talk(rt: HostRuntime) {
    let config = EndConfig::new(16, 100, 1_000).expect(&rt, "it is allowed");
    let now = Moment::new(0).expect(&rt, "it is not below 0");
    let (mut client, mut server) = both_ends(rt.alloc(), [7; 32], config).expect(&rt, "memory");
    let read = say_hi(&mut client, &mut server, now).expect(&rt, "memory");
    sure!(&rt; read.is_some_and(|bytes| bytes.as_slice() == b"hi".as_slice()));
    sure!(&rt; client.totals().paid == 10);
    sure!(&rt; server.totals().credited == 10);
    sure!(&rt; client.settled(StreamId::FIRST));
    drop(client);
    drop(server);
}
