//! Calls on the keys of a connection (RFC 0029).

ghost use Rattle.std.specs.Prelude.{◌≡◌, length};
ghost use Rattle.st_keys.specs.Keys as keys;
ghost use Rattle.ilpstream_c.specs.Keys.{OnKeys, AreKeysMade, Seals, Opens, Fulfills};

use crate::handle::{is_empty, put_new};
use host_objects::{DONE, Handle, HostKeys, MISUSE, Object};
use st_keys::KeyError;
use std::alloc::Global;

/// What is done with the keys of a handle. A handle of anything else is refused.
macro_rules! on_keys {
    ($alloc:ident, $handle:ident, $keys:ident => $body:expr) => {{
        let Some(mut object) = $handle.take($alloc) else {
            return MISUSE;
        };
        let code = match &mut *object {
            Object::Keys($keys) => $body,
            _ => MISUSE,
        };
        $handle.put(object);
        code
    }};
}

/// Makes the keys of a connection in an empty handle, from its shared secret (RFC 0029).
///
/// `MISUSE` if the handle is not empty; 33 if memory is refused.
#[unsafe(no_mangle)]
pub extern "C" fn ilp_keys_new(alloc: Global, handle: &mut Handle, secret: &[u8; 32]) -> u32
    ensures { AreKeysMade secret.now handle.old.state handle.new.state result }
{
    if !is_empty(alloc, handle) {
        return MISUSE;
    }
    let no_memory = u32::from(KeyError::NoMemory.number());
    let keys = HostKeys::new(alloc, *secret);
    put_new(alloc, handle, Object::Keys(keys), no_memory)
}

/// Outputs the payload of a plain text: the IV, the tag and the ciphertext. `len` is how many bytes it has. No two payloads
/// of a connection may have the same IV. 33 if memory is refused.
#[unsafe(no_mangle)]
pub extern "C" fn ilp_keys_seal(
    alloc: Global,
    handle: &mut Handle,
    iv: &[u8; 12],
    text: &[u8],
    len: &mut usize,
) -> u32
    ensures { OnKeys handle.old.state handle.new.state result (λ old new. Seals old new iv.now text.now result len.new) }
{
    on_keys!(alloc, handle, keys => match keys.seal(alloc, *iv, text) {
        Ok(()) => {
            *len = keys.output.len();
            DONE
        }
        Err(error) => u32::from(error.number()),
    })
}

/// Outputs the plain text of a payload. `len` is how many bytes it has. 30 if the payload has fewer than 28 bytes; 31 if its
/// tag does not match its ciphertext; 33 if memory is refused.
#[unsafe(no_mangle)]
pub extern "C" fn ilp_keys_open(
    alloc: Global,
    handle: &mut Handle,
    payload: &[u8],
    len: &mut usize,
) -> u32
    ensures { OnKeys handle.old.state handle.new.state result (λ old new. Opens old new payload.now result len.new) }
{
    on_keys!(alloc, handle, keys => match keys.open(alloc, payload) {
        Ok(()) => {
            *len = keys.output.len();
            DONE
        }
        Err(error) => u32::from(error.number()),
    })
}

/// Gives the fulfillment of a Prepare whose data is this payload (RFC 0029).
#[unsafe(no_mangle)]
pub extern "C" fn ilp_keys_fulfillment(
    alloc: Global,
    handle: &mut Handle,
    payload: &[u8],
    fulfillment: &mut [u8; 32],
) -> u32
    ensures { OnKeys handle.old.state handle.new.state result (λ old new. Fulfills old new payload.now result fulfillment.new) }
{
    on_keys!(alloc, handle, keys => {
        *fulfillment = keys.fulfillment(payload);
        DONE
    })
}

/// Gives the condition of a fulfillment: its SHA-256 digest (RFC 0027).
#[unsafe(no_mangle)]
pub extern "C" fn ilp_condition(fulfillment: &[u8; 32], condition: &mut [u8; 32])
    ensures { condition.new ≡ keys.condition fulfillment.now }
{
    *condition = st_keys::condition(*fulfillment);
}
