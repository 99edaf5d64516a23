//! Handles of any kind.

ghost use Rattle.std.specs.Prelude.{◌≡◌, ◌⊎◌, ◌≤◌, length, is_none, Some, None};
ghost use Rattle.host_objects.specs.Codes.{done};
ghost use Rattle.ilpstream_c.specs.Handles.{Copies, PutsOut};

use host_objects::{DONE, Handle, MISUSE, Object, ROOM};
use std::alloc::Global;

/// Whether a handle is empty.
pub(crate) fn is_empty(alloc: Global, handle: &mut Handle) -> bool
    ensures answer { result ≡ is_none handle.old.state }
    ensures same { handle.new.state ≡ handle.old.state }
{
    match handle.take(alloc) {
        None => true,
        Some(object) => {
            handle.put(object);
            false
        }
    }
}

/// Puts a new object into an empty handle, if there is memory for it.
pub(crate) fn put_new(alloc: Global, handle: &mut Handle, object: Object, no_memory: u32) -> u32
    requires { handle.old.state ≡ None }
    ensures { ((result ≡ done) × (handle.new.state ≡ Some object)) ⊎ ((result ≡ no_memory) × (handle.new.state ≡ None)) }
{
    match Box::new(alloc, object) {
        Ok(object) => {
            handle.put(object);
            DONE
        }
        Err(_) => no_memory,
    }
}

/// Copies bytes to the front of a buffer, if it has room for them, and sets `len` to their number.
pub(crate) fn copy_out(bytes: &[u8], out: &mut [u8], len: &mut usize) -> u32
    ensures { Copies bytes.now out.old out.new result len.new }
{
    let n = bytes.len();
    *len = n;
    if out.len() < n {
        return ROOM;
    }
    out[..n].copy_from_slice(bytes);
    DONE
}

/// Frees the handle's object, and leaves the handle empty.
#[unsafe(no_mangle)]
pub extern "C" fn ilp_free(alloc: Global, handle: &mut Handle)
    ensures { handle.new.state ≡ None }
{
    if let Some(object) = handle.take(alloc) {
        drop(object);
    }
}

/// Copies the bytes that the last call output to the front of a buffer; `len` is how many they are. `ROOM` if the
/// buffer has fewer: then nothing is copied.
#[unsafe(no_mangle)]
pub extern "C" fn ilp_output(
    alloc: Global,
    handle: &mut Handle,
    out: &mut [u8],
    len: &mut usize,
) -> u32
    ensures { PutsOut handle.old.state handle.new.state out.old out.new result len.new }
{
    let Some(object) = handle.take(alloc) else {
        return MISUSE;
    };
    let code = copy_out(object.output(), out, len);
    handle.put(object);
    code
}
