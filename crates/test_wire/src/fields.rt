//! Fields that are appended while memory is refused.

use st_oer::{OerError, put_length, put_octets, put_u8, put_u64, put_var_uint};
use std::alloc::Global;
use std::process::Abort;
use test_refusing::Refusing;

type Heap = Refusing<Global>;

/// The number of the last request that is refused in turn. No call that is tried up to it makes as many.
const LAST: u64 = 19;

/// A field to be appended.
#[derive(Clone, Copy)]
enum Field<'a> {
    U8(u8),
    U64(u64),
    VarUint(u64),
    Length(u64),
    Octets(&'a [u8]),
}

fn put(out: &mut Vec<u8, &Heap>, field: Field<'_>) -> Result<(), OerError> {
    match field {
        Field::U8(x) => put_u8(out, x),
        Field::U64(x) => put_u64(out, x),
        Field::VarUint(x) => put_var_uint(out, x),
        Field::Length(x) => put_length(out, x),
        Field::Octets(bytes) => put_octets(out, bytes),
    }
}

/// Appends a field while the request `n` is refused: whether it was. If so the vector has its length, and the same call then
/// succeeds.
fn meets(rt: &impl Abort, heap: &Heap, out: &mut Vec<u8, &Heap>, field: Field<'_>, n: u64) -> bool {
    let length = out.len();
    heap.refuse_only(n);
    let answer = put(out, field);
    let met = heap.has_refused();
    heap.refuse_none();
    if met {
        sure!(rt; answer == Err(OerError::NoMemory), n);
        sure!(rt; out.len() == length, n);
        sure!(rt; put(out, field) == Ok(()), n);
    } else {
        sure!(rt; answer == Ok(()), n);
    }
    met
}

/// The same after the bytes `front`; then the vector has the bytes `want`.
fn refuse(
    rt: &impl Abort,
    heap: &Heap,
    front: &[u8],
    field: Field<'_>,
    want: &[u8],
    n: u64,
) -> bool {
    let mut out = front.to_vec(heap).expect(rt, "there is memory");
    let met = meets(rt, heap, &mut out, field, n);
    sure!(rt; out.as_slice() == want, n);
    met
}

/// Each request is refused in turn: the last that was made.
fn refuse_each(rt: &impl Abort, front: &[u8], field: Field<'_>, want: &[u8], heap: &Heap) -> u64 {
    let mut most = 0;
    for n in 1..=LAST {
        if refuse(rt, heap, front, field, want, n) {
            most = n;
        }
    }
    most
}

fn rows() -> [(Field<'static>, &'static [u8]); 13] {
    [
        (Field::U8(7), b"ab\x07"),
        (Field::U64(258), b"ab\0\0\0\0\0\0\x01\x02"),
        (Field::VarUint(0), b"ab\x01\0"),
        (Field::VarUint(127), b"ab\x01\x7f"),
        (Field::VarUint(128), b"ab\x01\x80"),
        (Field::VarUint(258), b"ab\x02\x01\x02"),
        (
            Field::VarUint(u64::MAX),
            b"ab\x08\xff\xff\xff\xff\xff\xff\xff\xff",
        ),
        (Field::Length(127), b"ab\x7f"),
        (Field::Length(128), b"ab\x81\x80"),
        (Field::Length(258), b"ab\x82\x01\x02"),
        (Field::Length(65_478), b"ab\x82\xff\xc6"),
        (Field::Octets(b"hello"), b"ab\x05hello"),
        (Field::Octets(b""), b"ab\0"),
    ]
}

/// The vector is as before, and the same call then succeeds.
#[test]
fn a_field_is_appended_or_not(rt: HostRuntime) {
    let heap: Heap = Refusing::new(rt.alloc());
    for (field, bytes) in rows() {
        let most = refuse_each(&rt, b"ab", field, bytes, &heap);
        sure!(&rt; 0 < most && most < LAST);
    }
}

/// The bytes of a field longer than the room that its length left: whichever request is refused, none of it stays.
#[test]
fn long_octets_are_appended_or_not(rt: HostRuntime) {
    let mut want = [0xab; 303];
    want[..3].copy_from_slice(b"\x82\x01\x2c");
    let heap: Heap = Refusing::new(rt.alloc());
    let most = refuse_each(&rt, b"", Field::Octets(&[0xab; 300]), &want, &heap);
    sure!(&rt; 1 < most && most < LAST);
}
