//! A connector's table.

use ilpstream_settings::{TableError, WholeFault, WholeRule, read_table, whole_fault};
use std::alloc::Global;
use test_refusing::Refusing;

/// Three accounts, one of them with a name, and three routes, with an empty line, a line of a space, and a line that ends
/// by CR LF.
const TABLE: &str = "account NAME=alice 1000 100 alice 127.0.0.1:7771 hub

account  9223372036854775807 0 bob - -\r
route example 0
 \nroute example.bob 1 3 2
account 5 5 carol [::1]:1 x
route example.carol 2 1 1";

/// Each request for memory is refused in turn, from the first until a run meets no refusal. A refused one is reported as out
/// of memory, or was for room that is not needed yet; it is never a bad line.
#[test]
fn each_request_is_refused(rt: HostRuntime) {
    let heap: Refusing<Global> = Refusing::new(rt.alloc());
    let mut last = 0;
    for n in 1..=64u64 {
        heap.refuse_only(n);
        match read_table(&heap, TABLE) {
            Ok(table) => sure!(&rt; table.accounts.len() == 3 && table.routes.len() == 3, n),
            Err(error) => {
                sure!(&rt; error == TableError::NoMemory && heap.has_refused(), n);
                last = n;
            }
        }
    }
    sure!(&rt; 0 < last && !heap.has_refused());
}

/// Two accounts, and after an empty line a route whose account is not there.
const NO_ACCOUNT: &[u8] = b"account 1000 100 alice - -
account NAME=b 5 5 bob - -

route example 0
route example.b 2";

/// The line and the rule of a table whose last route has no account. Each request for memory is refused in turn: none makes
/// another line or rule of it.
#[test]
fn a_route_to_no_account_has_its_line(rt: HostRuntime) {
    let heap: Refusing<Global> = Refusing::new(rt.alloc());
    let found = WholeFault {
        line: 5,
        fault: WholeRule::NoAccount,
    };
    let mut last = 0;
    for n in 1..=64u64 {
        heap.refuse_only(n);
        match whole_fault(&heap, NO_ACCOUNT) {
            Ok(fault) => sure!(&rt; fault == Some(found), n),
            Err(_) => {
                sure!(&rt; heap.has_refused(), n);
                last = n;
            }
        }
    }
    sure!(&rt; 0 < last && !heap.has_refused());
}
