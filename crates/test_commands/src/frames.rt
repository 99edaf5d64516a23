//! The command `frames` over reads of every size.

use crate::devices::answer_by;
use std::alloc::Global;
use std::process::Abort;

/// The digits of a packet's front: version 1, kind 12, sequence 1, amount 0, one frame.
const FRONT: &str = "010c010101000101";

/// Whether this is written for an input, and no fault is reported, with reads of at most `piece` bytes: the status is 1 if it
/// reports a refused line.
fn is_answered_by(alloc: Global, input: &str, text: &str, piece: usize) -> bool {
    let status = u8::from(text.contains("refused"));
    answer_by(alloc, alloc, input, piece).is(text, "", status)
}

/// The bytes 0 to n - 1 at 0 of streams 1 and 2, in a line that ends with a carriage return and a newline and in one that the
/// end of the input ends, and a line of other characters between them; and what is written for them.
fn straddling(rt: &impl Abort, alloc: Global, n: u8) -> (String, String) {
    let mut run = String::new(alloc);
    for byte in 0..n {
        let digits = format!(in alloc; "{byte:02x}").expect(rt, "memory");
        sure!(rt; run.push_str(&digits).is_ok());
    }
    let frame = u16::from(n) + 5;
    let input = format!(in alloc;
        "{FRONT}14{frame:02x}01010100{n:02x}{run}\r\n0g0\r\n\n{FRONT}14{frame:02x}01020100{n:02x}{run}"
    ).expect(rt, "memory");
    let shown = if n == 0 { "-" } else { run.as_str() };
    let text = format!(in alloc;
        "line 2 refused 95\nstream 1 {n} {shown}\nstream 2 {n} {shown}\n"
    ).expect(rt, "memory");
    (input, text)
}

/// Packets are given in reads of every size, so that a read ends at each place of their lines.
#[test]
fn packets_straddle_reads(rt: HostRuntime) {
    let alloc = rt.alloc();
    for n in [2, 20] {
        let (input, text) = straddling(&rt, alloc, n);
        for piece in 1..=input.len() {
            sure!(&rt; is_answered_by(alloc, &input, &text, piece), piece as u64);
        }
    }
}
