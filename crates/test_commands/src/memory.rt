//! The command `frames` under refused memory.

use crate::devices::{STORED, STORED_TEXT, Told, answer_to};
use std::alloc::Global;
use std::process::Abort;
use test_refusing::Refusing;

/// Three packets of two frames each: "cd" at 2 and "ef" at 4 of stream 1; "ab" at 0 of it and "xy" at 0 of stream 2; "gh"
/// at 6 of stream 1 and "zz" at 2 of stream 2.
const PAIRS: &str = "010c010101000102140701010102026364140701010104026566
010c010201000102140701010100026162140701020100027879
010c010301000102140701010106026768140701020102027a7a
";

/// What is written of `STORED`, and the fault that is reported, if one request is refused. Its packets have one frame
/// each, and the first of them that is accepted opens the stream: the others allocate nothing. Or the run ends with a
/// fault.
const STORED_REFUSED: [(&str, &str); 2] = [
    ("line 1 refused 42\nstream 1 2 6162\n", ""),
    ("", "fault 99\n"),
];

/// The same of `PAIRS`: a line is refused whole, and the others have their effect; the fault is before the first
/// stream is written, or between the two.
const PAIRS_REFUSED: [(&str, &str); 5] = [
    (
        "line 1 refused 42\nstream 1 2 6162\nstream 2 4 78797a7a\n",
        "",
    ),
    ("line 2 refused 42\nstream 1 0 -\nstream 2 0 -\n", ""),
    (
        "line 3 refused 42\nstream 1 6 616263646566\nstream 2 2 7879\n",
        "",
    ),
    ("", "fault 99\n"),
    ("stream 1 8 6162636465666768\n", "fault 99\n"),
];

const PAIRS_TEXT: &str = "stream 1 8 6162636465666768\nstream 2 4 78797a7a\n";

/// Notes that this was written and reported: returns whether it is one of the permitted answers.
fn note(came: &mut [bool], refused: &[(&str, &str)], told: &Told) -> bool {
    let mut is_one = false;
    for k in 0..refused.len() {
        if told.is(refused[k].0, refused[k].1, 1)
            && let Some(seen) = came.get_mut(k)
        {
            *seen = true;
            is_one = true;
        }
    }
    is_one
}

/// A run whose request `n` is refused: whether there was one. The answer is one of these, and with memory back the same
/// input is answered.
fn meets(
    rt: &impl Abort,
    heap: &Refusing<Global>,
    alloc: Global,
    inputs: (&str, &str),
    refused: &[(&str, &str)],
    came: &mut [bool],
    n: u64,
) -> bool {
    let (input, text) = inputs;
    heap.refuse_only(n);
    let told = answer_to(heap, alloc, input);
    let met = heap.has_refused();
    heap.refuse_none();
    if met {
        sure!(rt; note(came, refused, &told), n);
        sure!(rt; answer_to(heap, alloc, input).is(text, "", 0), n);
    } else {
        sure!(rt; told.is(text, "", 0));
    }
    met
}

/// Each request of a run is refused in turn. Each of these answers is seen, and no other.
fn refuses_each_request(
    rt: &impl Abort,
    alloc: Global,
    inputs: (&str, &str),
    refused: &[(&str, &str)],
) {
    let heap: Refusing<Global> = Refusing::new(alloc);
    let mut came = vec![in alloc; false; refused.len()].expect(rt, "memory");
    for n in 1..1000u64 {
        if !meets(rt, &heap, alloc, inputs, refused, &mut came, n) {
            sure!(rt; came.iter().all(|c| *c));
            return;
        }
    }
    panic!(rt; "no run met no refusal");
}

#[test]
fn one_request_is_refused(rt: HostRuntime) {
    refuses_each_request(&rt, rt.alloc(), (STORED, STORED_TEXT), &STORED_REFUSED);
    refuses_each_request(&rt, rt.alloc(), (PAIRS, PAIRS_TEXT), &PAIRS_REFUSED);
}

/// How many requests a run over this input makes.
fn requests_for(alloc: Global, input: &str) -> u64 {
    let heap: Refusing<Global> = Refusing::new(alloc);
    answer_to(&heap, alloc, input);
    heap.asked()
}

/// A packet of one frame on a stream that was named asks for no more than one whose frame is of an unknown type: "ab" at 0,
/// then "cd" at 3.
#[test]
fn a_frame_alone_copies_nothing(rt: HostRuntime) {
    let alloc = rt.alloc();
    let named = "010c010101000101140701010100026162\n010c010201000101140701010103026364\n";
    let unknown = "010c010101000101140701010100026162\n010c010201000101990701010103026364\n";
    sure!(&rt; requests_for(alloc, named) == requests_for(alloc, unknown));
}

/// From a request on there is no memory: the fault is reported, which needs none.
#[test]
fn each_later_request_is_refused(rt: HostRuntime) {
    let heap: Refusing<Global> = Refusing::new(rt.alloc());
    for n in 1..1000u64 {
        heap.refuse_from(n);
        let told = answer_to(&heap, rt.alloc(), STORED);
        if !heap.has_refused() {
            sure!(&rt; told.is(STORED_TEXT, "", 0));
            sure!(&rt; 9 < n);
            return;
        }
        sure!(&rt; told.is("", "fault 99\n", 1), n);
    }
    panic!(rt; "no run met no refusal");
}

/// A line that is too long is not kept whole: one of a million digits asks as often as one that is just too long.
#[test]
fn a_longer_line_asks_for_no_more(rt: HostRuntime) {
    let alloc = rt.alloc();
    let heap: Refusing<Global> = Refusing::new(alloc);
    let line = "0".repeat(alloc, 65_480).expect(&rt, "memory");
    let longer = "0".repeat(alloc, 1_000_000).expect(&rt, "memory");
    sure!(&rt; answer_to(&heap, alloc, &line).text() == "line 1 refused 24\n");
    let asked = heap.asked();
    heap.refuse_none();
    sure!(&rt; answer_to(&heap, alloc, &longer).text() == "line 1 refused 24\n");
    sure!(&rt; heap.asked() == asked);
}
