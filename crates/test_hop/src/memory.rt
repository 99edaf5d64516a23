//! A hop that is served while memory is refused.
ghost use Rattle.std.specs.Prelude.{◌≡◌};

use crate::desks::{FULFILL, Neighbour, PREPARE, T00, T01, new_hop, shares_of, stopped_clock};
use st_hop::{HopError, HopState};
use st_hop_desk::{AccountShares, DeskError, HopDesk, NoBooks, Served, serve};
use std::alloc::{Allocator, Global};
use std::marker::Brand;
use std::process::Abort;
use std::sync::ledger::{Blank, Ledger};
use std::sync::{Mutex, Wait};
use std::test::Fail;
use test_refusing::Refusing;

/// How a Prepare was answered.
#[derive(Clone, Copy, Debug, PartialEq, Eq)]
enum Told {
    Fulfilled,
    NoAnswerCame,
    NoMemory,
    /// There was no memory for an answer.
    Refused,
}

/// A neighbour that fulfills.
fn neighbour(heap: &Refusing<Global>) -> Neighbour<'static, &Refusing<Global>> {
    Neighbour {
        alloc: heap,
        answer: Some(FULFILL.as_slice()),
        asked: 0,
    }
}

/// How this answers.
fn told_by<A: Allocator + Copy>(rt: &impl Abort, served: Result<Served<A>, DeskError>) -> Told {
    match served.map(|served| served.answer) {
        Err(e) => {
            assert!(rt; e.number() == 75);
            Told::Refused
        }
        Ok(None) => panic!(rt; "no answer"),
        Ok(Some(bytes)) if bytes.as_slice() == FULFILL.as_slice() => Told::Fulfilled,
        Ok(Some(bytes)) if bytes.as_slice() == T01.as_slice() => Told::NoAnswerCame,
        Ok(Some(bytes)) => {
            assert!(rt; bytes.as_slice() == T00.as_slice());
            Told::NoMemory
        }
    }
}

/// Whether nothing is reserved, and this much is owed.
fn is_booked<C: Ledger, D: Ledger, A: Allocator + Copy>(
    desk: &HopDesk<C, D, A>,
    amount: u64,
) -> bool {
    let hop = desk.hop();
    hop.held(0) == Ok(0) && hop.claims(0) == Ok(amount) && hop.dues(1) == Ok(amount)
}

/// How a thread is answered over these links.
fn ask<C: Ledger, D: Ledger, A: Allocator + Copy, R: Wait + Abort>(
    rt: &R,
    desk: &Mutex<HopDesk<C, D, A>>,
    shares: &Mutex<AccountShares<C, D>>,
    links: &mut Vec<Neighbour<'_, A>, A>,
) -> Told {
    let mut clock = stopped_clock(rt);
    told_by(
        rt,
        serve(
            rt,
            desk,
            shares,
            0,
            PREPARE,
            links,
            &mut NoBooks,
            &mut clock,
        ),
    )
}

/// How a thread was answered. Nothing is reserved afterwards, and what is owed was fulfilled.
fn served<C: Ledger, D: Ledger, A: Allocator + Copy, R: Wait + Abort>(
    rt: &R,
    alloc: A,
    hop: HopState<A>,
    claims: Blank,
    dues: Blank,
    links: &mut Vec<Neighbour<'_, A>, A>,
) -> Told
    requires claims { (claims.name ≡ C.name) × (claims.parts ≡ C.parts) × (claims.parts ≡ 64) }
    requires dues { (dues.name ≡ D.name) × (dues.parts ≡ D.parts) × (dues.parts ≡ 64) }
{
    let mut desk = HopDesk::<C, D, A>::new(alloc, hop, claims, dues);
    let shares = Mutex::new(shares_of(rt, &mut desk));
    let desk = Mutex::new(desk);
    let told = ask(rt, &desk, &shares, links);
    let amount = if told == Told::Fulfilled { 5 } else { 0 };
    let desk = desk.into_inner();
    assert!(rt; is_booked(&desk, amount));
    told
}

/// How a thread was answered, if its request number n is refused, or that and each later one.
fn run(
    rt: &(impl Wait + Abort),
    heap: &Refusing<Global>,
    n: u64,
    refuses_all: bool,
) -> Result<Told, HopError> {
    heap.refuse_none();
    let hop = new_hop(heap)?;
    let both = [neighbour(heap), neighbour(heap)];
    let mut links = Vec::from_array(heap, both).expect(rt, "memory");
    if refuses_all {
        heap.refuse_from(n);
    } else {
        heap.refuse_only(n);
    }
    let told = served::<Brand, Brand, &Refusing<Global>, _>(
        rt,
        heap,
        hop,
        Blank::new(64),
        Blank::new(64),
        &mut links,
    );
    Ok(told)
}

/// Each request is refused in turn, or it and each later one: the first ones on arrival, with the answer `first`, and the
/// last at the neighbour. It returns the number of the run that met no refusal.
fn refuse_each(
    rt: &(impl Wait + Abort),
    heap: &Refusing<Global>,
    refuses_all: bool,
    first: Told,
) -> Result<u64, HopError> {
    let mut before = first;
    for n in 1..1000u64 {
        let told = run(rt, heap, n, refuses_all)?;
        if !heap.has_refused() {
            assert!(rt; (before, told) == (Told::NoAnswerCame, Told::Fulfilled));
            return Ok(n);
        }
        assert!(rt; before == first, "at {n}");
        before = told;
    }
    panic!(rt; "no run met no refusal");
}

/// Each request is refused in turn. On arrival the Prepare is answered with T00, at the neighbour with T01.
#[test]
fn a_refused_request_is_answered(rt: HostRuntime) -> Result<(), Fail> {
    let heap: Refusing<Global> = Refusing::new(rt.alloc());
    let runs = refuse_each(&rt, &heap, false, Told::NoMemory)?;
    assert!(rt; 3 < runs);
    Ok(())
}

/// If there is no memory for T00 either, there is no answer.
#[test]
fn no_memory_is_refused(rt: HostRuntime) -> Result<(), Fail> {
    let heap: Refusing<Global> = Refusing::new(rt.alloc());
    refuse_each(&rt, &heap, true, Told::Refused)?;
    Ok(())
}
