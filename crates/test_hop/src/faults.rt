//! A link of which one exchange fails.
ghost use Rattle.std.specs.Prelude.{◌≡◌};

use crate::desks::{FULFILL, Neighbour, PREPARE, T01, gathered, new_hop, shares_of, stopped_clock};
use st_devices::Counted;
use st_hop::HopState;
use st_hop_desk::{AccountShares, HopDesk, NoBooks, Owed, serve};
use st_links::FailLink;
use std::alloc::Global;
use std::marker::Brand;
use std::process::Abort;
use std::sync::ledger::{Blank, Ledger};
use std::sync::{Mutex, Wait};
use std::test::Fail;

/// A neighbour that fulfills, over a link of which the exchange number `k` fails.
fn failing(alloc: Global, k: u64) -> FailLink<Neighbour<'static, Global>> {
    let neighbour = Neighbour {
        alloc,
        answer: Some(FULFILL.as_slice()),
        asked: 0,
    };
    FailLink::new(neighbour, k)
}

/// Three Prepares, of which the second finds the link failing.
fn serve_three<C: Ledger, D: Ledger, R: Wait + Abort>(
    rt: &R,
    desk: &Mutex<HopDesk<C, D, Global>>,
    shares: &Mutex<AccountShares<C, D>>,
    links: &mut Vec<FailLink<Neighbour<'static, Global>>>,
) {
    let mut clock = stopped_clock(rt);
    let wanted: [(&[u8], u64); 3] = [(FULFILL, 0), (T01, 1), (FULFILL, 1)];
    for (want, faults) in wanted {
        match serve(
            rt,
            desk,
            shares,
            0,
            PREPARE,
            links,
            &mut NoBooks,
            &mut clock,
        ) {
            Ok(told) => {
                let is_wanted = match told.answer {
                    Some(answer) => answer.as_slice() == want,
                    None => false,
                };
                assert!(rt; is_wanted);
            }
            Err(refused) => panic!(rt; "refused {}", refused.number()),
        }
        assert!(rt; links.get(1).map(|link| link.faults()) == Some(faults));
    }
}

/// The same over new links, of which only the second is asked.
fn serve_all<C: Ledger, D: Ledger, R: Wait + Abort>(
    rt: &R,
    alloc: Global,
    desk: &Mutex<HopDesk<C, D, Global>>,
    shares: &Mutex<AccountShares<C, D>>,
) {
    let both = [failing(alloc, 0), failing(alloc, 2)];
    let mut links = Vec::from_array(alloc, both).expect(rt, "memory");
    serve_three(rt, desk, shares, &mut links);
    let asked = links.pop().map(|link| link.into_inner().asked);
    assert!(rt; asked == Some(2));
    let unused = links.pop().map(|link| link.into_inner().asked);
    assert!(rt; unused == Some(0));
}

/// What is owed after three Prepares, of which the second finds the link failing.
fn second_fails<C: Ledger, D: Ledger, R: Wait + Abort>(
    rt: &R,
    alloc: Global,
    hop: HopState<Global>,
    claims: Blank,
    dues: Blank,
) -> Owed
    requires claims { (claims.name ≡ C.name) × (claims.parts ≡ C.parts) × (claims.parts ≡ 64) }
    requires dues { (dues.name ≡ D.name) × (dues.parts ≡ D.parts) × (dues.parts ≡ 64) }
{
    let mut desk = HopDesk::<C, D, Global>::new(alloc, hop, claims, dues);
    let shares = Mutex::new(shares_of(rt, &mut desk));
    let desk = Mutex::new(desk);
    serve_all(rt, alloc, &desk, &shares);
    gathered(rt, alloc, &mut desk.into_inner(), shares.into_inner())
}

#[test]
fn one_exchange_fails_alone(rt: HostRuntime) -> Result<(), Fail> {
    let alloc = rt.alloc();
    let owed = second_fails::<Brand, Brand, _>(
        &rt,
        alloc,
        new_hop(alloc)?,
        Blank::new(64),
        Blank::new(64),
    );
    assert!(rt; (owed.claims, owed.dues) == (10, 10));
    Ok(())
}
