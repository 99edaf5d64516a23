//! The start of a world: a chain in which nothing has happened.

ghost use Rattle.std.specs.Prelude.{◌≡◌, ◌<◌, ◌≤◌, ◌+◌, true, replicate, length, map, IfOk, IsOkUnless, IsErrOf, MatchBool, nat_le, ◌&&◌};
ghost use Rattle.std.specs.List.{list_all};
ghost use Rattle.st_hop.specs.Table.{is_account};
ghost use Rattle.st_keys.specs.Keys.{keys_of};
ghost use Rattle.st_end.specs.State.{new_end};
ghost use Rattle.st_world_parts.specs.State.{empty_link};
ghost use Rattle.st_world_parts.specs.State.{new_party};
ghost use Rattle.st_world.specs.Runs.{new_node, is_chain, opening};
ghost use Rattle.st_world.specs.Left.{left_of};
ghost use Rattle.st_world.specs.Chains.{hop_name, turned_over, table_of, tables_from, chain_of, one_to_one, free_account, client_name, server_name};

use crate::fault::Fault;
use crate::trace::Trace;
use crate::world::World;
use st_end::{EndError, Role};
use st_hop::{Account, HopError, Route};
use st_keys::Keys;
use st_oer::Rate;
use st_sender::EndConfig;
use st_world_parts::{Link, Node, Party, StreamLogs};
use std::alloc::{AllocError, Allocator};

/// The greatest number of hops of a chain: 8.
pub const MAX_HOPS: usize = 8;

/// What both ends know.
const SECRET: [u8; 32] = [0; 32];

/// The client's address and the server's.
const CLIENT: &str = "test.a";

const SERVER: &str = "test.b";

/// The greatest limit of an account, in units.
const MAX_LIMIT: u64 = (1 << 63) - 1;

/// An account whose limits are not reached.
const FREE: Account = Account {
    limit: MAX_LIMIT,
    max_packet: MAX_LIMIT,
};

/// The address of a hop of a chain, the first being 0.
fn hop_name(place: usize) -> &'static str
    requires { place < 8 }
    ensures { result.now ≡ hop_name (place + 1) }
{
    match place {
        0 => "test.h1",
        1 => "test.h2",
        2 => "test.h3",
        3 => "test.h4",
        4 => "test.h5",
        5 => "test.h6",
        6 => "test.h7",
        _ => "test.h8",
    }
}

/// The rate the other way.
fn turned_over(rate: Rate) -> Rate
    ensures { result ≡ turned_over rate }
{
    Rate::new(rate.den(), rate.num()).unwrap()
}

/// Whether no limit is too high.
fn are_accounts(terms: &[(Account, Rate)]) -> bool
    ensures { result ≡ list_all (λ t. is_account t.0) terms.now }
{
    for (account, _) in terms {
        if account.limit > MAX_LIMIT {
            return false;
        }
    }
    true
}

/// Whether a chain can be made of hops with these terms: there are at most eight, and no limit is too high.
fn are_lawful(terms: &[(Account, Rate)]) -> bool
    ensures { result ≡ (nat_le (length terms.now) 8 && list_all (λ t. is_account t.0) terms.now) }
{
    terms.len() <= MAX_HOPS && are_accounts(terms)
}

/// The hop of a chain at this place, the first being 0.
fn hop_of<A: Allocator + Copy>(
    alloc: A,
    place: usize,
    account: Account,
    rate: Rate,
) -> Result<Node<A>, AllocError>
    requires place { place < 8 }
    requires account { is_account account ≡ true }
    ensures { IfOk result (λ n. n ≡ new_node (table_of (place + 1) (account, rate))) }
{
    let routes = [
        Route {
            prefix: CLIENT,
            account: 0,
            rate: turned_over(rate),
        },
        Route {
            prefix: SERVER,
            account: 1,
            rate,
        },
    ];
    match Node::new(alloc, hop_name(place), account, &routes) {
        Ok(node) => Ok(node),
        Err(_) => Err(AllocError),
    }
}

/// The hops of a chain.
fn hops_of<A: Allocator + Copy>(
    alloc: A,
    terms: &[(Account, Rate)],
) -> Result<Vec<Node<A>, A>, AllocError>
    requires few { length terms.now ≤ 8 }
    requires lawful { list_all (λ t. is_account t.0) terms.now ≡ true }
    ensures { IfOk result (λ ns. ns.items ≡ map new_node (tables_from 1 terms.now)) }
{
    let mut hops = Vec::with_capacity(alloc, terms.len())?;
    for (place, (account, rate)) in terms.iter().enumerate() {
        hops.push(hop_of(alloc, place, *account, *rate)?)?;
    }
    Ok(hops)
}

/// `count` empty links.
fn links_of<A: Allocator + Copy>(alloc: A, count: usize) -> Result<Vec<Link<A>, A>, AllocError>
    ensures { IfOk result (λ ls. ls.items ≡ replicate count empty_link) }
{
    let mut links = Vec::with_capacity(alloc, count)?;
    for link in 0..count {
        links.push(Link::new(alloc))?;
    }
    Ok(links)
}

/// The client of a chain in which nothing has happened.
fn client_of<A: Allocator + Copy>(alloc: A, config: EndConfig) -> Result<Party<A>, AllocError>
    ensures { IfOk result (λ p. p ≡ new_party (new_end Role.Client (keys_of (replicate 32 0)) client_name server_name config)) }
{
    match Party::new(
        alloc,
        Role::Client,
        Keys::of(SECRET),
        CLIENT,
        SERVER,
        config,
    ) {
        Ok(party) => Ok(party),
        Err(_) => Err(AllocError),
    }
}

/// The server of a chain in which nothing has happened.
fn server_of<A: Allocator + Copy>(alloc: A, config: EndConfig) -> Result<Party<A>, AllocError>
    ensures { IfOk result (λ p. p ≡ new_party (new_end Role.Server (keys_of (replicate 32 0)) server_name client_name config)) }
{
    match Party::new(
        alloc,
        Role::Server,
        Keys::of(SECRET),
        SERVER,
        CLIENT,
        config,
    ) {
        Ok(party) => Ok(party),
        Err(_) => Err(AllocError),
    }
}

/// Both ends of a chain in which nothing has happened: the client and the server.
fn ends_of<A: Allocator + Copy>(
    alloc: A,
    config: EndConfig,
) -> Result<(Party<A>, Party<A>), AllocError>
    ensures { IfOk result (λ ps. (ps.0 ≡ new_party (new_end Role.Client (keys_of (replicate 32 0)) client_name server_name config))
        × (ps.1 ≡ new_party (new_end Role.Server (keys_of (replicate 32 0)) server_name client_name config))) }
{
    let client = client_of(alloc, config)?;
    let server = server_of(alloc, config)?;
    Ok((client, server))
}

/// The result of a chain in which nothing has happened.
fn nothing_left<A: Allocator + Copy>(
    alloc: A,
    terms: &[(Account, Rate)],
    config: EndConfig,
) -> Result<Trace<A>, AllocError>
    requires few { length terms.now ≤ 8 }
    requires lawful { list_all (λ t. is_account t.0) terms.now ≡ true }
    ensures { IfOk result (λ t. t ≡ left_of (opening (chain_of terms.now config))) }
{
    let from_client = StreamLogs::new(alloc)?;
    let from_server = StreamLogs::new(alloc)?;
    let nodes = hops_of(alloc, terms)?;
    let (client, server) = ends_of(alloc, config)?;
    Ok(Trace {
        client,
        server,
        nodes,
        from_client,
        from_server,
        refused: false,
        alloc,
    })
}

/// The opening of a chain that can be made.
fn open<A: Allocator + Copy>(
    alloc: A,
    terms: &[(Account, Rate)],
    config: EndConfig,
) -> Result<World<A>, AllocError>
    requires few { length terms.now ≤ 8 }
    requires lawful { list_all (λ t. is_account t.0) terms.now ≡ true }
    ensures { IfOk result (λ w. w ≡ opening (chain_of terms.now config)) }
{
    let links = links_of(alloc, terms.len() + 1)?;
    let trace = nothing_left(alloc, terms, config)?;
    Ok(World { trace, links })
}

impl<A: Allocator + Copy> World<A> {
    /// A world of the client `test.a`, the server `test.b` and `hops` hops between them, `test.h1` and on. The hops
    /// forward amounts unchanged, and their limits are not reached. The shared secret is 32 bytes of 0. Fails with
    /// `BadChain` if `hops` is above `MAX_HOPS`, otherwise with `NoMemory` if memory is refused.
    pub fn new(alloc: A, hops: usize, config: EndConfig) -> Result<World<A>, Fault>
        ensures opening { IfOk result (λ w. w ≡ opening (chain_of (map one_to_one (replicate hops free_account)) config)) }
        ensures refused { MatchBool (nat_le hops 8) (IsOkUnless result Fault.NoMemory) (IsErrOf result Fault.BadChain) }
    {
        if hops > MAX_HOPS {
            return Err(Fault::BadChain);
        }
        let accounts = [FREE; MAX_HOPS];
        World::with_hops(alloc, &accounts[..hops], config)
    }

    /// A world of the client `test.a`, the server `test.b` and one hop for each account, in the order from the client.
    /// Each hop has the terms of its account towards both its neighbours, and forwards amounts unchanged. The shared
    /// secret is 32 bytes of 0. Fails with `BadChain` if there are more than `MAX_HOPS` accounts or a limit is above
    /// 2^63 - 1, otherwise with `NoMemory` if memory is refused.
    pub fn with_hops(alloc: A, accounts: &[Account], config: EndConfig) -> Result<World<A>, Fault>
        ensures opening { IfOk result (λ w. w ≡ opening (chain_of (map one_to_one accounts.now) config)) }
        ensures refused { MatchBool (is_chain (chain_of (map one_to_one accounts.now) config)) (IsOkUnless result Fault.NoMemory)
            (IsErrOf result Fault.BadChain) }
    {
        if accounts.len() > MAX_HOPS {
            return Err(Fault::BadChain);
        }
        let one = Rate::new(1, 1).unwrap();
        let mut terms = [(FREE, one); MAX_HOPS];
        for (place, account) in accounts.iter().enumerate() {
            terms[place] = (*account, one);
        }
        World::with_rates(alloc, &terms[..accounts.len()], config)
    }

    /// A world of the client `test.a`, the server `test.b` and one hop for each pair of an account and a rate, in the
    /// order from the client. Each hop has the terms of its account towards both its neighbours. Amounts towards the
    /// server are multiplied by the rate, amounts towards the client by its inverse. The shared secret is 32 bytes of
    /// 0. Fails with `BadChain` if there are more than `MAX_HOPS` pairs or a limit is above 2^63 - 1, otherwise with
    /// `NoMemory` if memory is refused.
    pub fn with_rates(
        alloc: A,
        terms: &[(Account, Rate)],
        config: EndConfig,
    ) -> Result<World<A>, Fault>
        ensures opening { IfOk result (λ w. w ≡ opening (chain_of terms.now config)) }
        ensures refused { MatchBool (is_chain (chain_of terms.now config)) (IsOkUnless result Fault.NoMemory) (IsErrOf result Fault.BadChain) }
    {
        if !are_lawful(terms) {
            return Err(Fault::BadChain);
        }
        let world = open(alloc, terms, config)?;
        Ok(world)
    }
}
