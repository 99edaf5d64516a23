//! The hop of a connector and its neighbours, made from a table.

ghost use Rattle.std.specs.Prelude.{◌≡◌, true, map, IfErr, IfOk, IsErrOf, IsOkUnless, MatchBool};
ghost use Rattle.st_hop.specs.Seen.{way_seen};
ghost use Rattle.st_hop.specs.Table.{is_table, new_hop};
ghost use Rattle.ilpstream_ledger.specs.Placed.{ArePlaces};
ghost use Rattle.ilpstream_settings.specs.Table.{names_of};
ghost use Rattle.ilpstream_net.specs.Table.{WhyNoHop, is_hop};
ghost use Rattle.ilpstream_net.specs.Restored.{GoesOnFromBooks, IsRestored, StandsFor, WhyNotRestored};
ghost use Rattle.ilpstream_net.specs.Ways.{these, way_to};
ghost use Rattle.ilpstream_net.specs.declared.error.RunError.TheVariants.{BadTable, NoHop};

use crate::error::RunError;
use ilpstream_ledger::{Life, added_names_owe_nothing, place};
use ilpstream_output::Fault;
use ilpstream_serving::Neighbour;
use ilpstream_settings::{AccountLine, Table};
use sqlite_trees::store::Alter;
use st_hop::{Account, HopError, HopState, Route};
use st_hop_books::Books;
use std::alloc::{AllocError, Global};

/// The hop of this address with these accounts and routes. Fails with `BadTable` if no hop may have them. Otherwise it
/// fails only with `NoHop`, if memory is refused.
fn make_hop(
    alloc: Global,
    own: &str,
    accounts: &[Account],
    routes: &[Route<'_>],
) -> Result<HopState<Global>, RunError>
    ensures made { IfOk result (λ hop. hop ≡ new_hop own.now accounts.now (map way_seen routes.now)) }
    ensures refused { MatchBool (is_table own.now accounts.now (map way_seen routes.now)) (IsOkUnless result NoHop) (IsErrOf result BadTable) }
{
    match HopState::new(alloc, own, accounts, routes) {
        Ok(hop) => Ok(hop),
        Err(HopError::BadTable) => Err(RunError::BadTable),
        Err(_) => Err(RunError::NoHop),
    }
}

/// The hop of this address that a table makes.
pub(crate) fn hop_of(
    alloc: Global,
    own: &str,
    table: &Table<'_, Global>,
) -> Result<HopState<Global>, RunError>
    ensures of_table { IfOk result (λ hop. hop ≡ new_hop own.now (map (λ x. x.terms) table.now.accounts.items) (map way_seen table.now.routes.items)) }
    ensures made { IfOk result (λ hop. is_hop own.now table.now.accounts.items table.now.routes.items ≡ true) }
    ensures refused { IfErr result (WhyNoHop own.now table.now.accounts.items table.now.routes.items) }
{
    let Ok(terms) = table.terms(alloc) else {
        return Err(RunError::Fault(Fault::NoMemory));
    };
    make_hop(alloc, own, &terms, &table.routes)
}

/// A hop that continues with what books say is owed.
#[derive(Drop)]
pub(crate) struct Going {
    pub(crate) hop: HopState<Global>,
    /// The place in the books of each of its accounts.
    pub(crate) places: Vec<usize>,
}

/// The hop of this address and table that continues with books. What is owed at it is what they say, by the names of
/// accounts. Its tickets are numbered above those of each earlier start. The names that the books lack are added, and the
/// start is counted.
pub(crate) fn restored<S: Alter>(
    alloc: Global,
    own: &str,
    table: &Table<'_, Global>,
    books: &mut Books<S>,
) -> Result<Going, RunError>
    ensures hop { IfOk result (λ going. IsRestored own.now table.now.accounts.items table.now.routes.items books.old books.new going.hop) }
    ensures placed { IfOk result (λ going. ArePlaces books.new.names (names_of table.now.accounts.items) going.places.items) }
    ensures stands { IfOk result (λ going. StandsFor S.Store (names_of table.now.accounts.items) books.new going.hop) }
    ensures goes_on { IfOk result (λ going. GoesOnFromBooks own.now table.now.accounts.items books.old books.new going.hop) }
    ensures refused { IfErr result WhyNotRestored }
{
    let names = table.names(alloc)?;
    let terms = table.terms(alloc)?;
    added_names_owe_nothing();
    let _amounts = books.amounts();
    let Life {
        places,
        claims,
        dues,
        first,
    } = place(alloc, books, &names, &terms)?;
    match HopState::restored(alloc, own, &terms, &table.routes, &claims, &dues, first) {
        Ok(hop) => {
            hop.is_lawful();
            Ok(Going { hop, places })
        }
        Err(_) => Err(RunError::NoHop),
    }
}

/// The neighbour to which the Prepares for each account are sent. `None` if the account's line names no neighbour.
pub(crate) fn neighbours_of<'a>(
    alloc: Global,
    accounts: &[AccountLine<'a>],
) -> Result<Vec<Option<Neighbour<'a>>>, AllocError>
    ensures { IfOk result (λ neighbours. map way_to neighbours.items ≡ these accounts.now) }
{
    let mut neighbours = Vec::new(alloc);
    for number in 0..accounts.len() {
        neighbours.push(accounts[number].neighbour)?;
    }
    Ok(neighbours)
}
