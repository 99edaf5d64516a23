//! What the accounts of the last table owed and were owed, for a connector without books that continues with another table.

ghost use Rattle.std.specs.Prelude.{IfErr};
ghost use Rattle.ilpstream_net.specs.Table.{WhyNotCarried};

use crate::error::RunError;
use ilpstream_connector::AccountTotals;
use ilpstream_output::Fault;
use ilpstream_settings::Table;
use st_hop::HopState;
use std::alloc::{AllocError, Global};

/// What the accounts of the last table owed and were owed at its end, by their names.
#[derive(Drop)]
pub(crate) struct Carried {
    names: Vec<String>,
    totals: Vec<AccountTotals>,
}

/// What accounts of a table owe and are owed, in its order.
#[derive(Drop)]
struct Sums {
    claims: Vec<u64>,
    dues: Vec<u64>,
}

/// Whether a name is among these.
fn is_among(names: &[String], wanted: &str) -> bool {
    for name in names {
        if name.as_str() == wanted {
            return true;
        }
    }
    false
}

impl Carried {
    /// There was no table before.
    pub(crate) fn none(alloc: Global) -> Carried {
        Carried {
            names: Vec::new(alloc),
            totals: Vec::new(alloc),
        }
    }

    /// What the accounts of a table have at its end.
    pub(crate) fn of(
        alloc: Global,
        table: &Table<'_, Global>,
        totals: &[AccountTotals],
    ) -> Result<Carried, AllocError> {
        Ok(Carried {
            names: table.names(alloc)?,
            totals: Vec::from_slice(alloc, totals)?,
        })
    }

    /// The totals of the account of this name; zeros if there is no such account.
    fn totals_of(&self, name: &str) -> AccountTotals {
        for (known, totals) in self.names.iter().zip(&self.totals) {
            if known.as_str() == name {
                return *totals;
            }
        }
        AccountTotals {
            claims: 0,
            dues: 0,
            held: 0,
        }
    }

    /// Whether each account at which something was owed is among those of these names.
    fn are_listed(&self, names: &[String]) -> bool {
        for (known, totals) in self.names.iter().zip(&self.totals) {
            let is_owed = totals.claims > 0 || totals.dues > 0;
            if is_owed && !is_among(names, known.as_str()) {
                return false;
            }
        }
        true
    }

    /// What the accounts of these names owe and are owed.
    fn sums_of(&self, alloc: Global, names: &[String]) -> Result<Sums, AllocError> {
        let mut claims = Vec::new(alloc);
        let mut dues = Vec::new(alloc);
        for name in names {
            let totals = self.totals_of(name.as_str());
            claims.push(totals.claims)?;
            dues.push(totals.dues)?;
        }
        Ok(Sums { claims, dues })
    }

    /// The hop of this address and table, with the sums of the last table, by the names of accounts. `hop` is the same hop
    /// without sums. Fails with `NoHop` if the table does not fit these sums or memory for the hop is refused, and with a
    /// fault if other memory is refused.
    pub(crate) fn hop_of(
        &self,
        alloc: Global,
        own: &str,
        table: &Table<'_, Global>,
        hop: HopState<Global>,
    ) -> Result<HopState<Global>, RunError>
        ensures refused { IfErr result WhyNotCarried }
    {
        if self.names.is_empty() {
            return Ok(hop);
        }
        let (Ok(names), Ok(terms)) = (table.names(alloc), table.terms(alloc)) else {
            return Err(RunError::Fault(Fault::NoMemory));
        };
        if !self.are_listed(&names) {
            return Err(RunError::NoHop);
        }
        let Ok(Sums { claims, dues }) = self.sums_of(alloc, &names) else {
            return Err(RunError::Fault(Fault::NoMemory));
        };
        match HopState::restored(alloc, own, &terms, &table.routes, &claims, &dues, 0) {
            Ok(hop) => Ok(hop),
            Err(_) => Err(RunError::NoHop),
        }
    }
}
