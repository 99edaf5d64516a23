//! The state of an end.

ghost use Rattle.std.specs.Prelude.{◌≡◌, ◌≢◌, ◌≤◌, ℕ, true, is_ok, IfOk, IsOkUnless};
ghost use Rattle.st_oer.specs.Address.{is_address};
ghost use Rattle.st_end.specs.State.{new_end};
ghost use Rattle.st_end.specs.Calls as calls;
ghost use Rattle.st_end.specs.Calls.{OrWants};
ghost use Rattle.st_end.specs.Lawful.{IsLawful};
ghost use Rattle.st_end.specs.Reading as reading;
ghost use Rattle.st_end.specs.Receiving.{t00_text};

use crate::conditions::Conditions;
use crate::failed::Failed;
use crate::reply::ready_t00;
use crate::role::Role;
use st_keys::Keys;
use st_receiver::Intake;
use st_sender::{EndConfig, Outbox, OutboxError};
use st_streams::EndError;
use std::alloc::Allocator;
use std::marker::Model;
use std::sync::Arc;

/// An end of a connection (RFC 0029): its sending side, its receiving side, its keys, its own address and its peer's.
pub struct EndState<A: Allocator + Copy> {
    pub(crate) outbox: Outbox<A>,
    /// Of what is in flight.
    pub(crate) conditions: Conditions<A>,
    pub(crate) intake: Intake<A>,
    /// Shared with what is not sealed yet.
    pub(crate) keys: Arc<Keys, A>,
    /// Its address.
    pub(crate) own: String<A>,
    /// And the peer's.
    pub(crate) peer: String<A>,
    /// Why the last Prepare that failed did so.
    pub(crate) last: Option<Failed>,
    t00: Vec<u8, A>,
    pub(crate) alloc: A,
}

// It is written out, so that a caller does not prove again how each part is dropped.
impl<A: Allocator + Copy> Drop for EndState<A> {
    fn drop(self) {
        let EndState {
            outbox: _,
            conditions: _,
            intake: _,
            keys: _,
            own: _,
            peer: _,
            last: _,
            t00: _,
            alloc: _,
        } = self;
    }
}

impl<A: Allocator + Copy> Model for EndState<A> {
    ghost use Rattle.std.specs.Prelude.{◌≡◌, string_bytes};
    ghost use Rattle.std.specs.Arc.{arc_value};
    ghost use Rattle.std.specs.Coded.{codes};
    ghost use Rattle.std.specs.FinMap as map;
    ghost use Rattle.st_end.specs.State as state;
    ghost use Rattle.st_end.specs.State.{end_of};
    ghost use Rattle.st_end.specs.Lawful.{IsLawful};
    ghost use Rattle.st_end.specs.Receiving.{t00_text};

    ghost Value = { state.EndState };

    ghost coded = { Prim.hlevel (codes, map.code) };

    ghost view = { λ s. end_of s.outbox s.conditions s.intake.state (arc_value s.keys) (string_bytes s.own) (string_bytes s.peer) s.last };

    ghost invariant = { λ s. IsLawful (end_of s.outbox s.conditions s.intake.state (arc_value s.keys) (string_bytes s.own) (string_bytes s.peer) s.last)
        × (s.t00.items ≡ t00_text (string_bytes s.own)) };
}

impl<A: Allocator + Copy> EndState<A> {
    /// An end with no open stream, with these keys, its own address and its peer's. `own` and `peer` must be ILP
    /// addresses (RFC 0015). Fails with `NoMemory` if memory is refused.
    pub fn new(
        alloc: A,
        role: Role,
        keys: Keys,
        own: &str,
        peer: &str,
        config: EndConfig,
    ) -> Result<EndState<A>, EndError>
        requires own { is_address own.now ≡ true }
        requires peer { is_address peer.now ≡ true }
        ensures only_memory { IsOkUnless result EndError.NoMemory }
        ensures opening { IfOk result (λ e. e ≡ new_end role keys own.now peer.now config) }
    {
        let t00 = ready_t00(alloc, own)?;
        let own = String::from_str(alloc, own)?;
        let peer = String::from_str(alloc, peer)?;
        let Ok(keys) = Arc::new(alloc, keys) else {
            return Err(EndError::NoMemory);
        };
        let Ok(outbox) = Outbox::new(alloc, config) else {
            return Err(EndError::NoMemory);
        };
        let Ok(intake) = Intake::new(alloc, role.parity()) else {
            return Err(EndError::NoMemory);
        };
        Ok(EndState {
            outbox,
            conditions: Conditions::new(alloc),
            intake,
            keys,
            own,
            peer,
            last: None,
            t00,
            alloc,
        })
    }

    /// The bytes of a Reject T00 (RFC 0027) that was written in advance, for an end that is out of memory. Does not
    /// allocate.
    pub fn t00(&self) -> &[u8]
        ensures { result.now ≡ t00_text self.now.own }
    {
        self.t00.as_slice()
    }

    /// A law: what holds of every end. The function does nothing, and its contract is the law.
    pub fn is_lawful(&self)
        ensures { IsLawful self.now }
    {
        let _own = &self.own;
    }

    /// A law: `read` refuses a stream exactly where `has_stream` says that it is not open. The function does nothing,
    /// and its contract is the law.
    pub fn reads_what_is_open(&self)
        ensures { (stream limit : ℕ) → is_ok (reading.read self.now stream limit).0 ≡ calls.has_stream self.now stream }
    {
        let _own = &self.own;
    }
}
