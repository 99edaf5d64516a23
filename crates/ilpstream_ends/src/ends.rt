//! How the ends of `send` and `receive` are made.

ghost use Rattle.std.specs.Prelude.{◌≡◌, true, IfOk, IsOkUnless};
ghost use Rattle.st_oer.specs.Address.{is_address};
ghost use Rattle.st_keys.specs.Keys.{keys_of};
ghost use Rattle.st_hub.specs.Hub.{IsNew};
ghost use Rattle.st_end.specs.State as state;
ghost use Rattle.st_streams.specs.declared.end_error.EndError.TheVariants as refusals;
ghost use Rattle.st_end.specs.declared.role.Role.TheVariants as roles;

use st_end::{EndError, EndState, Role};
use st_keys::Keys;
use st_sender::EndConfig;
use std::alloc::Global;
use std::marker::Model;

/// The end of a receiver, with a second copy of its keys: by it other threads open what arrives. Contracts see it as the
/// end.
#[derive(Drop)]
pub struct ReceivingEnd {
    pub(crate) end: EndState<Global>,
    pub(crate) keys: Keys,
}

impl Model for ReceivingEnd {
    ghost use Rattle.std.specs.Prelude.{◌≡◌};
    ghost use Rattle.std.specs.Coded.{codes};
    ghost use Rattle.std.specs.FinMap as map;
    ghost use Rattle.st_end.specs.State as state;

    ghost Value = { state.EndState };

    ghost coded = { Prim.hlevel (codes, map.code) };

    ghost view = { λ r. r.end };

    ghost invariant = { λ r. r.keys ≡ r.end.keys };
}

impl ReceivingEnd {
    /// The end and its keys.
    pub(crate) fn into_parts(self) -> (EndState<Global>, Keys)
        ensures { (result.0 ≡ self) × (result.1 ≡ self.keys) }
    {
        let ReceivingEnd { end, keys } = self;
        (end, keys)
    }
}

/// Makes an end of this role. Fails with `NoMemory` alone, if memory is refused.
fn end_of(
    alloc: Global,
    role: Role,
    secret: [u8; 32],
    own: &str,
    peer: &str,
    config: EndConfig,
) -> Result<EndState<Global>, EndError>
    requires own { is_address own.now ≡ true }
    requires peer { is_address peer.now ≡ true }
    ensures only_memory { IsOkUnless result refusals.NoMemory }
    ensures opening { IfOk result (λ e. e ≡ state.new_end role (keys_of secret) own.now peer.now config) }
{
    EndState::new(alloc, role, Keys::of(secret), own, peer, config)
}

/// Makes the end from which `send` sends: the client of the connection (RFC 0029). The keys come from the 32 bytes of
/// `secret`, which both ends share. `own` and `peer` are the ILP addresses of the two ends (RFC 0015), and `config` has
/// the limits of this end.
///
/// Fails with `NoMemory` if memory is refused, and for no other reason.
pub fn client_end(
    alloc: Global,
    secret: [u8; 32],
    own: &str,
    peer: &str,
    config: EndConfig,
) -> Result<EndState<Global>, EndError>
    requires own { is_address own.now ≡ true }
    requires peer { is_address peer.now ≡ true }
    ensures only_memory { IsOkUnless result refusals.NoMemory }
    ensures opening { IfOk result (λ e. e ≡ state.new_end roles.Client (keys_of secret) own.now peer.now config) }
    ensures new { IfOk result IsNew }
{
    end_of(alloc, Role::Client, secret, own, peer, config)
}

/// Makes the end at which `receive` receives: the server of the connection (RFC 0029). The keys come from the 32 bytes
/// of `secret`, which both ends share. `own` and `peer` are the ILP addresses of the two ends (RFC 0015), and `config`
/// has the limits of this end.
///
/// Fails with `NoMemory` if memory is refused, and for no other reason.
pub fn server_end(
    alloc: Global,
    secret: [u8; 32],
    own: &str,
    peer: &str,
    config: EndConfig,
) -> Result<ReceivingEnd, EndError>
    requires own { is_address own.now ≡ true }
    requires peer { is_address peer.now ≡ true }
    ensures only_memory { IsOkUnless result refusals.NoMemory }
    ensures opening { IfOk result (λ e. e ≡ state.new_end roles.Server (keys_of secret) own.now peer.now config) }
    ensures new { IfOk result IsNew }
{
    match end_of(alloc, Role::Server, secret, own, peer, config) {
        Ok(end) => Ok(ReceivingEnd {
            end,
            keys: Keys::of(secret),
        }),
        Err(error) => Err(error),
    }
}
