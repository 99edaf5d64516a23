//! The object of a handle.

ghost use Rattle.std.specs.Prelude.{◌≡◌};
ghost use Rattle.host_objects.specs.Objects.{output_of};

use crate::end::HostEnd;
use crate::hop::HostHop;
use crate::keys::HostKeys;
use crate::message::HostMessage;
use crate::packet::HostPacket;

/// The object of a handle.
#[derive(Drop)]
pub enum Object {
    /// An end of a connection.
    End(HostEnd),
    /// A hop.
    Hop(HostHop),
    /// The keys of a connection.
    Keys(HostKeys),
    /// A message of HTTP.
    Message(HostMessage),
    /// A plain STREAM packet.
    Packet(HostPacket),
}

impl Object {
    /// The bytes that the last call returned; none before the first call.
    pub fn output(&self) -> &[u8]
        ensures { result.now ≡ output_of self.now }
    {
        match self {
            Object::End(end) => &end.output,
            Object::Hop(hop) => &hop.output,
            Object::Keys(keys) => &keys.output,
            Object::Message(message) => &message.output,
            Object::Packet(packet) => &packet.output,
        }
    }
}
