//! The receiving side of a STREAM end (RFC 0029). `Intake::judge` decides on a packet that arrived with a Prepare: it
//! gives the first rule that the packet breaks, or a `Plan` for `commit`. `commit` makes the packet take effect and
//! does not allocate: the data first, then the money, then the closes. `reply_frames` gives the limits for the reply,
//! before `commit` and as `commit` will leave them.
//!
//! `specs/Judged.antt` defines the decision and the effect as functions of the state. `specs/Data.antt`,
//! `specs/Money.antt` and `specs/Closes.antt` define their parts, `specs/Limits.antt` the limits that are advertised.
//! Memory that was allocated in advance is not part of the state (`specs/Standing.antt`). The functions of `laws` state
//! what every state keeps.
#![tactic(auto)]

mod apply;
mod asking;
mod closing;
mod commit;
mod decide;
mod incoming;
mod intake;
mod judge;
mod laws;
mod money;
mod ready;
mod reason;
mod reply;
mod sequences;
mod telling;

pub use intake::{Decision, Intake, Plan};
pub use laws::{clean_close_ends_at_highest, every_step_is_lawful, parts_add_up};
pub use reason::Reason;
pub use st_frames::{Frame, Frames, StreamPacket};
pub use st_streams::StreamRead as Got;
