//! The command `local` over devices in memory.

ghost use Rattle.std.specs.Prelude.{◌≡◌, ◌<◌, ◌≤◌};

use ilpstream_local::run_local;
use ilpstream_settings::LocalSettings;
use st_devices::{CountRead, CountWrite};
use std::alloc::{Allocator, Global};

/// The result of a run: its status, what it wrote, and the fault that it printed.
#[derive(Drop)]
pub(crate) struct Told {
    pub(crate) status: u8,
    pub(crate) written: Vec<u8>,
    pub(crate) errors: Vec<u8>,
}

impl Told {
    /// Whether the run wrote this, and printed no fault.
    pub(crate) fn is_done(&self, text: &[u8]) -> bool {
        self.status == 0 && self.written.as_slice() == text && self.errors.is_empty()
    }

    /// Whether the run wrote nothing, and printed this fault.
    pub(crate) fn is_fault(&self, line: &[u8]) -> bool {
        self.status == 1 && self.written.is_empty() && self.errors.as_slice() == line
    }
}

/// The settings of a run over `hops` hops.
pub(crate) fn settings(hops: u8, lose: u64, streams: u8) -> LocalSettings
    ensures hops { result.hops ≡ hops }
    ensures streams { result.streams ≡ streams }
{
    LocalSettings {
        hops,
        lose,
        streams,
    }
}

/// The command over this input.
pub(crate) fn answer_to<A: Allocator + Copy>(
    memory: A,
    alloc: Global,
    settings: &LocalSettings,
    input: &[u8],
) -> Told
    requires hops { settings.now.hops ≤ 8 }
    requires some { 0 < settings.now.streams }
    requires streams { settings.now.streams ≤ 32 }
{
    let mut reader = CountRead::new(input);
    let mut writer = CountWrite::new(Vec::new(alloc));
    let mut errors = CountWrite::new(Vec::new(alloc));
    let status = run_local(memory, settings, &mut reader, &mut writer, &mut errors);
    Told {
        status,
        written: writer.into_inner(),
        errors: errors.into_inner(),
    }
}
