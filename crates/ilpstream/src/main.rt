//! The program `ilpstream`.
#![tactic(auto)]

use ilpstream_main::ilpstream;
use std::process::ExitCode;

fn main(rt: HostRuntime) -> ExitCode {
    ilpstream(&rt, &rt)
}
