//! A text that is written to a new file, which then replaces another file as a whole.

ghost use Rattle.std.specs.Prelude.{◌≡◌, ℕ, List, Option, None, MatchBool, IfSome, OnErr, OnOk};
ghost use Rattle.st_devices.specs.Tallies.{device_of};
ghost use Rattle.ilpstream_net.specs.Totals.{IsEmptyBeside, Replaced, TakesPlace};

use crate::obstacle::{Cause, cause_of};
use ilpstream_output::{Fault, TURNS, put};
use libc::getpid;
use st_devices::CountWrite;
use std::alloc::Global;
use std::fs::{File, Files, Metadata, OpenOptions};
use std::io::{ErrorKind, Write};
use std::os::unix::fs::{MetadataExt, OpenOptionsExt, fchown};
use std::{fs, io};

/// A place that holds a text. Another text is written to a new file, which then replaces what the place holds.
pub(crate) trait Place<W: Write> {
    // What a reader finds there, if that is known.
    ghost held: { Self → Option (List ℕ) };

    /// An empty new file for this place. `None` if it cannot be made.
    fn begin(&mut self) -> Option<CountWrite<W>>
        ensures empty { IfSome result (λ file. IsEmptyBeside (held self.old) (W.contents (device_of file))) }
        ensures kept { held self.new ≡ held self.old };

    /// Puts the file in its place, with what was written to it so far. False if that fails.
    fn finish(&mut self, file: &CountWrite<W>) -> bool
        ensures { MatchBool result (TakesPlace (held self.old) (W.contents (device_of file.now)) (held self.new)) (held self.new ≡ held self.old) };

    /// Removes the file that was begun and is not in its place, if there is one.
    fn give_up(&mut self)
        ensures { held self.new ≡ held self.old };
}

/// Replaces what the place holds by this text, as a whole. If that fails, the place keeps what it has.
#[tactic(auto, using(crate::proofs::Totalled::replaced))]
pub(crate) fn replace<W: Write + Drop, P: Place<W>>(place: &mut P, text: &[u8]) -> Result<(), Fault>
    ensures whole { OnOk result (Replaced (P.held place.old) (P.held place.new) text.now) }
    ensures kept { OnErr result (P.held place.new ≡ P.held place.old) }
{
    let Some(mut file) = place.begin() else {
        return Err(Fault::Output);
    };
    let mut turns = TURNS;
    if let Err(fault) = put(&mut file, text, &mut turns) {
        place.give_up();
        return Err(fault);
    }
    if place.finish(&file) {
        Ok(())
    } else {
        place.give_up();
        Err(Fault::Output)
    }
}

/// How many names are tried for a new file.
const NAMES: u32 = 100;

/// Why no file was made.
#[derive(Clone, Copy)]
pub(crate) enum Unmade {
    /// There is no memory for its name.
    NoMemory,
    /// The system refuses it.
    Refused(Cause),
}

/// A file, and the new file in the same folder that replaces it.
#[derive(Drop)]
pub(crate) struct Beside<'a, N> {
    rt: &'a N,
    alloc: Global,
    name: &'a str,
    /// The name of the new file, if one was made and is not in its place yet.
    made: Option<String>,
}

impl<'a, N: Files<File = File>> Beside<'a, N> {
    /// The file of this name. There is no new file for it yet.
    pub(crate) fn new(rt: &'a N, alloc: Global, name: &'a str) -> Beside<'a, N> {
        Beside {
            rt,
            alloc,
            name,
            made: None,
        }
    }

    /// Whether a new file can be made for this one. It is removed again.
    pub(crate) fn can_begin(&mut self) -> Result<(), Unmade> {
        let made = self.make();
        self.remove();
        match made {
            Ok(_) => Ok(()),
            Err(error) => Err(error),
        }
    }

    /// Makes the new file under its name of this number, with the mode of the file that it replaces, if that was found. `None`
    /// if the name is in use.
    fn make_by(&mut self, found: &Option<Metadata>, number: u32) -> Option<Result<File, Unmade>> {
        let (name, process) = (self.name, getpid());
        let Ok(beside) = format!(in self.alloc; "{name}.new.{process}.{number}") else {
            return Some(Err(Unmade::NoMemory));
        };
        match created(self.rt, beside.as_str(), found.is_some()) {
            Ok(file) => {
                self.made = Some(beside);
                Some(if is_like(&file, found) {
                    Ok(file)
                } else {
                    Err(Unmade::Refused(Cause::Other))
                })
            }
            Err(error) if error.kind() == ErrorKind::AlreadyExists => None,
            Err(error) => Some(Err(Unmade::Refused(cause_of(&error)))),
        }
    }

    /// Makes the new file. It has the mode of the file that it replaces, if that exists. No existing file is opened: if the
    /// name is in use, another one is tried.
    fn make(&mut self) -> Result<File, Unmade> {
        let found = regular(self.rt, self.name);
        for number in 0..NAMES {
            if let Some(made) = self.make_by(&found, number) {
                return made;
            }
        }
        Err(Unmade::Refused(Cause::Taken))
    }

    /// Removes the new file, if there is one.
    fn remove(&mut self) {
        if let Some(beside) = self.made.take() {
            let _ = fs::remove_file(self.rt, beside.as_str());
        }
    }
}

/// Creates a file of this name. Fails if it exists already. Its mode is that of any new file, or, with `is_own`, lets only
/// its owner read and write.
fn created(files: &impl Files<File = File>, name: &str, is_own: bool) -> io::Result<File> {
    let mut options = OpenOptions::new();
    options.write(true).create_new(true);
    if is_own {
        options.mode(0o600);
    }
    options.open(files, name)
}

/// Gives a new file the mode of the file that it replaces, if there is one, and its owner and group if the process may do
/// so. False if the mode cannot be set.
fn is_like(file: &File, found: &Option<Metadata>) -> bool {
    let Some(found) = found else {
        return true;
    };
    let _ = fchown(file, Some(found.uid()), Some(found.gid()));
    file.set_permissions(found.permissions()).is_ok()
}

/// The metadata of the regular file of this name, if there is one. A symbolic link does not count as a regular file.
fn regular(files: &impl Files, name: &str) -> Option<Metadata> {
    match fs::symlink_metadata(files, name) {
        Ok(found) if found.is_file() => Some(found),
        _ => None,
    }
}

/// Whether a file of this name is replaced as a whole: it is a regular file, or nothing is found under a name that is not
/// empty. A symbolic link does not count as a regular file.
pub(crate) fn is_replaced(files: &impl Files, name: &str) -> bool {
    match fs::symlink_metadata(files, name) {
        Ok(found) => found.is_file(),
        Err(_) => !name.is_empty(),
    }
}

impl<N: Files<File = File>> Place<File> for Beside<'_, N> {
    ghost use Rattle.std.specs.Prelude.{None};

    ghost held = { λ _. None };

    fn begin(&mut self) -> Option<CountWrite<File>> {
        self.remove();
        if let Ok(file) = self.make() {
            return Some(CountWrite::new(file));
        }
        self.remove();
        None
    }

    fn finish(&mut self, _file: &CountWrite<File>) -> bool {
        let Some(beside) = &self.made else {
            return false;
        };
        let is_done = fs::rename(self.rt, beside.as_str(), self.name).is_ok();
        if is_done {
            self.made = None;
        }
        is_done
    }

    fn give_up(&mut self) {
        self.remove();
    }
}
