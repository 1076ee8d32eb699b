//! The files of the system.
ghost use Rattle.std.specs.Prelude.{◌≡◌, ◌≢◌, ◌≤◌, ◌<◌, [], length, IfOk, IfSome};
ghost use Rattle.std.specs.Str.{IsUtf8};
ghost use Rattle.std.specs.IoError.{error_kind};
ghost use Rattle.std.specs.declared.io.ErrorKind.{ErrorKind};
ghost use Rattle.kn_outside.specs.Asked.{Leaves};
ghost use Rattle.kn_outside.specs.declared.files.FileFault.{FileFault};

use crate::retry::read_some;
use kn_base::limits::FILE_BYTES;
use kn_base::{List, Octets};
use kn_outside::{FileFault, Files};
use std::alloc::Global;
use std::fs::File;
use std::io::{self, ErrorKind, Read};
use std::str;

/// The bytes that a file is asked for at once.
const FILE_CHUNK_BYTES: usize = 16_384;

/// The files of the system. A name is a path, from the folder in which the program was started.
#[derive(Drop)]
pub struct RealFiles {
    rt: HostRuntime,
    asked: List<Octets>,
    faults: u64,
}

impl RealFiles {
    /// The files of the system, none of which was asked for and none of whose reads failed.
    pub fn new(rt: HostRuntime) -> RealFiles
        ensures none_asked { result.asked ≡ [] }
        ensures no_faults { result.faults ≡ 0 }
    {
        let asked = List::new(rt.alloc());
        RealFiles {
            rt,
            asked,
            faults: 0,
        }
    }
}

impl Files for RealFiles {
    ghost use Rattle.kn_real.specs.Counted.{counted_files_seen};

    ghost seen = { λ files. counted_files_seen files.asked files.faults };

    fn read(&mut self, name: &[u8]) -> Result<Octets, FileFault>
        ensures within { IfOk result (λ octets. length octets ≤ FILE_BYTES) }
        ensures leaves { Leaves result name.now
            (counted_files_seen self.old.asked self.old.faults)
            (counted_files_seen self.new.asked self.new.faults) }
        ensures later { self.old.faults ≤ self.new.faults }
    {
        let copy = Octets::from_slice(self.rt.alloc(), name)?;
        // The name is kept before the file is opened, so that no file is read whose name can't be kept.
        match self.asked.push(copy) {
            Ok(()) => {}
            Err(_) => return Err(FileFault::NoMemory),
        }
        match read_file(&self.rt, name) {
            Err(FileFault::NoMemory) => {
                let _ = self.asked.pop();
                Err(FileFault::NoMemory)
            }
            Err(FileFault::Failed) => {
                self.faults = self.faults.saturating_add(1);
                Err(FileFault::Failed)
            }
            answer => answer,
        }
    }
}

/// The whole content of the file at a path. A path that isn't UTF-8 is one that can't be opened.
fn read_file(rt: &HostRuntime, path: &[u8]) -> Result<Octets, FileFault>
    ensures within { IfOk result (λ octets. length octets ≤ FILE_BYTES) }
    ensures path { ¬ IsUtf8 path.now → result ≡ Err FileFault.Failed }
{
    let text = match str::from_utf8(path) {
        Ok(text) => text,
        Err(_) => return Err(FileFault::Failed),
    };
    let mut file = match File::open(rt, text) {
        Ok(file) => file,
        Err(error) => return Err(fault_of(&error)),
    };
    read_to_limit(rt.alloc(), &mut file)
}

/// What a reader has left. Of more than `FILE_BYTES` one byte too many is read.
fn read_to_limit<R: Read>(alloc: Global, reader: &mut R) -> Result<Octets, FileFault>
    ensures within { IfOk result (λ octets. length octets ≤ FILE_BYTES) }
    ensures whole { IfOk result (λ octets. IfSome (R.remaining reader.old) (λ bytes. octets ≡ bytes)) }
    ensures large { result ≡ Err FileFault.TooLarge
        → IfSome (R.remaining reader.old) (λ bytes. FILE_BYTES < length bytes) }
{
    let mut content = Octets::new(alloc);
    let mut buf = [0; FILE_CHUNK_BYTES];
    while content.len() <= FILE_BYTES {
        let room = FILE_CHUNK_BYTES.min(FILE_BYTES + 1 - content.len());
        let bytes = match read_some(reader, buf.split_at_mut(room).0) {
            Ok(bytes) => bytes,
            Err(error) => return Err(fault_of(&error)),
        };
        if bytes == 0 {
            return Ok(content);
        }
        content.extend(buf.split_at(bytes).0)?;
    }
    Err(FileFault::TooLarge)
}

fn fault_of(error: &io::Error) -> FileFault
    ensures memory { error_kind error.now ≡ ErrorKind.OutOfMemory → result ≡ FileFault.NoMemory }
    ensures other { error_kind error.now ≢ ErrorKind.OutOfMemory → result ≡ FileFault.Failed }
{
    if error.kind() == ErrorKind::OutOfMemory {
        FileFault::NoMemory
    } else {
        FileFault::Failed
    }
}
