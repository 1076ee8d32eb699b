//! A folder of files in memory.
ghost use Rattle.std.specs.Prelude.{◌≡◌, ◌+◌, ◌-◌, ◌^◌, ◌<◌, ◌≤◌, [], ◌++◌, true, false, min, length};
ghost use Rattle.std.specs.Prelude.{IfOk, IfSome, IsSomeAnd, OnOk, OnErr};
ghost use Rattle.std.specs.Option.{option_copied};
ghost use Rattle.kn_outside.specs.InMemory.{IsAnswer, answer_of, asked_for, content_of, files_after, next_answer};

use crate::failing::fails;
use crate::file_entry::FileEntry;
use crate::files::{FileFault, Files};
use kn_base::limits::FILE_BYTES;
use kn_base::{List, NoMemory, Octets};
use std::alloc::Global;
use std::marker::Model;

/// Files in memory. Chosen reads of them fail.
#[derive(Drop)]
pub struct MemFiles {
    entries: List<FileEntry>,
    asked: List<Octets>,
    calls: u64,
    faults: u64,
    failing: List<u32>,
    alloc: Global,
}

impl Model for MemFiles {
    ghost use Rattle.kn_outside.specs.InMemory.{FilesInMemory};

    ghost Value = { FilesInMemory };

    ghost view = { λ f. record {
      entries = f.entries;
      asked = f.asked;
      calls = f.calls;
      faults = f.faults;
      failing = f.failing;
    } };
}

impl MemFiles {
    /// These files, the first one of each name. The reads with the numbers in `failing`, counted from 1,
    /// fail; a read that runs out of memory isn't counted.
    pub fn of(alloc: Global, entries: List<FileEntry>, failing: List<u32>) -> MemFiles
        ensures { result ≡ record { entries = entries; asked = []; calls = 0; faults = 0; failing = failing } }
    {
        MemFiles {
            entries,
            asked: List::new(alloc),
            calls: 0,
            faults: 0,
            failing,
            alloc,
        }
    }

    /// The names that were asked for.
    pub fn asked(&self) -> &List<Octets>
        ensures { result.now ≡ self.now.asked }
    {
        &self.asked
    }
}

impl Files for MemFiles {
    ghost use Rattle.std.specs.Prelude.{Some};
    ghost use Rattle.kn_outside.specs.InMemory.{content_of};

    ghost seen = { λ f. record { content = Some (content_of f.entries); asked = f.asked; faults = f.faults } };

    fn read(&mut self, name: &[u8]) -> Result<Octets, FileFault>
        ensures answer { IsAnswer (next_answer self.old name.now) result }
        ensures after { self.new ≡ files_after result name.now self.old }
        ensures later { self.old.faults ≤ self.new.faults }
    {
        let copy = match Octets::from_slice(self.alloc, name) {
            Ok(copy) => copy,
            Err(_) => return Err(FileFault::NoMemory),
        };
        match self.next_answer(name) {
            Ok(content) => {
                self.ask(copy)?;
                Ok(content)
            }
            Err(FileFault::Failed) => {
                self.ask(copy)?;
                self.faults = self.faults.saturating_add(1);
                Err(FileFault::Failed)
            }
            Err(FileFault::TooLarge) => {
                self.ask(copy)?;
                Err(FileFault::TooLarge)
            }
            Err(FileFault::NoMemory) => Err(FileFault::NoMemory),
        }
    }
}

impl MemFiles {
    fn next_answer(&self, name: &[u8]) -> Result<Octets, FileFault>
        ensures { IsAnswer (next_answer self.now name.now) result }
    {
        if fails(&self.failing, self.calls.saturating_add(1)) {
            return Err(FileFault::Failed);
        }
        match find(self.entries.as_slice(), name) {
            Some(content) => copy_content(self.alloc, content),
            None => Err(FileFault::Failed),
        }
    }

    fn ask(&mut self, name: Octets) -> Result<(), NoMemory>
        ensures ok { OnOk result (self.new ≡ asked_for name self.old) }
        ensures err { OnErr result (self.new ≡ self.old) }
    {
        match self.asked.push(name) {
            Ok(()) => {
                self.calls = self.calls.saturating_add(1);
                Ok(())
            }
            Err(_) => Err(NoMemory),
        }
    }
}

/// The content of the first file of this name.
fn find<'a>(entries: &'a [FileEntry], name: &[u8]) -> Option<&'a Octets>
    ensures { option_copied result ≡ content_of entries.now name.now }
{
    for entry in entries {
        if entry.name.as_slice() == name {
            return Some(&entry.content);
        }
    }
    None
}

fn copy_content(alloc: Global, content: &Octets) -> Result<Octets, FileFault>
    ensures { IsAnswer (answer_of (Some content.now)) result }
{
    if content.len() > FILE_BYTES {
        return Err(FileFault::TooLarge);
    }
    match Octets::from_slice(alloc, content.as_slice()) {
        Ok(content) => Ok(content),
        Err(_) => Err(FileFault::NoMemory),
    }
}
