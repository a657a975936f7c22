ghost use Rattle.std.specs.Prelude.{◌≡◌, ◌≢◌, ◌≤◌, [], ◌∷◌, length, IfOk, IfSome, IsOk, OnOk, OnErr, Some, Err};
ghost use Rattle.outside.specs.Archive.{Fetches, FetchesFile, FitsIn, Reads};
ghost use Rattle.outside.specs.Faults.{HasCause, counted};
ghost use Rattle.outside.specs.Memory.{file_named};
ghost use Rattle.outside.specs.Plan.{FollowsPlan};
ghost use Rattle.outside.specs.Counts.{counted_IsCount};
ghost use Rattle.outside.specs.Entries.{entries, entries_have_bytes};

use crate::archive::Archive;
use crate::base::BaseDir;
use crate::faults::FaultPlan;
use crate::stored::StoredFile;
use pg_types::{Bytes, Fail, NoMemory};
use std::alloc::Global;

/// Files in memory that never fail: an archive, or the folder of a base backup. Contracts see their
/// `entries`: the name and the contents of each file, the newest first.
#[derive(Drop)]
pub struct SteadyFiles {
    files: Vec<StoredFile>,
}

/// An archive in memory that never fails.
pub type SteadyArchive = SteadyFiles;

/// The folder of a base backup in memory, which never fails.
pub type SteadyBase = SteadyFiles;

impl SteadyFiles {
    /// No files.
    pub fn new(alloc: Global) -> SteadyFiles
        ensures { entries result ≡ [] }
    {
        SteadyFiles {
            files: Vec::new(alloc),
        }
    }

    /// Adds a file. It hides older ones of its name.
    pub fn put(&mut self, alloc: Global, name: &str, contents: &[u8]) -> Result<(), NoMemory>
        ensures ok { OnOk result (entries self.new ≡ (name.now, contents.now) ∷ entries self.old) }
        ensures err { OnErr result (entries self.new ≡ entries self.old) }
    {
        let name = Bytes::from_slice(alloc, name.as_bytes())?;
        let contents = Bytes::from_slice(alloc, contents)?;
        self.files.insert(0, StoredFile { name, contents })?;
        Ok(())
    }

    /// Reads the newest file of this name from its byte `at` on into the front of `buf`.
    fn read(&self, name: &str, at: u64, buf: &mut [u8]) -> Option<usize>
        ensures told { FetchesFile (file_named (entries self.now) name.now) at buf.new result }
        ensures fits { IfSome result (λ count. count ≤ length buf.old) }
    {
        for file in &self.files {
            if file.name.as_slice() == name.as_bytes() {
                return Some(read_at(file.contents.as_slice(), at, buf));
            }
        }
        None
    }
}

impl Archive for SteadyFiles {
    ghost files = { λ held. Some (file_named (entries held)) };

    ghost fault_count = { λ _. 0 };

    fn fetch(&mut self, name: &str, at: u64, buf: &mut [u8]) -> Result<Option<usize>, Fail>
        ensures told { Fetches (Some (file_named (entries self.old))) name.now at buf.new result }
        ensures fits { FitsIn buf.old result }
        ensures stays { self.new ≡ self.old }
        ensures steady { IsOk result }
    {
        Ok(self.read(name, at, buf))
    }

    fn faults(&self) -> u64 {
        0
    }

    ghost counts = { λ _. counted_IsCount 0 };

    ghost bytes = { entries_have_bytes };
}

impl BaseDir for SteadyFiles {
    ghost files = { λ held. Some (file_named (entries held)) };

    ghost fault_count = { λ _. 0 };

    fn fetch(&mut self, name: &str, at: u64, buf: &mut [u8]) -> Result<Option<usize>, Fail>
        ensures told { Fetches (Some (file_named (entries self.old))) name.now at buf.new result }
        ensures fits { FitsIn buf.old result }
        ensures stays { self.new ≡ self.old }
        ensures steady { IsOk result }
    {
        Ok(self.read(name, at, buf))
    }

    fn faults(&self) -> u64 {
        0
    }

    ghost counts = { λ _. counted_IsCount 0 };

    ghost bytes = { entries_have_bytes };
}

/// Reads the contents from their byte `at` on into the front of `buf`.
pub(crate) fn read_at(contents: &[u8], at: u64, buf: &mut [u8]) -> usize
    ensures { Reads contents.now at buf.new result }
{
    let start = contents.len().min(at as usize);
    let rest = &contents[start..];
    let count = rest.len().min(buf.len());
    buf[..count].copy_from_slice(&rest[..count]);
    count
}

/// Files in memory of which the listed calls of `fetch` fail.
#[derive(Drop)]
pub struct MemoryFiles {
    pub files: SteadyFiles,
    pub plan: FaultPlan,
}

/// An archive in memory in which the listed calls of `fetch` fail.
pub type MemoryArchive = MemoryFiles;

/// The folder of a base backup in memory, in which the listed calls of `fetch` fail.
pub type MemoryBase = MemoryFiles;

impl MemoryFiles {
    /// These files, of which the calls of `fetch` with these numbers, from 1 on, fail.
    pub fn new(alloc: Global, files: SteadyFiles, fails: &[u64]) -> Result<MemoryFiles, NoMemory>
        ensures files { IfOk result (λ held. held.files ≡ files) }
        ensures listed { IfOk result (λ held. held.plan.fails.items ≡ fails.now) }
        ensures begins { IfOk result (λ held. held.plan.calls ≡ 0) }
        ensures none { IfOk result (λ held. counted held.plan.count.faults ≡ 0) }
    {
        let plan = FaultPlan::new(alloc, fails)?;
        Ok(MemoryFiles { files, plan })
    }

    /// A call of `fetch`: it fails where it is listed, and else reads.
    fn read(&mut self, name: &str, at: u64, buf: &mut [u8]) -> Result<Option<usize>, Fail>
        ensures told { Fetches (Some (file_named (entries self.old.files))) name.now at buf.new result }
        ensures fits { FitsIn buf.old result }
        ensures stays { self.new.files ≡ self.old.files }
        ensures cause { HasCause (counted self.old.plan.count.faults) (counted self.new.plan.count.faults) result }
        ensures uncounted { result ≢ Err Fail.Failed → counted self.new.plan.count.faults ≡ counted self.old.plan.count.faults }
        ensures plan { FollowsPlan self.old.plan self.new.plan result }
    {
        if self.plan.strikes() {
            return Err(self.plan.failure());
        }
        Ok(self.files.read(name, at, buf))
    }
}

impl Archive for MemoryFiles {
    ghost files = { λ held. Some (file_named (entries held.files)) };

    ghost fault_count = { λ held. counted held.plan.count.faults };

    fn fetch(&mut self, name: &str, at: u64, buf: &mut [u8]) -> Result<Option<usize>, Fail>
        ensures told { Fetches (Some (file_named (entries self.old.files))) name.now at buf.new result }
        ensures fits { FitsIn buf.old result }
        ensures stays { self.new.files ≡ self.old.files }
        ensures cause { HasCause (counted self.old.plan.count.faults) (counted self.new.plan.count.faults) result }
        ensures uncounted { result ≢ Err Fail.Failed → counted self.new.plan.count.faults ≡ counted self.old.plan.count.faults }
        ensures plan { FollowsPlan self.old.plan self.new.plan result }
    {
        self.read(name, at, buf)
    }

    fn faults(&self) -> u64 {
        self.plan.count.value()
    }

    ghost counts = { λ held. counted_IsCount held.plan.count.faults };

    ghost bytes = { λ held. entries_have_bytes held.files };
}

impl BaseDir for MemoryFiles {
    ghost files = { λ held. Some (file_named (entries held.files)) };

    ghost fault_count = { λ held. counted held.plan.count.faults };

    fn fetch(&mut self, name: &str, at: u64, buf: &mut [u8]) -> Result<Option<usize>, Fail>
        ensures told { Fetches (Some (file_named (entries self.old.files))) name.now at buf.new result }
        ensures fits { FitsIn buf.old result }
        ensures stays { self.new.files ≡ self.old.files }
        ensures cause { HasCause (counted self.old.plan.count.faults) (counted self.new.plan.count.faults) result }
        ensures uncounted { result ≢ Err Fail.Failed → counted self.new.plan.count.faults ≡ counted self.old.plan.count.faults }
        ensures plan { FollowsPlan self.old.plan self.new.plan result }
    {
        self.read(name, at, buf)
    }

    fn faults(&self) -> u64 {
        self.plan.count.value()
    }

    ghost counts = { λ held. counted_IsCount held.plan.count.faults };

    ghost bytes = { λ held. entries_have_bytes held.files };
}
