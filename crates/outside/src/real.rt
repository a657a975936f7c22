// The real objects. They tell no content and count their failures.
ghost use Rattle.std.specs.Prelude.{◌≡◌, ◌≢◌, ◌≤◌, ◌^◌, length, IfOk, None, Err};
ghost use Rattle.outside.specs.Archive.{FitsIn};
ghost use Rattle.outside.specs.Faults.{HasCause, Rose, counted};
ghost use Rattle.outside.specs.Counts.{counted_IsCount, counted_le};

use crate::archive::Archive;
use crate::base::BaseDir;
use crate::faults::FaultCount;
use crate::sink::Sink;
use crate::source::Source;
use pg_types::Fail;
use std::alloc::Global;
use std::io::{ErrorKind, Read, Seek, SeekFrom, Write};
use std::rt::Files;
use std::{fs, io};

/// The most bytes that are read from a source.
const MOST_READ: u64 = 0x4000_0000_0000_0000;

/// A folder of the current folder: `archive` or `base`.
#[derive(Drop)]
pub struct Folder<'a, R: Files> {
    alloc: Global,
    rt: &'a R,
    folder: &'static str,
    count: FaultCount,
}

impl<'a, R: Files> Folder<'a, R> {
    /// The folder `archive`, of log segments and history files.
    pub fn archive(alloc: Global, rt: &'a R) -> Folder<'a, R>
        ensures { counted result.count.faults ≡ 0 }
    {
        Folder {
            alloc,
            rt,
            folder: "archive",
            count: FaultCount::new(),
        }
    }

    /// The folder `base`, of a base backup.
    pub fn base(alloc: Global, rt: &'a R) -> Folder<'a, R>
        ensures { counted result.count.faults ≡ 0 }
    {
        Folder {
            alloc,
            rt,
            folder: "base",
            count: FaultCount::new(),
        }
    }

    /// Reads the file of this name from its byte `at` on into the front of `buf`.
    fn read(&mut self, name: &str, at: u64, buf: &mut [u8]) -> Result<Option<usize>, Fail>
        ensures fits { FitsIn buf.old result }
        ensures cause { HasCause (counted self.old.count.faults) (counted self.new.count.faults) result }
        ensures uncounted { result ≢ Err Fail.Failed → counted self.new.count.faults ≡ counted self.old.count.faults }
    {
        let Ok(path) = format!(in self.alloc; "{}/{name}", self.folder) else {
            return Err(Fail::Memory);
        };
        match fs::open(self.rt, path.as_str()) {
            Ok(mut file) => match read_from(&mut file, at, buf) {
                Ok(count) => Ok(Some(count)),
                Err(error) => Err(failure(&mut self.count, error.kind())),
            },
            Err(error) if error.kind() == ErrorKind::NotFound => Ok(None),
            Err(error) => Err(failure(&mut self.count, error.kind())),
        }
    }
}

impl<R: Files> Archive for Folder<'_, R> {
    ghost files = { λ _. None };

    ghost fault_count = { λ folder. counted folder.count.faults };

    fn fetch(&mut self, name: &str, at: u64, buf: &mut [u8]) -> Result<Option<usize>, Fail> {
        self.read(name, at, buf)
    }

    fn faults(&self) -> u64 {
        self.count.value()
    }

    ghost counts = { λ folder. counted_IsCount folder.count.faults };

    ghost bytes = { λ _. tt };
}

impl<R: Files> BaseDir for Folder<'_, R> {
    ghost files = { λ _. None };

    ghost fault_count = { λ folder. counted folder.count.faults };

    fn fetch(&mut self, name: &str, at: u64, buf: &mut [u8]) -> Result<Option<usize>, Fail> {
        self.read(name, at, buf)
    }

    fn faults(&self) -> u64 {
        self.count.value()
    }

    ghost counts = { λ folder. counted_IsCount folder.count.faults };

    ghost bytes = { λ _. tt };
}

/// Standard output.
#[derive(Drop)]
pub struct StdoutSink<'a, R: Print> {
    rt: &'a R,
    count: FaultCount,
}

impl<'a, R: Print> StdoutSink<'a, R> {
    pub fn new(rt: &'a R) -> StdoutSink<'a, R>
        ensures { counted result.count.faults ≡ 0 }
    {
        StdoutSink {
            rt,
            count: FaultCount::new(),
        }
    }
}

impl<R: Print> Sink for StdoutSink<'_, R> {
    ghost written = { λ _. None };

    ghost fault_count = { λ sink. counted sink.count.faults };

    ghost short_count = { λ _. 0 };

    fn write(&mut self, bytes: &[u8]) -> Result<(), Fail> {
        match io::writer(self.rt).write_all(bytes) {
            Ok(()) => Ok(()),
            Err(_) => {
                self.count.rise();
                Err(Fail::Failed)
            }
        }
    }

    fn faults(&self) -> u64 {
        self.count.value()
    }

    ghost counts = { λ sink. counted_le sink.count.faults };
}

/// Standard input, or whatever else is read. At most 2^62 bytes are read from it.
#[derive(Drop)]
pub struct StdinSource<R: Read> {
    reader: R,
    read: u64,
    count: FaultCount,
    ghost within: { read ≤ 2 ^ 62 },
}

impl<R: Read> StdinSource<R> {
    pub fn new(reader: R) -> StdinSource<R>
        ensures { counted result.count.faults ≡ 0 }
    {
        StdinSource {
            reader,
            read: 0,
            count: FaultCount::new(),
        }
    }
}

impl<R: Read> Source for StdinSource<R> {
    ghost rest = { λ _. None };

    ghost taken_count = { λ source. source.read };

    ghost fault_count = { λ source. counted source.count.faults };

    fn read(&mut self, buf: &mut [u8]) -> Result<usize, Fail> {
        let room = (buf.len() as u64).min(MOST_READ - self.read) as usize;
        if room == 0 && !buf.is_empty() {
            return Err(failure(&mut self.count, ErrorKind::FileTooLarge));
        }
        match self.reader.read(&mut buf[..room]) {
            Ok(count) => {
                self.read += count as u64;
                Ok(count)
            }
            Err(error) => Err(failure(&mut self.count, error.kind())),
        }
    }

    fn taken(&self) -> u64 {
        self.read
    }

    fn faults(&self) -> u64 {
        self.count.value()
    }

    ghost counts = { λ source. counted_IsCount source.count.faults };

    ghost within = { λ source. source.within };

    ghost bytes = { λ _. tt };
}

// What a failed call of the file system is to its caller; a fault is counted.
fn failure(count: &mut FaultCount, kind: ErrorKind) -> Fail
    ensures grows { counted count.old.faults ≤ counted count.new.faults }
    ensures uncounted { result ≢ Fail.Failed → counted count.new.faults ≡ counted count.old.faults }
    ensures cause { result ≡ Fail.Failed → Rose (counted count.old.faults) (counted count.new.faults) }
{
    if kind == ErrorKind::OutOfMemory {
        return Fail::Memory;
    }
    count.rise();
    Fail::Failed
}

// Reads from the byte `at` on until the buffer is full or the file ends.
fn read_from<F: Read + Seek>(file: &mut F, at: u64, buf: &mut [u8]) -> io::Result<usize>
    ensures { IfOk result (λ count. count ≤ length buf.old) }
{
    file.seek(SeekFrom::Start(at))?;
    let mut count = 0;
    while count < buf.len() {
        let more = file.read(&mut buf[count..])?;
        if more == 0 {
            break;
        }
        count += more;
    }
    Ok(count)
}
