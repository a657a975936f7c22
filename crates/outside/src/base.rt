ghost use Rattle.std.specs.Prelude.{◌≡◌, ◌≢◌, ℕ, List, Option, Err};
ghost use Rattle.outside.specs.Archive.{Fetches, FitsIn, HaveBytes};
ghost use Rattle.outside.specs.Faults.{HasCause, IsCount};

use pg_types::Fail;

/// The folder of a base backup, each file found by its name: the description of the tables, and what
/// `pg_basebackup` writes.
pub trait BaseDir {
    /// The contents of the file of each name, where the folder tells them.
    ghost files: { Self → Option (List ℕ → Option (List ℕ)) };

    /// The faults counted so far.
    ghost fault_count: { Self → ℕ };

    /// As `fetch` of an archive: what stands in the file `name` from its byte `at` on goes to the front of
    /// `buf`, and its number of bytes is answered, or `None` exactly where there is no such file.
    fn fetch(&mut self, name: &str, at: u64, buf: &mut [u8]) -> Result<Option<usize>, Fail>
        ensures told { Fetches (files self.old) name.now at buf.new result }
        ensures fits { FitsIn buf.old result }
        ensures stays { files self.new ≡ files self.old }
        ensures cause { HasCause (fault_count self.old) (fault_count self.new) result }
        ensures uncounted { result ≢ Err Fail.Failed → fault_count self.new ≡ fault_count self.old };

    /// The number of faults counted so far: below 2^62, or 2^63, its last value.
    fn faults(&self) -> u64
        ensures { result ≡ fault_count self.now };

    /// A count has not come to its last value, or it has, and then it stands at 2^63.
    ghost counts: { (base : Self) → IsCount (fault_count base) };

    /// What the told files contain are bytes.
    ghost bytes: { (base : Self) → HaveBytes (files base) };
}
