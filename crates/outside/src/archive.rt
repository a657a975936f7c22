ghost use Rattle.std.specs.Prelude.{◌≡◌, ◌≢◌, ℕ, List, Option, Err};
ghost use Rattle.outside.specs.Archive.{Fetches, FitsIn, HaveBytes};
ghost use Rattle.outside.specs.Faults.{HasCause, IsCount};

use pg_types::Fail;

/// A folder of archived log segments and history files, each found by its name.
pub trait Archive {
    /// The contents of the file of each name, where the archive tells them.
    ghost files: { Self → Option (List ℕ → Option (List ℕ)) };

    /// The faults counted so far.
    ghost fault_count: { Self → ℕ };

    /// Reads the file `name` from its byte `at` on into the front of `buf`, and answers the number of
    /// bytes read: as many as stand there, at most the buffer's length. `None` is an absent file.
    /// After an error nothing is known of `buf`.
    fn fetch(&mut self, name: &str, at: u64, buf: &mut [u8]) -> Result<Option<usize>, Fail>
        ensures told { Fetches (files self.old) name.now at buf.new result }
        ensures fits { FitsIn buf.old result }
        ensures stays { files self.new ≡ files self.old }
        ensures cause { HasCause (fault_count self.old) (fault_count self.new) result }
        ensures uncounted { result ≢ Err Fail.Failed → fault_count self.new ≡ fault_count self.old };

    /// The number of faults counted so far: below 2^62, or 2^63, its last value.
    fn faults(&self) -> u64
        ensures { result ≡ fault_count self.now };

    /// A count has not come to its last value, or it has, and then it stands at 2^63.
    ghost counts: { (archive : Self) → IsCount (fault_count archive) };

    /// What the told files contain are bytes.
    ghost bytes: { (archive : Self) → HaveBytes (files archive) };
}
