ghost use Rattle.std.specs.Prelude.{◌≡◌, ◌≢◌, ℕ, List, Option, Err};
ghost use Rattle.outside.specs.Faults.{HasCause, IsCount};
ghost use Rattle.outside.specs.Source.{Counts, Gives, HasBytes, IsTaken};

use pg_types::Fail;

/// Where the lines of a session come from, as standard input.
pub trait Source {
    /// The bytes that are still to come, up to the end, where the source tells them.
    ghost rest: { Self → Option (List ℕ) };

    /// How many bytes were read so far.
    ghost taken_count: { Self → ℕ };

    /// The faults counted so far.
    ghost fault_count: { Self → ℕ };

    /// Reads some of the next bytes into the front of `buf`, and answers how many: none only at the end, or where the
    /// buffer is empty. A read that would take the number of bytes read so far past 2^62 answers `Failed`. After an
    /// error no byte is lost, and nothing is known of `buf`.
    fn read(&mut self, buf: &mut [u8]) -> Result<usize, Fail>
        ensures told { Gives (rest self.old) (rest self.new) buf.new result }
        ensures counted { Counts (taken_count self.old) (taken_count self.new) buf.old result }
        ensures cause { HasCause (fault_count self.old) (fault_count self.new) result }
        ensures uncounted { result ≢ Err Fail.Failed → fault_count self.new ≡ fault_count self.old };

    /// The number of bytes read so far: at most 2^62.
    fn taken(&self) -> u64
        ensures { result ≡ taken_count self.now };

    /// The number of faults counted so far: below 2^62, or 2^63, its last value.
    fn faults(&self) -> u64
        ensures { result ≡ fault_count self.now };

    /// A count has not come to its last value, or it has, and then it stands at 2^63.
    ghost counts: { (source : Self) → IsCount (fault_count source) };

    /// No more than 2^62 bytes are read.
    ghost within: { (source : Self) → IsTaken (taken_count source) };

    /// What is told are bytes.
    ghost bytes: { (source : Self) → HasBytes (rest source) };
}
