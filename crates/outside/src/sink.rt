ghost use Rattle.std.specs.Prelude.{◌≡◌, ◌≢◌, ◌≤◌, ℕ, List, Option, Err};
ghost use Rattle.outside.specs.Faults.{HasCause, HasShortage, last_count};
ghost use Rattle.outside.specs.Sink.{Writes};

use pg_types::Fail;

/// Where the replies go, as standard output.
pub trait Sink {
    /// All bytes written so far, where the sink tells them.
    ghost written: { Self → Option (List ℕ) };

    /// The faults counted so far.
    ghost fault_count: { Self → ℕ };

    /// The writes so far that found no memory. A sink that does not count them stands at the last value,
    /// which claims nothing.
    ghost short_count: { Self → ℕ };

    /// Writes all the bytes. After `Failed` a prefix of them was written, after `Memory` none.
    fn write(&mut self, bytes: &[u8]) -> Result<(), Fail>
        ensures told { Writes (written self.old) (written self.new) bytes.now result }
        ensures cause { HasCause (fault_count self.old) (fault_count self.new) result }
        ensures uncounted { result ≢ Err Fail.Failed → fault_count self.new ≡ fault_count self.old }
        ensures shortage { HasShortage (short_count self.old) (short_count self.new) result };

    /// The number of faults counted so far: at most 2^63, its last value.
    fn faults(&self) -> u64
        ensures { result ≡ fault_count self.now };

    /// No count is past its last value.
    ghost counts: { (sink : Self) → fault_count sink ≤ last_count };
}
