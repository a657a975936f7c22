ghost use Rattle.std.specs.Prelude.{◌≡◌, ◌≢◌, ◌≤◌, ℕ, Option, Err};
ghost use Rattle.outside.specs.Faults.{HasCause, last_count};
ghost use Rattle.outside.specs.Log.{EndsAtLimit, FitsLog, GivesBytes};

use pg_types::{Fail, Lsn, Tli};

/// The bytes of a write-ahead log by position, whatever files or streams they come from.
pub trait LogBytes {
    /// The byte at each position, where the log tells its bytes. A position may have no told byte.
    ghost told: { Self → Option (ℕ → Option ℕ) };

    /// The timeline to which each position belongs.
    ghost owner_of: { Self → ℕ → ℕ };

    /// The faults counted so far.
    ghost fault_count: { Self → ℕ };

    /// Two states of one log, which still stands on the same parts of its owner. What a log borrows is
    /// known to its owner afterwards only where each call on the log ensures this.
    ghost same: { Self → Self → Type 0 };

    /// Puts bytes from the position `at` on into the front of `buf`, and answers their number, at most
    /// the buffer's length. Into a buffer that is not empty it is 0 exactly where the byte at `at` is
    /// not told; else it may be any number of the bytes that are told in a row. No byte at or past 2^63
    /// is given. After an error nothing is known of `buf`.
    fn bytes_at(&mut self, at: Lsn, buf: &mut [u8]) -> Result<usize, Fail>
        ensures bytes { GivesBytes (told self.old) at.0 buf.new result }
        ensures fits { FitsLog at.0 buf.old result }
        ensures same { same self.old self.new }
        ensures stays { told self.new ≡ told self.old }
        ensures same_owner { owner_of self.new ≡ owner_of self.old }
        ensures cause { HasCause (fault_count self.old) (fault_count self.new) result }
        ensures uncounted { result ≢ Err Fail.Failed → fault_count self.new ≡ fault_count self.old };

    /// The timeline of the position.
    fn owner(&self, at: Lsn) -> Tli
        ensures { result.0 ≡ owner_of self.now at.0 };

    /// The number of faults counted so far: at most 2^63, its last value.
    fn faults(&self) -> u64
        ensures { result ≡ fault_count self.now };

    /// No count is past its last value.
    ghost counts: { (log : Self) → fault_count log ≤ last_count };

    /// A state is of its own log, and what is so over one call and the next is so over both.
    ghost same_self: { (log : Self) → same log log };

    ghost same_later: { (first then last : Self) → same first then → same then last → same first last };

    /// No byte at or past 2^63 is told.
    ghost ends: { (log : Self) → EndsAtLimit (told log) };
}
