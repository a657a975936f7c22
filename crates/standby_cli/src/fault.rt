ghost use Rattle.std.specs.Prelude.{◌≡◌, ◌⊎◌, ◌≤◌};
ghost use Rattle.outside.specs.Faults.{Rose};
ghost use Rattle.run_model.specs.Leaves.{AppendsUnless};

use outside::Sink;

/// Writes the line of a fault, and gives its status. The first fault decides, so the status stands even
/// where its line cannot be written.
pub fn write_fault<O: Sink>(status: u8, line: &[u8], out: &mut O) -> u8
    ensures status { result ≡ status }
    ensures written { AppendsUnless
        (Rose (O.fault_count out.old) (O.fault_count out.new) ⊎ Rose (O.short_count out.old) (O.short_count out.new))
        (O.written out.old) (O.written out.new) line.now }
    ensures faults { O.fault_count out.old ≤ O.fault_count out.new }
    ensures shortages { O.short_count out.old ≤ O.short_count out.new }
{
    let _ = out.write(line);
    status
}
