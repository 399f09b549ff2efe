// What was found is written, line by line.

ghost use Rattle.std.specs.Prelude.{List, ℕ};
ghost use Rattle.std.specs.List.{concat};
ghost use Rattle.sol_outside.specs.Causes.{Puts};
ghost use Rattle.sol_driver.specs.Told.{Tells};

use chc_nums::Name;
use sol_outside::{Sink, SinkFault};

fn put_line<K: Sink>(line: &Name, out: &mut K) -> Result<(), SinkFault>
    ensures { Puts (K.faults out.old) (K.faults out.new) (K.written out.old) (K.written out.new) line.now result }
{
    out.put(line.as_str().as_bytes())
}

/// Puts one line after another, and stops at the first that fails.
pub fn tell<K: Sink>(lines: &[Name], out: &mut K) -> Result<(), SinkFault>
    ensures { Tells (K.faults out.old) (K.faults out.new) (K.written out.old) (K.written out.new) (concat lines.now) result }
{
    for line in lines {
        match put_line(line, out) {
            Ok(()) => {}
            Err(fault) => return Err(fault),
        }
    }
    Ok(())
}
