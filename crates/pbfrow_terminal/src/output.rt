//! Standard output of a command, for which the progress line makes room.

ghost use Rattle.std.specs.Prelude.{◌≡◌, false, IfOk, IfErr};

use crate::meter::Meter;
use osm_value::Outlet;
use pbfrow_reading::metered::MeteredOutput;
use pbfrow_reading::report::refuse_memory;
use std::io;
use std::io::{BufWriter, Printer};

/// Standard output in large pieces, of which a meter is told.
pub type Output<'a, 'm> = Outlet<BufWriter<MeteredOutput<'m, Printer<'a, HostRuntime>, Meter<'a>>>>;

/// Standard output, which hasn't failed. Where memory is refused, that is reported there, at this offset in bytes if there
/// is one, and the error is the exit status.
pub fn standard_output<'a, 'm>(
    rt: &'a HostRuntime,
    meter: &'m Meter<'a>,
    at: Option<u64>,
) -> Result<Output<'a, 'm>, u8>
    ensures sound { IfOk result (λ out. out.has_failed ≡ false) }
    ensures refused { IfErr result (λ status. status ≡ 1) }
{
    let output = MeteredOutput {
        writer: io::writer(rt),
        watcher: meter,
    };
    match BufWriter::new(rt.alloc(), output) {
        Ok(output) => Ok(Outlet::new(output)),
        Err(_) => Err(refuse_memory(&mut Outlet::new(io::writer(rt)), at)),
    }
}
