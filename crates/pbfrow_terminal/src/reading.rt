//! The commands that only read a file: they open it, and write the answer to standard output.

ghost use Rattle.std.specs.Prelude.{◌<◌, ◌≤◌};

use crate::ending::end;
use crate::meter::Meter;
use crate::output::standard_output;
use osm_value::Outlet;
use pbfrow_reading::check::check;
use pbfrow_reading::input::refuse_input;
use pbfrow_reading::list::list;
use pbfrow_reading::metered::MeteredReader;
use pbfrow_reading::ranges::ranges;
use pbfrow_reading::show::show;
use pbfrow_words::Reading;
use std::alloc::Global;
use std::fs::File;
use std::io::{Read, Write};

/// `ranges`: cuts a file into ranges, at most so many, and answers the exit status.
pub fn cut_file(rt: &HostRuntime, file: &str, count: u64) -> u8
    requires { 0 < count }
    ensures { result ≤ 1 }
{
    let meter = Meter::new(rt, true);
    let mut out = match standard_output(rt, &meter, Some(0)) {
        Ok(out) => out,
        Err(status) => return status,
    };
    let status = match File::open(rt, file) {
        Ok(input) => {
            meter.measure(&input);
            let mut input = MeteredReader {
                reader: input,
                watcher: &meter,
            };
            ranges(rt.alloc(), &mut input, count, &mut out)
        }
        Err(_) => refuse_input(&mut out),
    };
    end(&mut out, &meter, status)
}

/// `list`, `check` and `show`: reads the file of this name, or where there is none standard input, and answers the exit status.
pub fn read_file(rt: &HostRuntime, reading: Reading, file: Option<&str>) -> u8
    ensures { result ≤ 1 }
{
    let meter = Meter::new(rt, reading == Reading::Check);
    let mut out = match standard_output(rt, &meter, Some(0)) {
        Ok(out) => out,
        Err(status) => return status,
    };
    let status = match file {
        None => read_with(rt.alloc(), reading, &mut rt.stdin(), &meter, &mut out),
        Some(name) => match File::open(rt, name) {
            Ok(mut file) => {
                meter.measure(&file);
                read_with(rt.alloc(), reading, &mut file, &meter, &mut out)
            }
            Err(_) => refuse_input(&mut out),
        },
    };
    end(&mut out, &meter, status)
}

fn read_with<R: Read, W: Write>(
    alloc: Global,
    reading: Reading,
    input: &mut R,
    meter: &Meter,
    out: &mut Outlet<W>,
) -> u8
    ensures { result ≤ 1 }
{
    let mut input = MeteredReader {
        reader: input,
        watcher: meter,
    };
    match reading {
        Reading::List => list(alloc, &mut input, out),
        Reading::Check => check(alloc, &mut input, meter, out),
        Reading::Show => show(alloc, &mut input, out),
    }
}
