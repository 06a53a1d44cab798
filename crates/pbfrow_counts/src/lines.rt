//! The counts of elements as lines of text.

ghost use Rattle.std.specs.Prelude.{◌++◌};
ghost use Rattle.osm_value.specs.Printing.{Prints};
ghost use Rattle.pbfrow_counts.specs.Lines.{element_counts_lines, kinds_line, links_line, time_text, times_line};

use crate::elements::ElementCounts;
use osm_value::{Sink, put, put_number};
use pbfrow_reading::check::put_total;

/// Writes `nodes NODES ways WAYS relations RELATIONS`, `tags TAGS links LINKS` and `oldest TIME newest TIME`, each on a line
/// of its own. Times are in milliseconds since 1970; where no element has one, `-` stands for both.
pub fn put_element_counts<S: Sink>(out: &mut S, counts: &ElementCounts)
    ensures { Prints S.Sink out.old out.new (element_counts_lines counts.now) }
{
    put_kinds(out, counts);
    put_links(out, counts);
    put_times(out, counts);
}

fn put_kinds<S: Sink>(out: &mut S, counts: &ElementCounts)
    ensures { Prints S.Sink out.old out.new (kinds_line counts.now) }
{
    put_total(out, b"nodes ", counts.nodes);
    put_total(out, b" ways ", counts.ways);
    put_total(out, b" relations ", counts.relations);
    put(out, b"\n");
}

fn put_links<S: Sink>(out: &mut S, counts: &ElementCounts)
    ensures { Prints S.Sink out.old out.new (links_line counts.now) }
{
    put_total(out, b"tags ", counts.tags);
    put_total(out, b" links ", counts.links);
    put(out, b"\n");
}

fn put_times<S: Sink>(out: &mut S, counts: &ElementCounts)
    ensures { Prints S.Sink out.old out.new (times_line counts.now) }
{
    put_time(out, b"oldest ", counts.oldest);
    put_time(out, b" newest ", counts.newest);
    put(out, b"\n");
}

/// Writes a label and a time, or `-` where there is none.
fn put_time<S: Sink>(out: &mut S, label: &[u8], time: Option<i64>)
    ensures { Prints S.Sink out.old out.new (label.now ++ time_text time) }
{
    put(out, label);
    match time {
        Some(time) => put_number(out, time),
        None => put(out, b"-"),
    }
}
