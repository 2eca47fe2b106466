// The report, written in blocks.
ghost use Rattle.std.specs.Prelude.{◌≡◌, ◌+◌, ◌<◌, ◌≤◌, length};
ghost use Rattle.text.specs.Buffers.{Put};
ghost use Rattle.feed_plan.specs.Steps.{next_text};
ghost use Rattle.report_io.specs.Blocks.{Within, Roomy, pending_text, Printable, printed_as, written_as, takes_lines, Passed, EndWritten};

use crate::input::{last, next_line};
use crate::marks::{lines_ahead, marked_by, place_after, reader_after, unmarked};
use crate::{BLOCK, Place, Upcoming};
use feed_plan::saying::put_text;
use feed_plan::{Next, Report, Stage};
use text::STDOUT_FILENO;

// What is still to be written.
fn pending_part(p: Place, blocks: &[u8]) -> &[u8]
    requires { Within p × (131_072 ≤ length blocks.now) }
    ensures { result.now ≡ pending_text p blocks.now }
{
    &blocks[BLOCK..BLOCK + p.pending]
}

// The pending bytes go to standard output, where more than `most` are pending.
fn written(p: Place, most: usize, blocks: &[u8]) -> Place
    requires { Within p × (most ≤ 65_248) × (131_072 ≤ length blocks.now) }
    ensures { Roomy result × (result ≡ written_as most p result.all_written) }
{
    if p.pending <= most {
        return p;
    }
    Place {
        pending: 0,
        all_written: io::write_all(STDOUT_FILENO, pending_part(p, blocks)),
        ..p
    }
}

// What the line prints is put behind what is pending.
fn said(p: Place, next: Next, blocks: &mut [u8]) -> Place
    requires { Roomy p × (p.turn < 1_000_000_000_001) × Printable next × (131_072 ≤ length blocks.old) }
    ensures { Within result × (result ≡ printed_as (length (next_text next)) p) × Put blocks.old (65_536 + p.pending) (next_text next) blocks.new (65_536 + result.pending) }
{
    let n = put_text(next, &mut blocks[BLOCK + p.pending..]);
    Place {
        pending: p.pending + n,
        turn: p.turn + 1,
        ..p
    }
}

#[tactic(auto, unfolding(crate::specs::Blocks::takes_lines))]
fn takes_lines(r: Report) -> bool
    ensures { result ≡ takes_lines r.stage }
{
    matches!(&r.stage, Stage::Heads | Stage::Calls)
}

// After a line: what it prints, the lines `retired=` behind it, and the line that follows, where one does.
pub fn pass(u: Upcoming, next: Next, blocks: &mut [u8]) -> Upcoming
    requires { Roomy u.place × (u.place.turn < 1_000_000_000_001) × Printable next × (131_072 ≤ length blocks.old) }
    ensures { Passed u next blocks.old blocks.new result }
{
    let after = said(u.place, next, blocks);
    let p = written(after, BLOCK - 288, blocks);
    if !p.all_written || !takes_lines(next.report) {
        return last(p, unmarked(next.report));
    }
    let ahead = lines_ahead(next.report, p, blocks);
    let marked = marked_by(next.report, ahead);
    next_line(
        reader_after(next.report, marked),
        place_after(p, ahead),
        marked,
        blocks,
    )
}

// What is pending, and then what stands at the report's end: the buffer's first n bytes. The number of those that are written.
pub fn write_end(u: Upcoming, blocks: &[u8], n: usize) -> usize
    requires { Roomy u.place × (n ≤ 400) × (131_072 ≤ length blocks.now) }
    ensures { EndWritten n result }
{
    let p = written(u.place, 0, blocks);
    if p.all_written && io::write_all(STDOUT_FILENO, &blocks[..n]) {
        n
    } else {
        0
    }
}
