// The script, read in blocks.
ghost use Rattle.std.specs.Prelude.{◌≡◌, true, ◌+◌, ◌<◌, ◌≤◌, length};
ghost use Rattle.state.specs.declared.Sched.{Sched};
ghost use Rattle.feed_plan.specs.Meant.{Few};
ghost use Rattle.feed_plan.specs.Feeding.{report_of};
ghost use Rattle.report_io.specs.Blocks.{Within, Roomy, no_line, brought_front, Refilled, Filled, LineEnd, TickAhead, tick_line, NextLine};

use crate::{BLOCK, MAX_TURNS, Marked, Place, Upcoming};
use feed_plan::reading::read_piece;
use feed_plan::{Line, Reader, Stage};
use sched::Call;
use text::STDIN_FILENO;
use text::lines::{is_same, piece_end};

// The n bytes from `at` on go to the front.
fn move_rest(blocks: &mut [u8], at: usize, n: usize)
    requires { at + n ≤ length blocks.old }
    ensures { blocks.new ≡ brought_front at n blocks.old }
{
    blocks.copy_within(at..at + n, 0);
}

// The rest of the block goes to the front, and more of the script behind it.
fn refill(blocks: &mut [u8], at: usize, end: usize) -> usize
    requires { (at ≤ end) × (end ≤ 65_536) × (131_072 ≤ length blocks.old) }
    ensures { Refilled at end blocks.old blocks.new result }
{
    let rest = end - at;
    move_rest(blocks, at, rest);
    rest + io::read_full(STDIN_FILENO, &mut blocks[rest..BLOCK])
}

// A line's length and one byte more stand in the block, or the script's end.
fn filled(p: Place, blocks: &mut [u8]) -> Place
    requires { Roomy p × (131_072 ≤ length blocks.old) }
    ensures { Filled p blocks.old blocks.new result }
{
    if p.all_read {
        return p;
    }
    if p.end - p.at > 256 {
        return p;
    }
    let end = refill(blocks, p.at, p.end);
    Place {
        at: 0,
        end,
        all_read: end < BLOCK,
        ..p
    }
}

// Past the line's byte 10. A line that is too long is given up at its 257th byte.
fn line_end(blocks: &[u8], at: usize, end: usize) -> usize
    requires { (at < end) × (end ≤ 65_536) × (131_072 ≤ length blocks.now) }
    ensures { LineEnd at end blocks.now result }
{
    let most = (at + 257).min(end);
    piece_end(&blocks[..most], at)
}

// No line follows.
pub fn last(p: Place, marked: Marked) -> Upcoming
    requires { Roomy p }
    ensures { Roomy result.place × (result ≡ no_line p marked) }
{
    Upcoming {
        line: Ok(Line::Nothing),
        place: Place {
            turn: MAX_TURNS,
            ..p
        },
        marked,
    }
}

// The next line, where one follows.
pub fn any_line(k: Reader, before: Place, marked: Marked, blocks: &mut [u8]) -> Upcoming
    requires { Few k.stage k.lines × Roomy before × (131_072 ≤ length blocks.old) }
    ensures { (s : Sched) → NextLine (report_of k s) before marked blocks.old blocks.new result }
{
    let p = filled(before, blocks);
    if p.at >= p.end {
        return last(p, marked);
    }
    let stop = line_end(blocks, p.at, p.end);
    Upcoming {
        line: read_piece(k, &blocks[p.at..stop]),
        place: Place { at: stop, ..p },
        marked,
    }
}

// Whether the next line is `tick=`, and nothing more has to be read of the script before it is taken.
fn is_tick(k: Reader, p: Place, blocks: &[u8]) -> bool
    requires { Within p × (131_072 ≤ length blocks.now) }
    ensures { result ≡ true → TickAhead k p blocks.now }
{
    p.end - p.at > 256
        && k.lines < 1_000_000_000_000
        && matches!(&k.stage, Stage::Calls)
        && is_same(&blocks[p.at..p.at + 6], b"tick=\n")
}

fn tick_line(p: Place, marked: Marked) -> Upcoming
    requires { p.at ≤ 65_536 }
    ensures { result ≡ tick_line p marked }
{
    Upcoming {
        line: Ok(Line::Call(Call::EndTick)),
        place: Place { at: p.at + 6, ..p },
        marked,
    }
}

// The next line again. A line `tick=`, the most frequent one beside `retired=`, is told at once.
pub fn next_line(k: Reader, before: Place, marked: Marked, blocks: &mut [u8]) -> Upcoming
    requires { Few k.stage k.lines × Roomy before × (131_072 ≤ length blocks.old) }
    ensures { (s : Sched) → NextLine (report_of k s) before marked blocks.old blocks.new result }
{
    if is_tick(k, before, blocks) {
        return tick_line(before, marked);
    }
    any_line(k, before, marked, blocks)
}
