// What the program starts from.
ghost use Rattle.std.specs.Prelude.{◌≤◌, length};
ghost use Rattle.feed_plan.specs.Meant.{Few};
ghost use Rattle.report_io.specs.Blocks.{beginning, NextLine};
ghost use Rattle.report_io.specs.Marks.{no_marks, marked_by};

use crate::input::any_line;
use crate::marks::unmarked;
use crate::{Place, Upcoming};
use feed_plan::Report;
use feed_plan::reading::reader_of;

// The first line of the script.
pub fn first_line(r: Report, blocks: &mut [u8]) -> Upcoming
    requires { Few r.stage r.lines × (131_072 ≤ length blocks.old) }
    ensures { NextLine r beginning (marked_by r (no_marks r)) blocks.old blocks.new result }
{
    let place = Place {
        at: 0,
        end: 0,
        all_read: false,
        pending: 0,
        all_written: true,
        turn: 0,
    };
    any_line(reader_of(r), place, unmarked(r), blocks)
}
