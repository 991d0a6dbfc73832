// The lines that a visit prints, each written into a row of bytes.
#![tactic(auto)]

ghost use Rattle.std.specs.Prelude.{◌≡◌, [], ◌<◌, ◌≤◌, ◌++◌, length, drop};
ghost use Rattle.lines.specs.Lines.{row_limit, verdict_text, items_text, line_text};

mod items;

use arrayvec::ArrayString;
use astar::refusal::CallReport;
use items::{write_count, write_report, write_verdict};

// How many bytes a row has: no line is longer.
pub const ROW: usize = 64;

// How many bytes a line has before its end, at most.
const ITEMS: usize = ROW - 1;

// What a visit ends with. A planner's word says so too, and names an entry besides; a line needs no planner.
#[derive(Clone, Copy, Debug, PartialEq, Eq)]
pub enum Verdict {
    // A plan was found.
    Plan,
    // There is no plan.
    NoPlan,
    // There was no room to go on.
    Full,
}

impl Verdict {
    // The word for the verdict.
    fn word(self) -> &'static str
        ensures { result.now ≡ verdict_text self }
    {
        match self {
            Verdict::Plan => "plan",
            Verdict::NoPlan => "none",
            Verdict::Full => "full",
        }
    }
}

// A line of the answer. It has no `Display`, for the reason in `items`.
#[derive(Clone, Copy, Debug, PartialEq, Eq)]
pub enum Line {
    Verdict(Verdict),
    // What the plan costs.
    Cost(u32),
    // A label of the plan.
    Step(u8),
    // How many entries were taken.
    Taken(u32),
    // How many entries are held.
    Entries(usize),
    // How many labels made a step.
    Tried(u32),
    // Why a call is refused.
    Refused(CallReport),
}

impl Line {
    // Writes the line at the start of the row, leaves the rest of it, and says how long the line is.
    pub fn write(self, row: &mut [u8; ROW]) -> usize
        ensures size { result ≡ length (line_text self) }
        ensures fits { result ≤ row_limit }
        ensures bytes { row.new ≡ line_text self ++ drop (length (line_text self)) row.old }
    {
        let mut items = ArrayString::new();
        self.write_items(&mut items);
        let end = items.len();
        row[end] = b'\n';
        row[..end].copy_from_slice(items.as_bytes());
        end + 1
    }

    // Writes what the line says, but for its end, into a text that is empty.
    fn write_items(self, text: &mut ArrayString<ITEMS>)
        requires { text.old.bytes ≡ [] }
        ensures { text.new.bytes ≡ items_text self }
    {
        match self {
            Line::Verdict(verdict) => write_verdict(text, verdict),
            Line::Cost(cost) => write_count(text, "cost ", cost),
            Line::Step(label) => write_count(text, "step ", label),
            Line::Taken(taken) => write_count(text, "taken ", taken),
            Line::Entries(entries) => write_count(text, "entries ", entries),
            Line::Tried(tried) => write_count(text, "tried ", tried),
            Line::Refused(report) => write_report(text, report),
        }
    }
}
