// What a line says, but for its end. It is put together without `write!`, whose contract does not say when it succeeds, in a text
// that is lent, so that it is copied once.
ghost use Rattle.std.specs.Prelude.{◌≡◌, [], ◌+◌, ◌<◌, ◌≤◌, ◌++◌, length, codes};
ghost use Rattle.site.specs.Words.{place_text};
ghost use Rattle.lines.specs.Lines.{row_limit, verdict_text, call_report_text};

use crate::{ITEMS, Verdict};
use arrayvec::ArrayString;
use astar::refusal::CallReport;
use itoa::{Buffer, Integer};
use site::refusal::Place;

// Appends the number, in decimal digits. That there is room is asked: how much a text has is no part of its type.
fn append_number<I: Integer>(text: &mut ArrayString<ITEMS>, number: I)
    requires { length text.old.bytes + I.MAX_STR_LEN < row_limit }
    ensures bytes { text.new.bytes ≡ text.old.bytes ++ I.text number }
    ensures short { length text.new.bytes ≤ length text.old.bytes + I.MAX_STR_LEN }
{
    text.push_str(Buffer::new().format(number));
}

// Writes a word and a number after it.
pub(crate) fn write_count<I: Integer>(text: &mut ArrayString<ITEMS>, word: &str, number: I)
    requires empty { text.old.bytes ≡ [] }
    requires room { length word.now + I.MAX_STR_LEN < row_limit }
    ensures { text.new.bytes ≡ word.now ++ I.text number }
{
    text.push_str(word);
    append_number(text, number);
}

// Writes what the visit ends with.
pub(crate) fn write_verdict(text: &mut ArrayString<ITEMS>, verdict: Verdict)
    requires { text.old.bytes ≡ [] }
    ensures { text.new.bytes ≡ codes "verdict " ++ verdict_text verdict }
{
    text.push_str("verdict ");
    text.push_str(verdict.word());
}

// Writes the refusal of a call. One of the planner's own has the layer `planner` and the place 0.
pub(crate) fn write_report(text: &mut ArrayString<ITEMS>, report: CallReport)
    requires { text.old.bytes ≡ [] }
    ensures { text.new.bytes ≡ call_report_text report }
{
    text.push_str("refused ");
    match report {
        CallReport::File(report) => {
            append_number(text, report.number);
            text.push(' ');
            text.push_str(report.layer.word());
            text.push(' ');
            append_place(text, report.place);
        }
        CallReport::Own(number) => {
            append_number(text, number);
            text.push_str(" planner 0");
        }
    }
}

// Appends the place, of at most 20 bytes: an offset, or a factor, two facts and a label.
fn append_place(text: &mut ArrayString<ITEMS>, place: Place)
    requires { length text.old.bytes + 20 < row_limit }
    ensures { text.new.bytes ≡ text.old.bytes ++ place_text place }
{
    match place {
        Place::Offset(offset) => append_number(text, offset),
        Place::Facts {
            factor,
            a,
            b,
            label,
        } => {
            append_number(text, factor);
            text.push(' ');
            append_number(text, a);
            text.push(' ');
            append_number(text, b);
            text.push(' ');
            append_number(text, label);
        }
    }
}
