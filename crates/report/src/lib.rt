// The printed report of a stored table, written into lent bytes. Read next: specs/Report.antt.
#![tactic(auto)]

ghost use Rattle.std.specs.Prelude.{◌≡◌, length};
ghost use Rattle.table.specs.Answers.{settled};
ghost use Rattle.text.specs.Writing.{HasRoom, Wrote, Fits, with_text};
ghost use Rattle.report.specs.Report.{report_text};
ghost use Rattle.report.specs.Answer.{text_room, refused_report, report_answer, report_after};

use table::{Answer, MAX_POINTS, Refusal};
use text::Writer;

// Room enough for every report, as `text_room` in specs/: at most 4,096 points of 5 bytes, or 62 products of at most 6 factors of 12 variables.
pub const TEXT_ROOM: usize = 24576;

// What writing a report gives: the refusal or 0, and how many bytes are written. C reads the refusal as its number.
#[repr(C)]
#[derive(Clone, Copy)]
pub struct ReportWritten {
    pub refusal: u8,
    pub length: usize,
}

impl Answer for ReportWritten {
    ghost refused_with = { refused_report };

    fn refused(refusal: Refusal) -> ReportWritten {
        ReportWritten {
            refusal: refusal.number(),
            length: 0,
        }
    }
}

// The report of the bytes of a stored table.
fn report_text(out: &mut Writer<'_>, bytes: &[u8])
    requires { Fits out.old (report_text bytes.now) }
    ensures { out.new ≡ with_text out.old (report_text bytes.now) }
{
    let mut on = [0u16; MAX_POINTS];
    let mut free = [0u16; MAX_POINTS];
    match stored::try_read(bytes, &mut on, &mut free) {
        Ok(read) => table_report::table_text(
            out,
            read.variables,
            &on[..read.on_count],
            &free[..read.free_count],
        ),
        Err(refusal) => lines::fault_line(out, refusal.number(), refusal.place()),
    }
}

// The same at the front of lent bytes; how many bytes the report has.
#[tactic(auto, unfolding(text::specs::Writing::with_text))]
fn report_at_front(bytes: &[u8], room: &mut [u8]) -> usize
    requires { HasRoom room.old 0 (report_text bytes.now) }
    ensures { Wrote room.old 0 (report_text bytes.now) room.new result }
{
    let mut out = Writer::new(&mut *room, 0);
    report_text(&mut out, bytes);
    out.place()
}

// Bytes enough for every report; what they hold is of no account. The contract gives only the length, which lending the array needs.
fn text_room() -> [u8; TEXT_ROOM]
    ensures { length result ≡ text_room }
{
    [0; TEXT_ROOM]
}

// The report of the bytes of a stored table, copied to the front of the room, or that the room is too short for it.
fn try_report(bytes: &[u8], room: &mut [u8]) -> Result<ReportWritten, Refusal>
    ensures value { settled refused_report result ≡ report_answer bytes.now room.old }
    ensures room_after { room.new ≡ report_after bytes.now room.old }
{
    let mut text = text_room();
    let length = report_at_front(bytes, &mut text);
    if room.len() < length {
        return Err(Refusal::Room);
    }
    room[..length].copy_from_slice(&text[..length]);
    Ok(ReportWritten { refusal: 0, length })
}

// The report of the bytes of a stored table, at the front of the room. Refusal 7.
pub fn write_report(bytes: &[u8], room: &mut [u8]) -> ReportWritten
    ensures value { result ≡ report_answer bytes.now room.old }
    ensures room_after { room.new ≡ report_after bytes.now room.old }
{
    table::settle(try_report(bytes, room))
}
