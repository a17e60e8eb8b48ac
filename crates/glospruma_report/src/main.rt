// The program: a stored table on standard input, its report on standard output (document 01, "The printed report"). What is printed is
// `report_text` of crate `report`; `main` only reads, calls and writes. Read next: specs/Printing.antt, crate `report`.
#![tactic(auto)]

ghost use Rattle.std.specs.Prelude.{◌≡◌, List, ℕ, ◌≤◌, length};
ghost use Rattle.report.specs.Answer.{text_room};
ghost use Rattle.streams.specs.Reading.{StartOf};
ghost use Rattle.glospruma_report.specs.Printing.{stored_room, WholeReport};

use report::TEXT_ROOM;

// One byte more than the longest table: a longer input isn't laid out as a table, whatever follows. As `stored_room` in specs/.
const STORED_ROOM: usize = stored::LONGEST_TABLE + 1;

// The report of an input that starts with the first `count` bytes of the room for it, into the room for the text; how many bytes it has.
fn report_of(input: &[u8], count: usize, text: &mut [u8]) -> usize
    requires input_len { length input.now ≡ stored_room }
    requires count_in_bounds { count ≤ length input.now }
    requires text_len { length text.old ≡ text_room }
    ensures by_index { (whole : List ℕ) → StartOf whole input.now count → WholeReport whole text.new result }
    ensures upper_bound { result ≤ length text.new }
{
    let written = report::write_report(&input[..count], &mut *text);
    written.length
}

fn main(rt: HostRuntime) {
    let mut input = [0u8; STORED_ROOM];
    let Ok(count) = streams::read_input(&rt, &mut input) else {
        return;
    };
    let mut text = [0u8; TEXT_ROOM];
    let length = report_of(&input, count, &mut text);
    streams::print(&rt, &text[..length]);
}
