// The standard streams, for programs: input read to its end, where a read that fails isn't taken for the end, and output, where a write that fails is
// said on standard error. No contract can say what is read or written. Read next: the programs, crates `glospruma_report` and `pla_to_table`.
#![tactic(auto)]

ghost use Rattle.streams.specs.Reading.{ReadInto};

use std::io::{self, Print, Read};

// Reads standard input to the front of the room, until it ends or the room is full, and says how many bytes these are. A read that fails is said on
// standard error.
pub fn read_input(rt: &HostRuntime, room: &mut [u8]) -> io::Result<usize>
    ensures { ReadInto result room.new }
{
    let mut input = rt.stdin();
    let mut count = 0;
    // A `while`, since each read says how many bytes came: std reads to the end of input only to the heap.
    while count < room.len() {
        match input.read(&mut room[count..]) {
            Ok(0) => break,
            Ok(more) => count += more,
            Err(error) => {
                complain(rt, b"standard input can't be read\n");
                return Err(error);
            }
        }
    }
    Ok(count)
}

// Writes bytes to standard output, and says on standard error if that fails.
pub fn print(rt: &HostRuntime, bytes: &[u8]) {
    if rt.stdout().write_all(bytes).is_err() {
        complain(rt, b"standard output can't be written\n");
    }
}

// Writes a message to standard error. Where that fails there is nobody left to tell.
pub fn complain(rt: &HostRuntime, message: &[u8]) {
    let _ = rt.stderr().write_all(message);
}
