// Reads a card file from standard input and writes its listing, or the one line `refused N`, to standard output.
//
// No contract can say what is read or written. `main` hands what was read to `listed`, whose contract says what text a file
// is read as, and writes that text and nothing else, in one piece at the end.
#![tactic(auto)]

ghost use Rattle.std.specs.Prelude.{◌≡◌, ◌≤◌, length};
ghost use Rattle.reader.specs.Text.{card_text, listing_room};

use std::io;
use std::io::{Read, Write};

// The text of a card file, whole, which stands at the start of `room`.
fn listed<'a>(file: &[u8], room: &'a mut [u8]) -> &'a [u8]
    requires { listing_room ≤ length room.old }
    ensures { result.now ≡ card_text file.now }
{
    let n = reader::read_card(file, room);
    &room[..n]
}

// At most 16,385 bytes are read, one more than a card file may have, so that a longer one is seen to be too long.
fn main(rt: HostRuntime) -> io::Result<()> {
    let mut file = Vec::new(rt.alloc());
    rt.reader().take(16385).read_to_end(&mut file)?;
    let mut room = [0u8; listing::LISTING_ROOM];
    io::writer(&rt).write_all(listed(&file, &mut room))
}
