// Replays the examples: every card file of a list goes through `reader::read_card`, and its listing is compared with the
// stored one, every byte.
//
// A line of the list is the name of a card file, a space, and the name of the file that holds its listing.
#![tactic(auto)]

use std::io;
use std::io::ErrorKind;
use std::rt::Files;
use vectors::Compared;

// What a card's listing and the one wanted come to; `at` is the example's place in the list.
// Slices: `at` is a place in the list, and not in the text.
fn beside(text: &[u8], wanted: &[u8], at: usize) -> Compared {
    let agree = text.iter().zip(wanted).take_while(|(t, w)| t == w).count();
    Compared {
        number: 0,
        at,
        function: Some(0),
        agree,
        answers: text.len(),
        due: wanted.len(),
        got: u64::from(vectors::byte(text, agree)),
        wanted: u64::from(vectors::byte(wanted, agree)),
    }
}

// Reads a card and compares its listing.
fn compared(card: &[u8], wanted: &[u8], at: usize) -> Compared {
    let mut room = [0u8; listing::LISTING_ROOM];
    let n = reader::read_card(card, &mut room);
    beside(&room[..n], wanted, at)
}

// The bytes of a file, up to a limit, or an error where its name is no text.
fn file<R: Files + Alloc>(rt: &R, name: &[u8], limit: u64) -> io::Result<Vec<u8, R::A>> {
    match str::from_utf8(name) {
        Ok(path) => vectors::load(rt, path, limit),
        Err(_) => Err(io::Error::from(ErrorKind::InvalidInput)),
    }
}

// Replays the example on the line that begins at `at`. A line with one name wants a listing of nothing.
fn replayed<R: Files + Alloc>(rt: &R, list: &[u8], at: usize) -> io::Result<Compared> {
    let name = vectors::name(list, at);
    let from = vectors::name_end(list, at).wrapping_add(1);
    let card = file(rt, name, 16385)?;
    let wanted = match list.get(from..vectors::line_end(list, at)) {
        // By hand: From has no conversion from usize to u64.
        Some(name) => file(rt, name, listing::LISTING_ROOM as u64)?,
        None => Vec::new(rt.alloc()),
    };
    Ok(compared(&card, &wanted, at))
}

fn main(rt: HostRuntime) -> io::Result<()> {
    let list = vectors::load(&rt, "examples.txt", 4096)?;
    let t = vectors::compare_all(&list, |at, _| replayed(&rt, &list, at))?;
    vectors::report(&rt, &list, &["read_card"], t)
}
