// A whole card file.
ghost use Rattle.std.specs.Prelude.{◌≡◌, ◌≤◌, length};
ghost use Rattle.listing.specs.Text as listing_text;
ghost use Rattle.reader.specs.Text as reader_call;

// Reads a card file: writes its listing, or the line `refused N`, to the front of `out`, and answers the text's length. What has no
// room in `out` is left out; `listing::LISTING_ROOM` bytes are room for every file.
#[unsafe(no_mangle)]
pub extern "C" fn purdolve_read_card(file: &[u8], out: &mut [u8]) -> usize
    ensures { (listing_text.text result out.new ≡ listing_text.written (reader_call.card_text file.now) (listing_text.text 0 out.old)) × (length (reader_call.card_text file.now) ≤ reader_call.listing_room) }
{
    reader::read_card(file, out)
}
