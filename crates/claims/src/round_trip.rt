// A list of items written and split again.
ghost use Rattle.claims.specs.RoundTrip.{Trip};

use items::{Counts, Error};

// Writes the items that `ends` cut out of `bytes` into `out`, and splits that text into `back` and `back_ends`.
// Where `write` accepts the list, the bytes and ends have come back. A refused call changes nothing.
pub fn write_then_split(
    bytes: &[u8],
    ends: &[usize],
    out: &mut [u8],
    back: &mut [u8],
    back_ends: &mut [usize],
) -> Result<Counts, Error>
    ensures { Trip bytes.now ends.now out.old back.old back_ends.old result out.new back.new back_ends.new }
{
    if back.len() < 4096 {
        return Err(Error::ShortBuffer);
    }
    if back_ends.len() < 256 {
        return Err(Error::ShortBuffer);
    }
    let length = item_writer::write(bytes, ends, out)?;
    items::split(&out[..length], back, back_ends)
}
