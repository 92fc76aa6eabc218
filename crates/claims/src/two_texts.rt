// Two normal texts: that of a file and of its normal text, and those of two files.
ghost use Rattle.std.specs.Prelude.{◌≤◌, length};
ghost use Rattle.claims.specs.TwoTexts.{Twice, SetAlike};
ghost use Rattle.claims.specs.Steps.{NormalInto, Compares};

use normal_text::Sizes;
use table::Error;

// The lengths of a file's normal text, and of the normal text of that.
#[derive(Clone, Copy, Debug, PartialEq, Eq)]
pub struct Lengths {
    pub length: usize,
    pub again: usize,
}

// Which of two files is refused, and why.
#[derive(Clone, Copy, Debug, PartialEq, Eq)]
pub enum AlikeError {
    // A short buffer, or the refusal of the first file.
    First(Error),
    // The refusal of the second.
    Second(Error),
}

// The least size of the output buffers.
const OUT_BYTES: usize = 65535;

// The normal text of a file, by way of buffers of its own for the reader.
fn normal_into(file: &[u8], out: &mut [u8]) -> Result<Sizes, Error>
    ensures { NormalInto file.now out.old result out.new }
{
    let mut text = [0u8; 65535];
    let mut sections = [0usize; 128];
    let mut entries = [0usize; 2560];
    normal_text::normal_text(file, &mut text, &mut sections, &mut entries, out)
}

// The normal text of a file in `out`, and the normal text of that text in `again`. A refused call changes neither.
pub fn normal_twice(file: &[u8], out: &mut [u8], again: &mut [u8]) -> Result<Lengths, Error>
    ensures { Twice file.now out.old again.old result out.new again.new }
{
    if again.len() < OUT_BYTES {
        return Err(Error::File(lines::Error::ShortBuffer));
    }
    let first = normal_into(file, out)?;
    // Its text is never refused.
    let second = normal_into(&out[..first.length], again)?;
    Ok(Lengths {
        length: first.length,
        again: second.length,
    })
}

// The normal text of the second file, and whether `text`, that of the first, is the same. `text` then goes into `out`.
fn compare_other(
    text: &[u8],
    other: &[u8],
    out: &mut [u8],
    other_out: &mut [u8],
) -> Result<bool, AlikeError>
    requires { (length text.now ≤ length out.old) × (65535 ≤ length other_out.old) }
    ensures { Compares text.now other.now out.old other_out.old result out.new other_out.new }
{
    match normal_into(other, other_out) {
        Ok(sizes) => {
            lines::copy_into(text, out, 0);
            Ok(lines::same(text, &other_out[..sizes.length]))
        }
        Err(e) => Err(AlikeError::Second(e)),
    }
}

// Whether two files hold the same sections with the same entries in order, which is told by their normal texts: the first's
// in `out`, the second's in `other_out`. A refused call changes neither.
pub fn set_alike(
    file: &[u8],
    other: &[u8],
    out: &mut [u8],
    other_out: &mut [u8],
) -> Result<bool, AlikeError>
    ensures { SetAlike file.now other.now out.old other_out.old result out.new other_out.new }
{
    if out.len() < OUT_BYTES {
        return Err(AlikeError::First(Error::File(lines::Error::ShortBuffer)));
    }
    if other_out.len() < OUT_BYTES {
        return Err(AlikeError::First(Error::File(lines::Error::ShortBuffer)));
    }
    let mut text = [0u8; OUT_BYTES];
    match normal_into(file, &mut text) {
        Ok(sizes) => compare_other(&text[..sizes.length], other, out, other_out),
        Err(e) => Err(AlikeError::First(e)),
    }
}
