// Tests on bytes, and total helpers on slices.
ghost use Rattle.std.specs.Prelude.{◌≡◌, ◌&&◌, cond, ◌+◌, ◌≤◌, length, leb, eqb};
ghost use Rattle.lines.specs.Bytes.{between, blank, control, letter, digit, key_byte, header_byte, equal};
ghost use Rattle.lines.specs.Trim.{trim_start, trim_end, trimmed};
ghost use Rattle.lines.specs.Buffers.{put};

// ---- tests on a byte

// From `low` to `high`, both included.
pub fn is_between(low: u8, high: u8, b: u8) -> bool
    ensures { result ≡ between low high b }
{
    low <= b && b <= high
}

// A space or a tab.
pub fn is_blank(b: u8) -> bool
    ensures { result ≡ blank b }
{
    matches!(b, b' ' | b'\t')
}

// A control byte of a file: 00 to 1F but tab and LF, and 7F.
pub fn is_control(b: u8) -> bool
    ensures { result ≡ control b }
{
    matches!(b, 0x00..=0x08 | 0x0B..=0x1F | 0x7F)
}

pub fn is_letter(b: u8) -> bool
    ensures { result ≡ letter b }
{
    b.is_ascii_alphabetic()
}

pub fn is_digit(b: u8) -> bool
    ensures { result ≡ digit b }
{
    b.is_ascii_digit()
}

// A byte that a key may have.
pub fn is_key_byte(b: u8) -> bool
    ensures { result ≡ key_byte b }
{
    is_letter(b) || is_digit(b) || matches!(b, b'-' | b'_' | b'.')
}

// A byte that the name in a section header may have.
pub fn is_header_byte(b: u8) -> bool
    ensures { result ≡ header_byte b }
{
    is_between(0x20, 0x7E, b) && !matches!(b, b'[' | b']')
}

// ---- comparison

// Equal byte for byte.
#[tactic(auto, using(crate::proofs::Comparison::pointwise_equal))]
pub fn same(a: &[u8], b: &[u8]) -> bool
    ensures { result ≡ equal a.now b.now }
{
    a == b
}

// ---- trimming: the part of a text without the blanks at one end, or at both

pub fn trim_start(text: &[u8]) -> &[u8]
    ensures { result.now ≡ trim_start text.now }
{
    let start = text
        .iter()
        .position(|b| !is_blank(*b))
        .unwrap_or(text.len());
    &text[start..]
}

pub fn trim_end(text: &[u8]) -> &[u8]
    ensures { result.now ≡ trim_end text.now }
{
    let mut rest = text;
    while let Some((last, front)) = rest.split_last() {
        if !is_blank(*last) {
            return rest;
        }
        rest = front;
    }
    rest
}

#[tactic(auto, unfolding(crate::specs::Trim::trimmed))]
pub fn trim(text: &[u8]) -> &[u8]
    ensures { result.now ≡ trimmed text.now }
{
    trim_end(trim_start(text))
}

// ---- copies

// Puts a part into a buffer from an index on, bytes and numbers alike. Where it does not fit, nothing changes and the answer
// is false.
pub fn copy_into<T: Copy>(part: &[T], buffer: &mut [T], at: usize) -> bool
    ensures answer { result ≡ leb (at + length part.now) (length buffer.old) }
    ensures held { buffer.new ≡
        cond (leb (at + length part.now) (length buffer.old))
        (put buffer.old at part.now)
        buffer.old }
{
    if buffer.len() < at {
        return false;
    }
    if buffer.len() - at < part.len() {
        return false;
    }
    for (i, value) in part.iter().enumerate() {
        buffer[at + i] = *value;
    }
    true
}
