// The check of a whole file, before its lines are read.
ghost use Rattle.std.specs.Prelude.{◌≡◌, ◌≤◌, length, take, ltb, false};
ghost use Rattle.lines.specs.Bytes.{control, any};
ghost use Rattle.lines.specs.Files.{size, line_at, first_control, checked_bytes, checked_file, check_means};

use crate::bytes::is_control;
use crate::error::Error;
use crate::utf8::well_formed_length;

// The most bytes that are tested at once for a control byte.
const PART: usize = 1024;

// More than 65,535 bytes, where a file that is not empty and does not end in LF counts one more.
#[tactic(auto, using(crate::proofs::FileLaws::size_below, crate::proofs::FileLaws::size_over, crate::proofs::FileLaws::size_at))]
fn too_long(file: &[u8]) -> bool
    ensures { result ≡ ltb 65535 (size file.now) }
{
    if file.len() < 65535 {
        return false;
    }
    if 65535 < file.len() {
        return true;
    }
    file[65534] != b'\n'
}

// The line in which an offset lies, counted from 1.
fn line_at(offset: usize, file: &[u8]) -> usize
    requires { offset ≤ length file.now }
    ensures { result ≡ line_at offset file.now }
{
    1 + file[..offset].iter().filter(|b| **b == b'\n').count()
}

// Whether a text has a control byte. It does not stop at the first one: so the compiler can take many bytes at a time.
fn has_control(text: &[u8]) -> bool
    ensures { result ≡ any control text.now }
{
    text.iter().fold(false, |found, &b| found | is_control(b))
}

// How many bytes at the start of a file lie in parts without a control byte.
fn clean_parts(file: &[u8]) -> usize
    ensures inside { result ≤ length file.now }
    ensures clean { any control (take result file.now) ≡ false }
{
    let mut at = 0;
    while at < file.len() {
        let end = at + PART.min(file.len() - at);
        if has_control(&file[at..end]) {
            return at;
        }
        at = end;
    }
    at
}

// The offset of the first control byte, or the length where there is none.
fn first_control(file: &[u8]) -> usize
    ensures { result ≡ first_control file.now }
{
    let at = clean_parts(file);
    match file[at..].iter().position(|b| is_control(*b)) {
        Some(i) => at + i,
        None => file.len(),
    }
}

// The bytes of a file: first UTF-8, then control bytes, each over the whole file.
fn check_bytes(file: &[u8]) -> Result<(), Error>
    ensures { check_means result ≡ checked_bytes file.now }
{
    let end = well_formed_length(file);
    if end < file.len() {
        return Err(Error::NotUtf8(line_at(end, file)));
    }
    let first = first_control(file);
    if first < file.len() {
        return Err(Error::ControlByte(line_at(first, file)));
    }
    Ok(())
}

// What is judged of a whole file: its size, UTF-8, control bytes.
#[tactic(auto, unfolding(crate::specs::Files::checked_file))]
pub fn check_file(file: &[u8]) -> Result<(), Error>
    ensures { check_means result ≡ checked_file file.now }
{
    if too_long(file) {
        return Err(Error::FileTooLong);
    }
    check_bytes(file)
}
