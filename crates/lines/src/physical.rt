// Physical lines: where they end, which are comments, which are continued.
ghost use Rattle.std.specs.Prelude.{◌≡◌};
ghost use Rattle.lines.specs.Lines.{comment, continued};
ghost use Rattle.lines.specs.LineSteps.{line_length};

// How many bytes stand before the first LF, all of them where there is none.
pub fn line_length(text: &[u8]) -> usize
    ensures { result ≡ line_length text.now }
{
    text.iter().position(|b| *b == b'\n').unwrap_or(text.len())
}

// Whether a line is a comment, by its bytes or by the bytes from its start on.
pub fn is_comment(text: &[u8]) -> bool
    ensures { result ≡ comment text.now }
{
    let Some(first) = text.first() else {
        return false;
    };
    matches!(*first, b'#' | b';')
}

// Whether the closing run of backslashes is odd. It goes over the run from the end.
pub fn is_continued(line: &[u8]) -> bool
    ensures { result ≡ continued line.now }
{
    let mut rest = line;
    let mut odd = false;
    while let Some((last, front)) = rest.split_last() {
        if *last != b'\\' {
            return odd;
        }
        rest = front;
        odd = !odd;
    }
    odd
}
