//! Where the lines of a text end.

ghost use Rattle.std.specs.Prelude.{◌≡◌, ◌≤◌, length, take, IfNone, IfSome};
ghost use Rattle.std.specs.Str.Lines.{strip_carriage_return};
ghost use Rattle.recall_text.specs.Lines.{IsWithinLine, EndsAt};

/// The place of the first LF.
pub fn line_end(bytes: &[u8]) -> Option<usize>
    ensures none { IfNone result (IsWithinLine bytes.now) }
    ensures some { IfSome result (λ end. EndsAt bytes.now end) }
{
    bytes.iter().position(|b| *b == b'\n')
}

/// How many bytes of a line that was ended by LF are its content: one CR at its end goes.
pub fn content_len(line: &[u8]) -> usize
    ensures within { result ≤ length line.now }
    ensures content { take result line.now ≡ strip_carriage_return line.now }
{
    match line.last() {
        Some(b'\r') => line.len() - 1,
        _ => line.len(),
    }
}
