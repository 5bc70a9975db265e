//! Writing whole texts.

ghost use Rattle.std.specs.Prelude.{◌≡◌, ◌<◌, ◌≤◌, IfOk, IfErr, OnOk, OnErr, take, length};
ghost use Rattle.std.specs.Io.KnownBytes.{Appends, Keeps};
ghost use Rattle.recall_text.specs.Writing.{AppendsBeginning};

use crate::faults::ScriptFault;
use crate::streams::fault_of_kind;
use std::io::Write;

/// How often in a row a writer is asked without taking a byte.
const MOST_TRIES: u32 = 1_024;

/// Writes all of a text. A write that is interrupted or takes no byte is made again, at most 1,024
/// times in a row. At [`ScriptFault::Write`], the only fault, a beginning of the text was written.
pub fn write_text<W: Write>(writer: &mut W, text: &[u8]) -> Result<(), ScriptFault>
    // Not covered: that it fails only where the writer did.
    ensures ok { OnOk result (Appends (W.contents writer.old) (W.contents writer.new) text.now) }
    ensures err { OnErr result (AppendsBeginning (W.contents writer.old)
        (W.contents writer.new) text.now) }
    ensures fault { IfErr result (λ e. e ≡ ScriptFault.Write) }
{
    let mut rest = text;
    while !rest.is_empty() {
        let count = write_some(writer, rest)?;
        rest = &rest[count..];
    }
    Ok(())
}

/// Writes at least a byte of a text that has one, and returns how many bytes the writer took.
fn write_some<W: Write>(writer: &mut W, text: &[u8]) -> Result<usize, ScriptFault>
    ensures some { IfOk result (λ n. 0 < n) }
    ensures bound { IfOk result (λ n. n ≤ length text.now) }
    ensures ok { IfOk result (λ n. Appends (W.contents writer.old) (W.contents writer.new)
        (take n text.now)) }
    ensures err { OnErr result (Keeps (W.contents writer.old) (W.contents writer.new)) }
    ensures fault { IfErr result (λ e. e ≡ ScriptFault.Write) }
{
    for _ in 0..MOST_TRIES {
        let count = write_once(writer, text)?;
        if count > 0 {
            return Ok(count);
        }
    }
    Err(ScriptFault::Write)
}

/// One write, and how many bytes it took: none where it was interrupted.
fn write_once<W: Write>(writer: &mut W, text: &[u8]) -> Result<usize, ScriptFault>
    ensures bound { IfOk result (λ n. n ≤ length text.now) }
    ensures ok { IfOk result (λ n. Appends (W.contents writer.old) (W.contents writer.new)
        (take n text.now)) }
    ensures err { OnErr result (Keeps (W.contents writer.old) (W.contents writer.new)) }
    ensures fault { IfErr result (λ e. e ≡ ScriptFault.Write) }
{
    match writer.write(text) {
        Ok(count) => Ok(count),
        Err(error) => {
            fault_of_kind(error.kind(), ScriptFault::Write)?;
            Ok(0)
        }
    }
}
