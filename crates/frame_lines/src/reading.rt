//! Reading lines of text as frames.
ghost use Rattle.std.specs.Prelude.{◌≡◌, ◌≤◌, Ok, IfOk, IfErr, IfSome, MatchOption, MatchResult, length};
ghost use Rattle.serde_json.specs.Data.{Data};
ghost use Rattle.serde_json.specs.View.{view};
ghost use Rattle.frame_core.specs.declared.frames.Frame.{Frame};
ghost use Rattle.frame_lines.specs.Lines.{Carries, HasValue, IsFault, content_of, ends_with, without_last};
ghost use Rattle.frame_lines.specs.declared.reading.TheConstants.{MAX_LINE_BYTES};

use crate::chains::ChainId;
use crate::faults::LineFault;
use crate::members::{text_at, told_frame};
use crate::writing::sum_of;
use event_json::Sites;
use frame_core::Frame;
use serde_json::Value;
use std::alloc::{AllocError, Global};

/// The most bytes of a line.
pub const MAX_LINE_BYTES: usize = 4096;

/// The frame that a line carries in a chain of these sites, or why it carries none. LF or CRLF may stand at its end.
///
/// # Errors
/// Out of memory, of a line of at most [`MAX_LINE_BYTES`] alone.
pub fn read_line(
    alloc: Global,
    sites: &Sites,
    chain: &ChainId,
    line: &[u8],
) -> Result<Result<Frame, LineFault>, AllocError>
    // It is a frame that the line carries, or a fault that the line has.
    ensures read { IfOk result (λ read. MatchResult read
        (λ f. Carries sites.now chain.now line.now f)
        (λ fault. IsFault sites.now chain.now line.now fault)) }
    // A frame that the line carries is read.
    ensures exact { IfOk result (λ read. (f : Frame)
        → Carries sites.now chain.now line.now f → read ≡ Ok f) }
    // A line that is too long is answered without taking memory.
    ensures memory { IfErr result (λ _. length line.now ≤ MAX_LINE_BYTES) }
{
    // No two sites have one name.
    let _names = sites.len();
    let Some(value) = line_value(alloc, line)? else {
        return Ok(Err(LineFault::BadFrame));
    };
    let Some(said) = text_at(&value, "chain") else {
        return Ok(Err(LineFault::BadFrame));
    };
    if said != chain.as_str() {
        return Ok(Err(LineFault::OtherChain));
    }
    let Some(sum) = text_at(&value, "sum") else {
        return Ok(Err(LineFault::BadFrame));
    };
    let Some(frame) = told_frame(alloc, sites, &value)? else {
        return Ok(Err(LineFault::BadFrame));
    };
    let own = sum_of(alloc, sites, chain, &frame.view())?;
    if sum != own.as_str() {
        return Ok(Err(LineFault::BadSum));
    }
    Ok(Ok(frame))
}

/// The value of a line, `None` where it has none.
///
/// # Errors
/// Out of memory.
fn line_value(alloc: Global, line: &[u8]) -> Result<Option<Value>, AllocError>
    ensures value { IfOk result (λ value. MatchOption value ((d : Data) → ¬ HasValue line.now d)
        (λ v. HasValue line.now (view v))) }
    ensures short { IfOk result (λ value. IfSome value (λ _. length line.now ≤ MAX_LINE_BYTES)) }
    ensures memory { IfErr result (λ _. length line.now ≤ MAX_LINE_BYTES) }
{
    let content = content_of(line);
    if line.len() > MAX_LINE_BYTES || !ends_with(b'}', content) {
        return Ok(None);
    }
    match Value::from_slice(alloc, content) {
        Ok(value) => Ok(Some(value)),
        Err(error) => {
            if error.is_memory() {
                Err(AllocError)
            } else {
                Ok(None)
            }
        }
    }
}

/// A line without the LF or CRLF at its end.
#[tactic(auto, unfolding(crate::specs::Lines::content_of))]
fn content_of(line: &[u8]) -> &[u8]
    ensures { result.now ≡ content_of line.now }
{
    if ends_with(b'\n', line) {
        without_last(b'\r', without_last(b'\n', line))
    } else {
        line
    }
}

/// The bytes without this one at their end.
fn without_last(byte: u8, bytes: &[u8]) -> &[u8]
    ensures { result.now ≡ without_last byte bytes.now }
{
    if ends_with(byte, bytes) {
        &bytes[..bytes.len() - 1]
    } else {
        bytes
    }
}

/// Whether the last byte is this one.
fn ends_with(byte: u8, bytes: &[u8]) -> bool
    ensures { result ≡ ends_with byte bytes.now }
{
    bytes.len() > 0 && bytes[bytes.len() - 1] == byte
}
