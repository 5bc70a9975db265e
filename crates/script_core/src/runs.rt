//! Running a script from a reader to a writer.
ghost use Rattle.std.specs.Prelude.{◌≡◌, ◌<◌, ◌≤◌, take, length, IfOk, IfErr, IfSome, MatchOption};
ghost use Rattle.std.specs.Io.KnownBytes.{Keeps, Consumes, IsAtEnd};
ghost use Rattle.script_core.specs.Runs.{IsDone, Leaves};
ghost use Rattle.script_core.specs.Session.{IsNew};

use crate::sessions::Session;
use crate::tallies::Tally;
use recall_text::ScriptFault;
use recall_text::streams::fault_of_kind;
use std::alloc::Global;
use std::hash::RandomState;
use std::io::{Read, Write};

/// How often a reader is asked for a piece of a script.
const MOST_READS: u64 = 16_777_216;

/// The most bytes of a piece.
const PIECE: usize = 8_192;

/// Runs a script: reads it in pieces to its end, and writes the answer to each line as the line is
/// done. The tally counts its lines and the refusals that were printed. The keys are those of the hash by which
/// items are numbered, drawn at random, so that nobody can choose texts that collide.
///
/// A script is lines ended by LF or CR LF; the last may lack it. A line has at most 16,777,216
/// bytes before its LF. The reader is asked at most 16,777,216 times, interrupted reads among them,
/// and the writer at most 1,024 times in a row without taking a byte.
///
/// # Errors
/// - [`ScriptFault::Read`] and [`ScriptFault::TurnsSpent`] leave the answers to all whole lines that
///   were read.
/// - [`ScriptFault::LineTooLong`] leaves those to all lines before the first that is too long.
/// - [`ScriptFault::NoMemory`] comes before anything is read, or at a line that has more than 8,192
///   bytes or allocates, and leaves the answers to all lines before it. Nothing is allocated by a
///   line without an answer but `site`, and by one that is refused with BadLine, Late or NoWorld,
///   or, once the world has begun, with BadEpc.
/// - [`ScriptFault::Write`] leaves a beginning of the answers' text.
pub fn run_script<R: Read, W: Write>(
    alloc: Global,
    keys: RandomState,
    reader: &mut R,
    writer: &mut W,
) -> Result<Tally, ScriptFault>
    // Exactly the answers to the lines of what was read are written, one after another, wherever the reader and the
    // writer report their bytes; the tally counts the lines and the refusals, and no line was too long.
    // Not covered: that an answer is written before the next line is read.
    //
    // Each line that runs a recall does to a world of keepers in memory, and is answered, just what the definition
    // says.
    ensures done { IfOk result (λ tally. IfSome (R.remaining reader.old) (λ input.
        IsDone input (W.contents writer.old) (W.contents writer.new) tally)) }
    // `Read` and `TurnsSpent` leave the answers to all whole lines that the reader gave; `LineTooLong` those to all
    // lines before the first that is over the limit; `Write` a beginning of the answers' text.
    // Not covered: that `Read` and `Write` come only where a stream failed.
    //
    // `NoMemory` comes only before anything was read, or at a line of over 8,192 bytes or one that allocates, and
    // leaves the answers to all lines before it. BadLine, Late and NoWorld are answered without memory, and so is
    // BadEpc once the world has begun.
    // Not covered: how much memory a line needs.
    ensures fault { IfErr result (λ fault. IfSome (R.remaining reader.old) (λ input.
        Leaves fault input (R.remaining reader.new) (W.contents writer.old)
        (W.contents writer.new))) }
{
    let mut buffer = vec![in alloc; 0u8; PIECE]?;
    let session = Session::new(alloc, keys)?;
    run_pieces(alloc, session, reader, writer, buffer.as_mut_slice())
}

/// Runs a script in pieces of at most the buffer's length.
fn run_pieces<R: Read, W: Write>(
    alloc: Global,
    mut session: Session,
    reader: &mut R,
    writer: &mut W,
    buffer: &mut [u8],
) -> Result<Tally, ScriptFault>
    requires piece { length buffer.old ≡ PIECE }
    requires new { IsNew session }
    ensures done { IfOk result (λ tally. IfSome (R.remaining reader.old) (λ input.
        IsDone input (W.contents writer.old) (W.contents writer.new) tally)) }
    ensures fault { IfErr result (λ fault. IfSome (R.remaining reader.old) (λ input.
        Leaves fault input (R.remaining reader.new) (W.contents writer.old)
        (W.contents writer.new))) }
{
    for _ in 0..MOST_READS {
        match read_once(reader, buffer)? {
            None => {}
            Some(0) => return session.finish(alloc, writer),
            Some(count) => session.feed(alloc, &buffer[..count], writer)?,
        }
    }
    Err(ScriptFault::TurnsSpent)
}

/// One read, and how many bytes it gave: 0 at the end, and `None` where it was interrupted.
fn read_once<R: Read>(reader: &mut R, buffer: &mut [u8]) -> Result<Option<usize>, ScriptFault>
    requires { 0 < length buffer.old }
    ensures ok { IfOk result (λ read. MatchOption read
        (Keeps (R.remaining reader.old) (R.remaining reader.new)) (λ n.
        Consumes (R.remaining reader.old) (R.remaining reader.new) (take n buffer.new))) }
    ensures bound { IfOk result (λ read. IfSome read (λ n. n ≤ length buffer.new)) }
    ensures end { IfOk result (λ read. IfSome read (λ n. n ≡ 0
        → IsAtEnd (R.remaining reader.new))) }
    ensures err { IfErr result (λ fault. (fault ≡ ScriptFault.Read)
        × Keeps (R.remaining reader.old) (R.remaining reader.new)) }
{
    match reader.read(buffer) {
        Ok(count) => Ok(Some(count)),
        Err(error) => {
            fault_of_kind(error.kind(), ScriptFault::Read)?;
            Ok(None)
        }
    }
}
