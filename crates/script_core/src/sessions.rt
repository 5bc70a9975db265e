//! A script that is being read, line by line.
ghost use Rattle.std.specs.Prelude.{◌≡◌, ℕ, ◌+◌, ◌^◌, ◌<◌, ◌≤◌, List, [], ◌∷◌, ◌++◌, Option, length, take, OnOk, IfOk, IfErr};
ghost use Rattle.std.specs.Str.Lines.{strip_carriage_return};
ghost use Rattle.recall_text.specs.Lines.{IsWithinLine};
ghost use Rattle.script_core.specs.Lines.{longest_line};

use crate::held_lines::HeldLine;
use crate::scripts::Script;
use crate::tallies::Tally;
use recall_text::line_ends::{content_len, line_end};
use recall_text::{ScriptFault, write_text};
use std::alloc::{AllocError, Global};
use std::hash::RandomState;
use std::io::Write;

/// A script that is being read: what its lines so far left, and the beginning of the next line.
#[derive(Drop)]
pub(crate) struct Session {
    /// The keys of the hash by which sites number items.
    pub(crate) keys: RandomState,
    pub(crate) script: Script,
    pub(crate) lines: u64,
    pub(crate) refused: u64,
    pub(crate) pending: HeldLine,
}

impl Session {
    ghost use Rattle.script_core.specs.Holding.{FailsToGrow};
    ghost use Rattle.script_core.specs.Kept.{state_of};
    ghost use Rattle.script_core.specs.Session.{IsNew, AnswersOne, FailsInOne, GoesOn, EndsEarly, Finishes, EndsInLast};

    /// A session of which nothing was read, with the keys of the hash by which sites number items.
    pub(crate) fn new(alloc: Global, keys: RandomState) -> Result<Session, AllocError>
        ensures { IfOk result IsNew }
    {
        Ok(Session {
            keys,
            script: Script::new(alloc),
            lines: 0,
            refused: 0,
            pending: HeldLine::new(alloc)?,
        })
    }

    /// Takes the next piece of the script, and writes the answer to each line that is whole now.
    pub(crate) fn feed<W: Write>(
        &mut self,
        alloc: Global,
        piece: &[u8],
        writer: &mut W,
    ) -> Result<(), ScriptFault>
        requires lines { self.old.lines + length piece.now < 2 ^ 63 }
        requires refused { self.old.refused ≤ self.old.lines }
        ensures ok { OnOk result (GoesOn self.old piece.now self.new [] (W.contents writer.old)
            (W.contents writer.new)) }
        ensures err { IfErr result (λ e. EndsEarly self.old piece.now e (W.contents writer.old)
            (W.contents writer.new)) }
        ensures lines { self.new.lines ≤ self.old.lines + length piece.now }
        ensures refused { self.new.refused ≤ self.new.lines }
    {
        let mut rest = piece;
        while let Some(end) = line_end(rest) {
            self.take_line(alloc, &rest[..end], writer)?;
            rest = &rest[end + 1..];
        }
        self.hold(rest)
    }

    /// Takes a line of which these bytes and a LF were still to come.
    fn take_line<W: Write>(
        &mut self,
        alloc: Global,
        bytes: &[u8],
        writer: &mut W,
    ) -> Result<(), ScriptFault>
        requires lines { self.old.lines < 2 ^ 63 }
        requires refused { self.old.refused ≤ self.old.lines }
        requires within { IsWithinLine bytes.now }
        ensures ok { OnOk result (GoesOn self.old (bytes.now ++ 10 ∷ []) self.new []
            (W.contents writer.old) (W.contents writer.new)) }
        ensures err { IfErr result (λ e. EndsEarly self.old (bytes.now ++ 10 ∷ []) e
            (W.contents writer.old) (W.contents writer.new)) }
        ensures lines { self.new.lines ≤ self.old.lines + 1 }
        ensures refused { self.new.refused ≤ self.new.lines }
    {
        self.grow(bytes)?;
        self.end_line(alloc, writer)
    }

    /// Keeps bytes of a line whose LF is still to come.
    fn hold(&mut self, bytes: &[u8]) -> Result<(), ScriptFault>
        requires within { IsWithinLine bytes.now }
        ensures ok { OnOk result ((before : Option (List ℕ))
            → GoesOn self.old bytes.now self.new [] before before) }
        ensures err { IfErr result (λ e. (before : Option (List ℕ))
            → EndsEarly self.old bytes.now e before before) }
        ensures lines { self.new.lines ≡ self.old.lines }
        ensures refused { self.new.refused ≡ self.old.refused }
    {
        self.grow(bytes)
    }

    /// Takes the last line, where it has no LF, and gives the tally.
    pub(crate) fn finish<W: Write>(
        mut self,
        alloc: Global,
        writer: &mut W,
    ) -> Result<Tally, ScriptFault>
        requires lines { self.lines < 2 ^ 63 }
        requires refused { self.refused ≤ self.lines }
        ensures ok { IfOk result (λ tally. Finishes self tally (W.contents writer.old)
            (W.contents writer.new)) }
        ensures err { IfErr result (λ e. EndsInLast self e (W.contents writer.old)
            (W.contents writer.new)) }
    {
        let end = self.pending.len();
        if end == 0 {
            return Ok(self.tally());
        }
        self.answer(alloc, end, writer)?;
        Ok(self.tally())
    }

    /// The lines taken and the refusals among their answers.
    fn tally(&self) -> Tally
        ensures lines { result.lines ≡ self.now.lines }
        ensures refused { result.refused ≡ self.now.refused }
    {
        Tally {
            lines: self.lines,
            refused: self.refused,
        }
    }

    /// Takes the pending bytes as a line that was ended by LF.
    fn end_line<W: Write>(&mut self, alloc: Global, writer: &mut W) -> Result<(), ScriptFault>
        requires lines { self.old.lines < 2 ^ 63 }
        requires refused { self.old.refused ≤ self.old.lines }
        ensures ok { OnOk result (AnswersOne self.old (strip_carriage_return self.old.pending)
            self.new (W.contents writer.old) (W.contents writer.new)) }
        ensures err { IfErr result (λ e. FailsInOne self.old
            (strip_carriage_return self.old.pending) e (W.contents writer.old)
            (W.contents writer.new)) }
        ensures lines { self.new.lines ≤ self.old.lines + 1 }
        ensures refused { self.new.refused ≤ self.new.lines }
    {
        let end = content_len(self.pending.as_slice());
        self.answer(alloc, end, writer)
    }

    /// Takes a front of the pending bytes as a line, writes its answer, and begins the next line.
    fn answer<W: Write>(
        &mut self,
        alloc: Global,
        end: usize,
        writer: &mut W,
    ) -> Result<(), ScriptFault>
        requires within { end ≤ length self.old.pending }
        requires lines { self.old.lines < 2 ^ 63 }
        requires refused { self.old.refused ≤ self.old.lines }
        ensures ok { OnOk result (AnswersOne self.old (take end self.old.pending) self.new
            (W.contents writer.old) (W.contents writer.new)) }
        ensures err { IfErr result (λ e. FailsInOne self.old (take end self.old.pending) e
            (W.contents writer.old) (W.contents writer.new)) }
        ensures lines { self.new.lines ≤ self.old.lines + 1 }
        ensures refused { self.new.refused ≤ self.new.lines }
    {
        let line = &self.pending.as_slice()[..end];
        let answer = self.script.take_line(alloc, self.keys, line)?;
        write_text(writer, answer.text().as_bytes())?;
        self.pending.clear();
        self.lines += 1;
        if answer.is_refusal() {
            self.refused += 1;
        }
        Ok(())
    }

    /// Puts bytes without a LF behind the pending ones.
    fn grow(&mut self, bytes: &[u8]) -> Result<(), ScriptFault>
        ensures ok { OnOk result ((length self.new.pending ≤ longest_line)
            × (self.new.pending ≡ self.old.pending ++ bytes.now)) }
        ensures err { IfErr result (λ e. FailsToGrow self.old.pending bytes.now e) }
        ensures script { self.new.script ≡ self.old.script }
        ensures lines { self.new.lines ≡ self.old.lines }
        ensures refused { self.new.refused ≡ self.old.refused }
    {
        self.pending.grow(bytes)
    }
}
