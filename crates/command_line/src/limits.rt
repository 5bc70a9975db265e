//! How long documents may be.
ghost use Rattle.std.specs.Prelude.{ℕ};

/// Reads documents, up to a length that can be set.
pub trait LimitsDocuments {
    /// From these files, being told that a document has at most so many bytes led to those files.
    ghost limits: { Self → ℕ → Self → Type 0 };

    /// Limits the bytes of a document, or of a line of a file of lines: a longer one can't be read then.
    fn limit_to(&mut self, bytes: u64)
        ensures { limits self.old bytes self.new };

    /// Limits the bytes of each file that is read whole: no list of sites is among them.
    fn limit_all_to(&mut self, bytes: u64)
        ensures { limits self.old bytes self.new };
}
