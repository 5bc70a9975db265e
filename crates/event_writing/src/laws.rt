//! Laws of the documents that are written, which calls ensure.
ghost use Rattle.event_writing.specs.Instants.{ReadInstantsAreNamed};
ghost use Rattle.event_writing.specs.Packings.{PackingsAreRead};

/// A document of a packing is read as this packing alone, whatever sites are listed and by whichever texts it names its
/// items.
pub fn packings_are_read()
    ensures { PackingsAreRead }
{}

/// A time can name the instant of each event that was read of a document: so each packing that was read can be written.
pub fn read_instants_are_named()
    ensures { ReadInstantsAreNamed }
{}
