//! Laws about the text of a journal, for those who build on it.
ghost use Rattle.soc_journal.specs.Bodies.{IsApart};
ghost use Rattle.soc_journal.specs.Text.{IsOneText, IsOneFault, IsOneEntry};

/// At most one list of entries fits given bytes.
pub fn text_is_one()
    ensures { IsOneText }
{}

/// The text of a journal has no bad place, and bytes have one first bad place at most.
pub fn fault_is_one()
    ensures { IsOneFault }
{}

/// An entry of a journal stands behind those before it, and no other entry stands there.
pub fn entry_is_one()
    ensures { IsOneEntry }
{}

/// What is written at the gate leaves the entries before it and the version byte as they were, so that they may be read
/// beside a writer.
pub fn gate_is_apart()
    ensures { IsApart }
{}
