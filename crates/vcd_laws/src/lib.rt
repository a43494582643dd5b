//! Laws of dumps that are read back: the dump of a run, read as a stimulus, makes the run again (IEEE 1364-2005, 18.2).
#![tactic(auto)]

ghost use Rattle.vcd_laws.specs.ReadBack.{DumpIsReadBack};

/// Read as a stimulus, the dump of a run makes the run again.
pub fn dump_is_read_back()
    ensures { DumpIsReadBack }
{}
