// Laws of the grammar of dumps.
ghost use Rattle.grammar.specs.Laws.{OneTree};
ghost use Rattle.vcd_form.specs.Rules.{dump};

/// A text is one dump at most.
pub fn one_dump()
    ensures { OneTree dump.language }
{}
