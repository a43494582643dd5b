// What holds of all netlist files.
ghost use Rattle.vl_lex.specs.Laws.{SomeOutcome, OneOutcome, PlainFile, TakenBranch, UntakenPiece, TakenText, MacroUse};

/// Each list of files has a token list or a fault.
pub fn some_outcome()
    ensures { SomeOutcome }
{}

/// No list of files has two.
pub fn one_outcome()
    ensures { OneOutcome }
{}

/// A file without a backquote has the tokens of its pieces, or the first of them that is a fault.
pub fn plain_file()
    ensures { PlainFile }
{}

/// Within branches whose texts are taken a text gives what it gives by itself.
pub fn taken_branch()
    ensures { TakenBranch }
{}

/// Text that isn't taken gives no token, and changes neither macros nor settings.
pub fn untaken_piece()
    ensures { UntakenPiece }
{}

/// From `` `ifdef`` or `` `ifndef`` to `` `endif`` the text that is taken gives what it gives by itself, and the others
/// nothing (IEEE 1364-2005, 19.4).
pub fn taken_text()
    ensures { TakenText }
{}

/// A macro's use gives what the macro's text gives, and all tokens of the text stand at the use.
pub fn macro_use()
    ensures { MacroUse }
{}
