// Macros' texts and whole files, read piece by piece.
ghost use Rattle.std.specs.Prelude.{◌≡◌, ◌≤◌, ◌<◌, ◌+◌, ◌^◌, List, ℕ, Result, length, None};
ghost use Rattle.vl_lex.specs.State.{Fault, first_state};
ghost use Rattle.vl_token.specs.Tokens.{Lexeme};
ghost use Rattle.vl_lex.specs.Lexes.{Leads, IsRead, Expands, IsFileRead, Lexes, too_large, at_end, file_end};
ghost use Rattle.vl_lex.specs.Effects.{effect};
ghost use Rattle.vl_lex.specs.StateBridge.{state, Gives, Answers, AreRead};
ghost use Rattle.vl_lex.specs.Seen.{Stands, Tells, texts};

use crate::applying::first_mark;
use crate::faults::{LexKind, bad_directive, fault};
use crate::lexer::Lexer;
use crate::macros::Macros;
use crate::origins::Origin;
use crate::room::token_room;
use sg_text::{Place, Refused};
use std::alloc::Global;
use vl_pieces::{Class, Mode, first_piece};
use vl_token::Token;

// How many uses of macros may lie within one another.
const DEEPEST: u8 = 16;
// How many bytes a file may have.
const LARGEST: usize = 1 << 28;

impl<'a> Lexer<'a> {
    pub fn new(alloc: Global) -> Lexer<'a>
        ensures { state result ≡ first_state }
    {
        Lexer {
            alloc,
            mode: Mode::Plain,
            waiting: None,
            macros: Macros::new(alloc),
            branches: Vec::new(alloc),
            mark: first_mark(),
            tokens: Vec::new(alloc),
        }
    }

    // Room for the tokens of the files is made in one step. Where it can't be had, it is made as tokens come.
    fn make_room(&mut self, files: &[Vec<u8>])
        ensures { state self.new ≡ state self.old }
    {
        let _ = self.tokens.reserve_exact(token_room(files));
    }

    // A text from its first byte to its last, where so many uses of macros may still lie within one another.
    #[cycle(reading)]
    fn read(&mut self, origin: Origin, text: &'a [u8], left: u8) -> Result<(), Refused<LexKind>>
        requires { length text.now ≤ 2 ^ 28 }
        ensures { Answers (IsRead (Expands left) origin 0 text.now (state self.old)) (state self.new) result }
    {
        let mut at = 0;
        let mut rest = text;
        while !rest.is_empty() {
            let (class, size) = first_piece(self.mode_at(), rest);
            let (bytes, tail) = rest.split_at(size);
            self.advance(origin, at, class, bytes, left)?;
            at += size;
            rest = tail;
        }
        Ok(())
    }

    // All that comes of a piece.
    #[cycle(reading)]
    fn advance(
        &mut self,
        origin: Origin,
        at: usize,
        class: Class,
        bytes: &'a [u8],
        left: u8,
    ) -> Result<(), Refused<LexKind>>
        requires few { length bytes.now ≤ 2 ^ 28 }
        requires place { at + length bytes.now < 2 ^ 62 }
        ensures { Answers (Leads (Expands left) (effect origin at class bytes.now (state self.old))) (state self.new) result }
    {
        match self.step(origin, at, class, bytes)? {
            Some(text) => self.expand(origin.place_at(at), text, left),
            None => Ok(()),
        }
    }

    // A macro's text, where it is used.
    #[cycle(reading)]
    fn expand(&mut self, place: Place, text: &'a [u8], left: u8) -> Result<(), Refused<LexKind>>
        requires { length text.now ≤ 2 ^ 28 }
        ensures { Answers (Expands left place text.now (state self.old)) (state self.new) result }
    {
        if left == 0 {
            return Err(fault(LexKind::MacroTooDeep, place));
        }
        self.read(Origin::Macro(place), text, left - 1)
    }

    // What is left open at the end of a file is refused.
    fn end_file(&mut self) -> Result<(), Refused<LexKind>>
        ensures { Gives (file_end (state self.old).waiting (state self.old)) (state self.new) result }
    {
        match &self.waiting {
            Some(waiting) => Err(bad_directive(waiting.place)),
            None => Ok(()),
        }
    }

    fn read_file(&mut self, file: u32, text: &'a [u8]) -> Result<(), Refused<LexKind>>
        requires { length text.now ≤ 2 ^ 28 }
        ensures { Answers (IsFileRead 16 file text.now (state self.old)) (state self.new) result }
    {
        self.read(Origin::File(file), text, DEEPEST)?;
        self.end_file()
    }

    fn read_files(&mut self, files: &'a [Vec<u8>]) -> Result<(), Refused<LexKind>>
        requires few { length files.now < 2 ^ 32 }
        requires small { too_large (2 ^ 28) 0 (texts files.now) ≡ None }
        ensures { AreRead 16 0 (texts files.now) (state self.old) (state self.new) result }
    {
        let mut file = 0;
        let mut rest = files;
        while let [text, tail @ ..] = rest {
            self.read_file(file, text)?;
            file += 1;
            rest = tail;
        }
        Ok(())
    }

    // The tokens, unless a branch is open.
    fn finish(self) -> Result<Vec<Token<'a>>, Refused<LexKind>>
        ensures { Tells (at_end (state self.entry).branches (state self.entry)) result }
    {
        match self.branches.last() {
            Some(branch) => Err(fault(LexKind::UnbalancedIf, branch.place)),
            None => Ok(self.tokens),
        }
    }
}

// The first file that is too large.
fn too_large(files: &[Vec<u8>]) -> Option<u32>
    requires { length files.now < 2 ^ 32 }
    ensures { result ≡ too_large (2 ^ 28) 0 (texts files.now) }
{
    let mut file = 0;
    let mut rest = files;
    while let [text, tail @ ..] = rest {
        if text.len() > LARGEST {
            return Some(file);
        }
        file += 1;
        rest = tail;
    }
    None
}

// The tokens of so many files.
fn lex_few(alloc: Global, files: &[Vec<u8>]) -> Result<Vec<Token<'_>>, Refused<LexKind>>
    requires { length files.now < 2 ^ 32 }
    ensures { Stands (Lexes (texts files.now)) result }
{
    if let Some(file) = too_large(files) {
        let byte = LARGEST as u64;
        return Err(fault(LexKind::FileTooLarge, Place { file, byte }));
    }
    let mut lexer = Lexer::new(alloc);
    lexer.make_room(files);
    lexer.read_files(files)?;
    lexer.finish()
}

/// The tokens of netlist files, which are read one after another.
///
/// Directives are applied, macros and branches too; a macro's tokens stand at its outermost use. The texts of tokens are
/// parts of the files. Of several faults the first that is met is answered, but for `FileTooLarge`, which comes before all
/// others. Takes memory for the tokens, the macros and the open branches. For more than 2^32 - 1 files there is none.
pub fn lex(alloc: Global, files: &[Vec<u8>]) -> Result<Vec<Token<'_>>, Refused<LexKind>>
    // The token list or the fault that it answers stands.
    ensures found { Stands (Lexes (texts files.now)) result }
    // No other list and no other fault stands.
    ensures only { (o : Result (List Lexeme) Fault) → Lexes (texts files.now) o → Tells o result }
{
    if files.len() > u32::MAX as usize {
        return Err(Refused::NoMemory);
    }
    lex_few(alloc, files)
}
