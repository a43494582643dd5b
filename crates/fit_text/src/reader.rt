// What is known while the texts are read.
use crate::given::Given;
use crate::sources::Source;
use crate::telling::push_origin;
use fit_changes::Unfit;
use fit_macros::{
    Branch, Directive, Form, Line, Macro, Macros, Part, Test, Written, close, cut, directive_of,
    go_on, is_taken, name_at, open,
};
use sg_text::NoMemory;
use std::alloc::Global;

/// A file that isn't known yet: in which it is included, and its name there.
#[derive(Drop)]
pub struct Wanted {
    pub from: Vec<u8>,
    pub name: Vec<u8>,
}

/// What is known while the texts are read: the innermost branch comes last.
#[derive(Drop)]
pub struct Reader<'t> {
    pub alloc: Global,
    pub given: Given<'t>,
    pub macros: Macros<'t>,
    pub branches: Vec<Branch>,
    pub part: Part<'t>,
    /// Of the files, where the text at hand is used.
    pub line: Line,
    pub unfit: Vec<Unfit>,
    pub wanted: Option<Wanted>,
    /// How many bytes macros and included files have brought into the file at hand.
    pub brought: usize,
}

/// A test of a directive with the name that it tests, if it has one, and the size of both.
#[derive(Clone, Copy)]
pub struct Tested<'t> {
    pub test: Test,
    pub name: Option<&'t [u8]>,
    pub size: usize,
}

impl<'t> Reader<'t> {
    /// Before the first file.
    pub fn new(alloc: Global, given: Given<'t>) -> Result<Reader<'t>, NoMemory> {
        let mut reader = Reader {
            alloc,
            given,
            macros: Macros::new(alloc),
            branches: Vec::new(alloc),
            part: Part::outside(),
            line: Line { file: 0, number: 1 },
            unfit: Vec::new(alloc),
            wanted: None,
            brought: 0,
        };
        for define in given.defines {
            reader.define_word(define.as_bytes())?;
        }
        Ok(reader)
    }

    // `NAME` or `NAME=TEXT`
    fn define_word(&mut self, word: &'t [u8]) -> Result<(), NoMemory> {
        let size = word.iter().take_while(|b| **b != b'=').count();
        let (name, rest) = cut(word, size);
        let text = cut(rest, 1).1;
        let new = Macro {
            parameters: None,
            text,
            file: b"",
            line: 0,
        };
        self.macros.define(name, new, false)
    }

    /// Tells that the text at hand can't be taken, by a word and what it is about.
    pub fn tell(
        &mut self,
        kind: &str,
        what: &[u8],
        source: Source<'t, '_>,
    ) -> Result<(), NoMemory> {
        let mut kind = Vec::from_slice(self.alloc, kind.as_bytes())?;
        if !what.is_empty() {
            kind.push(b' ')?;
            kind.extend_from_slice(what)?;
        }
        if source.is_brought {
            push_origin(&mut kind, source.file, source.line)?;
        }
        let unfit = self.unfit_at(self.line, kind)?;
        if !self.is_told(&unfit) {
            self.unfit.push(unfit)?;
        }
        Ok(())
    }

    // Whether the same was told a moment ago: a macro's text may be brought in many times on one line.
    fn is_told(&self, unfit: &Unfit) -> bool {
        let before = self.unfit.len().saturating_sub(16);
        self.unfit[before..].iter().any(|told| {
            told.file == unfit.file
                && told.line == unfit.line
                && told.kind.as_slice() == unfit.kind.as_slice()
        })
    }

    /// A line that can't be taken.
    pub fn unfit_at(&self, line: Line, kind: Vec<u8>) -> Result<Unfit, NoMemory> {
        let part = Vec::from_slice(self.alloc, self.part.name)?;
        Ok(Unfit {
            file: line.file,
            line: line.number,
            kind,
            part,
        })
    }

    /// The directive that a name is, unless it is a macro's.
    pub fn directive(&self, name: &[u8]) -> Option<Directive> {
        let directive = directive_of(name)?;
        if directive.may_be_macro() && self.macros.is_defined(name) {
            return None;
        }
        Some(directive)
    }

    // Whether the directive has a name behind it: not within text that isn't taken.
    fn wants_name(&self, directive: Directive) -> bool {
        match directive {
            Directive::IfDef | Directive::IfNDef => is_taken(&self.branches),
            Directive::ElsIf => match self.branches.last() {
                Some(branch) => !matches!(branch.form, Form::Within { .. }),
                None => true,
            },
            _ => false,
        }
    }

    /// The test of a directive of a branch.
    pub fn test(
        &mut self,
        directive: Directive,
        source: Source<'t, '_>,
        own: usize,
    ) -> Result<Tested<'t>, NoMemory> {
        let last = matches!(directive, Directive::Else);
        let mut tested = Tested {
            test: Test {
                holds: last,
                holds_there: last,
                may_stay: !source.is_brought && !self.part.in_table,
                last,
            },
            name: None,
            size: own,
        };
        if !self.wants_name(directive) {
            return Ok(tested);
        }
        let Some((name, size)) = name_at(cut(source.rest, own).1) else {
            self.tell("BadDirective", b"", source)?;
            return Ok(tested);
        };
        let wanted = !matches!(directive, Directive::IfNDef);
        tested.test.holds = self.macros.is_defined(name) == wanted;
        tested.test.holds_there = self.macros.is_written(name) == wanted;
        tested.name = Some(name);
        tested.size = own.saturating_add(size);
        Ok(tested)
    }

    /// Opens, goes on with or closes a branch. None: there is none, or its last text was there.
    pub fn branch(
        &mut self,
        directive: Directive,
        test: Test,
    ) -> Result<Option<Written>, NoMemory> {
        match directive {
            Directive::IfDef | Directive::IfNDef => {
                Ok(Some(open(&mut self.branches, self.line, test)?))
            }
            Directive::EndIf => Ok(close(&mut self.branches)),
            _ => go_on(&mut self.branches, test),
        }
    }
}
