// The files: what stays in them as it is, and what changes.
use crate::changing::FileText;
use crate::reader::Reader;
use crate::sources::{Depth, Source};
use fit_changes::{Change, Rule};
use fit_macros::{
    Directive, Form, Line, Part, Written, behind, cut, definition_of, feeds, front, goes, is_taken,
};
use sg_text::NoMemory;
use vl_pieces::Class;

// Where nothing but directives and macros matters, nothing does behind the last backquote.
fn end_of_uses(text: &[u8]) -> usize {
    let behind = text.iter().rev().take_while(|b| **b != b'`').count();
    text.len().saturating_sub(behind)
}

// How many bytes of a directive give way, and to what: those of the directive itself, or with the name that it tests.
fn replaced(written: Written, own: usize, size: usize) -> (usize, &'static str) {
    match written {
        Written::Stays | Written::Within => (0, ""),
        Written::Gone => (size, ""),
        Written::AsIfDef => (own, "`ifdef"),
        Written::AsElse => (size, "`else"),
    }
}

impl<'t> Reader<'t> {
    /// The changes of a file.
    pub fn read_file(
        &mut self,
        number: u32,
        name: &'t [u8],
        text: &'t [u8],
    ) -> Result<Vec<Change>, NoMemory> {
        let mut file = FileText::new(self.alloc, name, text);
        self.begin_file(number, &mut file, text)?;
        let end = end_of_uses(text);
        let mut line: u64 = 1;
        let mut rest = text;
        while let [_, ..] = rest {
            let at = text.len().saturating_sub(rest.len());
            if at >= end || self.wanted.is_some() {
                break;
            }
            self.line = Line {
                file: number,
                number: line,
            };
            let size = self.read_piece(&mut file, at, rest)?;
            line = line.saturating_add(feeds(cut(rest, size).0) as u64);
            rest = behind(rest, size);
        }
        file.finish()
    }

    fn begin_file(
        &mut self,
        number: u32,
        file: &mut FileText<'t>,
        text: &'t [u8],
    ) -> Result<(), NoMemory> {
        self.part = Part::outside();
        self.brought = 0;
        self.line = Line {
            file: number,
            number: 1,
        };
        self.tell_mark(Source::of_file(text, file.name, 1))?;
        if goes(&self.branches) {
            self.open_gap(file, 0, "text of an earlier file's branch left out")?;
        }
        Ok(())
    }

    fn read_piece(
        &mut self,
        file: &mut FileText<'t>,
        at: usize,
        rest: &'t [u8],
    ) -> Result<usize, NoMemory> {
        let (class, piece) = front(rest);
        if class == Class::Use {
            return self.read_use(file, at, rest, cut(piece, 1).1);
        }
        if is_taken(&self.branches) {
            self.part.pass(class, piece);
        }
        Ok(piece.len())
    }

    fn read_use(
        &mut self,
        file: &mut FileText<'t>,
        at: usize,
        rest: &'t [u8],
        name: &'t [u8],
    ) -> Result<usize, NoMemory> {
        let own = name.len().saturating_add(1);
        let source = Source::of_file(rest, file.name, self.line.number);
        let directive = self.directive(name);
        match directive {
            Some(directive) if directive.is_conditional() => {
                return self.read_branch(file, at, source, directive, own);
            }
            _ if !is_taken(&self.branches) => return Ok(own),
            Some(directive) => {
                if let Some(size) = self.stays(source, directive, own)? {
                    return Ok(size);
                }
            }
            None => {
                let may_stay = !self.part.in_table && !self.part.in_words;
                if may_stay && !file.is_in_constant(at, own) && self.macros.stays(name)? {
                    return Ok(own);
                }
            }
        }
        self.replace(file, at, source, directive, name)
    }

    // The size of a directive that stays as it is. None: it doesn't.
    fn stays(
        &mut self,
        source: Source<'t, '_>,
        directive: Directive,
        own: usize,
    ) -> Result<Option<usize>, NoMemory> {
        let behind = cut(source.rest, own).1;
        let size = match directive {
            Directive::Taken => 0,
            Directive::TakenLine => {
                self.part.in_words = true;
                0
            }
            Directive::Undef => self.undefine(source, behind)?,
            Directive::Define => match definition_of(behind) {
                Some(definition) if !definition.is_simple() => return Ok(None),
                _ => self.define(source, behind, true)?,
            },
            _ => return Ok(None),
        };
        Ok(Some(own.saturating_add(size)))
    }

    // Puts what a use stands for in its place.
    fn replace(
        &mut self,
        file: &mut FileText<'t>,
        at: usize,
        source: Source<'t, '_>,
        directive: Option<Directive>,
        name: &'t [u8],
    ) -> Result<usize, NoMemory> {
        let origin = self.origin_of(source, directive, name);
        let part = self.part.name;
        let mut out = file.joint_at(at);
        let size = self.bring_use(source, name, &mut out, Depth::outermost())?;
        let reason = self.reason_of(source, directive, size, origin, part)?;
        file.give(at, size, out, reason)?;
        if goes(&self.branches) {
            self.open_gap(file, at.saturating_add(size), "text of a branch left out")?;
        }
        Ok(size)
    }

    // From a byte on the text goes, since the branch was opened elsewhere.
    fn open_gap(&mut self, file: &mut FileText<'t>, at: usize, what: &str) -> Result<(), NoMemory> {
        let what = Vec::from_slice(self.alloc, what.as_bytes())?;
        file.open_gap(at, self.reason(Rule::Define, what, self.part.name)?);
        Ok(())
    }

    fn read_branch(
        &mut self,
        file: &mut FileText<'t>,
        at: usize,
        source: Source<'t, '_>,
        directive: Directive,
        own: usize,
    ) -> Result<usize, NoMemory> {
        let went = goes(&self.branches);
        let tested = self.test(directive, source, own)?;
        let Some(written) = self.branch(directive, tested.test)? else {
            self.tell_unbalanced(source)?;
            return Ok(tested.size);
        };
        let (size, text) = replaced(written, own, tested.size);
        let word = cut(source.rest, own).0;
        match (went, goes(&self.branches)) {
            (true, true) => {}
            (true, false) => file.close_gap(at, size, text.as_bytes())?,
            (false, true) => {
                let reason = self.reason_of_branch(word, tested, "text of ", " left out")?;
                file.open_gap(at, reason);
            }
            (false, false) if size > 0 => {
                let reason = self.reason_of_branch(word, tested, "", " resolved")?;
                let mut out = file.joint_at(at);
                out.push(Class::Use, text.as_bytes())?;
                file.give(at, size, out, reason)?;
            }
            (false, false) => {}
        }
        Ok(tested.size)
    }

    // A branch that stays in the changed text is told by its reader.
    fn tell_unbalanced(&mut self, source: Source<'t, '_>) -> Result<(), NoMemory> {
        match self.branches.last() {
            Some(branch) if !matches!(branch.form, Form::Kept) => self.tell(
                "UnbalancedIf",
                b"",
                source,
            ),
            _ => Ok(()),
        }
    }
}
