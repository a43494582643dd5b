// Texts of macros and of included files, brought to where they are used.
use crate::including::included_name;
use crate::reader::Reader;
use crate::sources::{Depth, Source};
use fit_macros::{
    Directive, Extent, Joint, Written, behind, cut, feeds, front, is_gap, is_taken, line_size,
    name_at, words_size,
};
use sg_text::NoMemory;
use vl_pieces::{Class, is_word};

// How many bytes may be brought into a file: as many as a file may have.
const MOST: usize = 1 << 28;

// The size of what belongs to a directive behind its name.
fn extent_size(text: &[u8], extent: Extent) -> usize {
    match extent {
        Extent::Words(words) => words_size(text, words),
        Extent::Line => line_size(text),
    }
}

impl<'t> Reader<'t> {
    // Whether so many bytes more may be brought in. Where they are too many for the first time, that is told.
    fn has_room(&mut self, source: Source<'t, '_>) -> Result<bool, NoMemory> {
        let had = self.brought <= MOST;
        self.brought = self.brought.saturating_add(source.rest.len());
        let has = self.brought <= MOST;
        if had && !has {
            self.tell("FileTooLarge", b"", source)?;
        }
        Ok(has)
    }

    /// Brings in a text.
    #[cycle(bringing)]
    pub fn bring(
        &mut self,
        source: Source<'t, '_>,
        out: &mut Joint,
        depth: Depth,
    ) -> Result<(), NoMemory> {
        if !self.has_room(source)? {
            return Ok(());
        }
        out.seam();
        let mut line = source.line;
        let mut rest = source.rest;
        while let [_, ..] = rest {
            let size = self.bring_piece(source.at(rest, line), out, depth)?;
            line = line.saturating_add(feeds(cut(rest, size).0) as u64);
            rest = behind(rest, size);
        }
        out.seam();
        Ok(())
    }

    // Brings in what a text begins with, and gives its size.
    #[cycle(bringing)]
    fn bring_piece(
        &mut self,
        source: Source<'t, '_>,
        out: &mut Joint,
        depth: Depth,
    ) -> Result<usize, NoMemory> {
        let (class, piece) = front(source.rest);
        if class == Class::Use {
            return self.bring_use(source, cut(piece, 1).1, out, depth);
        }
        if is_taken(&self.branches) {
            self.bring_plain(source, class, piece, out)?;
        }
        Ok(piece.len())
    }

    // A piece that is no use of a macro.
    fn bring_plain(
        &mut self,
        source: Source<'t, '_>,
        class: Class,
        piece: &'t [u8],
        out: &mut Joint,
    ) -> Result<(), NoMemory> {
        if is_gap(class) || source.is_macro && is_word(piece, "\\") {
            out.part();
            return Ok(());
        }
        if class == Class::Name {
            if let Some(value) = source.value_of(piece) {
                if self.part.begins() {
                    self.part.begin(b"");
                }
                return out.push_text(value);
            }
        }
        match class {
            Class::UnendedComment => self.tell("UnendedComment", b"", source),
            Class::UnendedText => self.tell("UnendedText", b"", source),
            _ => {
                self.part.pass(class, piece);
                out.push(class, piece)
            }
        }
    }

    /// Brings in what stands for a backquote with a name, and gives the size of all that belongs to it.
    #[cycle(bringing)]
    pub fn bring_use(
        &mut self,
        source: Source<'t, '_>,
        name: &'t [u8],
        out: &mut Joint,
        depth: Depth,
    ) -> Result<usize, NoMemory> {
        let own = name.len().saturating_add(1);
        match self.directive(name) {
            Some(directive) if directive.is_conditional() => {
                self.bring_branch(source, directive, own, out)
            }
            _ if !is_taken(&self.branches) => Ok(own),
            Some(Directive::Include) => self.bring_include(source, own, out, depth),
            Some(directive) => self.bring_directive(source, directive, own, out),
            None => self.bring_macro(source, name, out, depth),
        }
    }

    // A directive of a branch that one of the files opened stays.
    fn bring_branch(
        &mut self,
        source: Source<'t, '_>,
        directive: Directive,
        own: usize,
        out: &mut Joint,
    ) -> Result<usize, NoMemory> {
        let tested = self.test(directive, source.brought(), own)?;
        match self.branch(directive, tested.test)? {
            None => self.tell("UnbalancedIf", b"", source.brought())?,
            Some(Written::AsElse) => out.push(Class::Use, b"`else")?,
            Some(Written::Stays) => {
                out.push(Class::Use, cut(source.rest, own).0)?;
                out.part();
                if let Some(name) = tested.name {
                    out.push(Class::Name, name)?;
                    out.part();
                }
            }
            Some(_) => {}
        }
        Ok(tested.size)
    }

    // A directive that is none of a branch, and includes nothing.
    fn bring_directive(
        &mut self,
        source: Source<'t, '_>,
        directive: Directive,
        own: usize,
        out: &mut Joint,
    ) -> Result<usize, NoMemory> {
        let (word, behind) = cut(source.rest, own);
        let size = match directive {
            Directive::Define => self.define(source, behind, false)?,
            Directive::Undef => self.bring_undef(source, word, behind, out)?,
            Directive::LeftOut { extent, .. } => extent_size(behind, extent),
            _ => {
                out.push(Class::Use, word)?;
                0
            }
        };
        Ok(own.saturating_add(size))
    }

    // The macro is no more; where the changed texts define it, that is said there too.
    fn bring_undef(
        &mut self,
        source: Source<'t, '_>,
        word: &'t [u8],
        behind: &'t [u8],
        out: &mut Joint,
    ) -> Result<usize, NoMemory> {
        if let Some((name, _)) = name_at(behind) {
            if self.macros.is_written(name) {
                out.push(Class::Use, word)?;
                out.part();
                out.push(Class::Name, name)?;
            }
        }
        self.undefine(source, behind)
    }

    // The text of an included file.
    #[cycle(bringing)]
    fn bring_include(
        &mut self,
        source: Source<'t, '_>,
        own: usize,
        out: &mut Joint,
        depth: Depth,
    ) -> Result<usize, NoMemory> {
        let Some((name, size)) = included_name(cut(source.rest, own).1) else {
            self.tell("BadDirective", b"", source)?;
            return Ok(own);
        };
        let size = own.saturating_add(size);
        let Some(included) = self.included(source.file, name) else {
            self.want(source.file, name)?;
            return Ok(size);
        };
        let Some(found) = &included.found else {
            self.tell("MissingInclude", name, source)?;
            return Ok(size);
        };
        if depth.files == 0 {
            self.tell("IncludeTooDeep", name, source)?;
            return Ok(size);
        }
        let inner = Depth {
            macros: depth.macros,
            files: depth.files - 1,
        };
        let text = Source::of_file(&found.text, &found.path, 1).brought();
        self.tell_mark(text)?;
        out.part();
        self.bring(text, out, inner)?;
        out.part();
        Ok(size)
    }

    // The text of a macro.
    #[cycle(bringing)]
    fn bring_macro(
        &mut self,
        source: Source<'t, '_>,
        name: &'t [u8],
        out: &mut Joint,
        depth: Depth,
    ) -> Result<usize, NoMemory> {
        let own = name.len().saturating_add(1);
        let Some(found) = self.macros.get(name) else {
            self.tell("UndefinedMacro", name, source)?;
            return Ok(own);
        };
        if depth.macros == 0 {
            self.tell("MacroTooDeep", name, source)?;
            return Ok(own);
        }
        let inner = Depth {
            macros: depth.macros - 1,
            files: depth.files,
        };
        let parameters = self.parameters(found)?;
        let Some(used) = self.values(found, parameters.len(), cut(source.rest, own).1)? else {
            self.tell("MacroArguments", name, source)?;
            return Ok(own);
        };
        let values = self.bring_values(source, &used.texts, inner)?;
        self.bring(Source::of_macro(found, &parameters, &values), out, inner)?;
        Ok(own.saturating_add(used.size))
    }

    // The values with the macros in them worked out.
    #[cycle(bringing)]
    fn bring_values(
        &mut self,
        source: Source<'t, '_>,
        texts: &[&'t [u8]],
        depth: Depth,
    ) -> Result<Vec<Vec<u8>>, NoMemory> {
        let mut values = Vec::new(self.alloc);
        for text in texts {
            let mut out = Joint::behind(self.alloc, b' ');
            self.bring(source.at(text, source.line).brought(), &mut out, depth)?;
            values.push(out.finish(b';', 0)?)?;
        }
        Ok(values)
    }
}
