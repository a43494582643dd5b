// Macros that are defined, and what they are used with.
use crate::reader::Reader;
use crate::sources::Source;
use fit_macros::{
    Macro, Values, definition_of, is_blank_value, line_size, name_at, names_of, values_of,
};
use sg_text::NoMemory;

impl<'t> Reader<'t> {
    /// Defines the macro whose definition begins a text, and gives the size of the definition.
    pub fn define(
        &mut self,
        source: Source<'t, '_>,
        text: &'t [u8],
        stays: bool,
    ) -> Result<usize, NoMemory> {
        let Some(definition) = definition_of(text) else {
            self.tell("BadDirective", b"", source)?;
            return Ok(line_size(text));
        };
        if names_of(self.alloc, definition.parameters.unwrap_or(b""))?.is_none() {
            self.tell("BadDirective", b"", source)?;
        }
        let new = Macro {
            parameters: definition.parameters,
            text: definition.text,
            file: source.file,
            line: source.line,
        };
        self.macros.define(definition.name, new, stays)?;
        Ok(definition.size)
    }

    /// The macro whose name begins a text is no more. Gives the size of the name with the gaps before it.
    pub fn undefine(&mut self, source: Source<'t, '_>, text: &'t [u8]) -> Result<usize, NoMemory> {
        let Some((name, size)) = name_at(text) else {
            self.tell("BadDirective", b"", source)?;
            return Ok(0);
        };
        self.macros.undefine(name);
        Ok(size)
    }

    /// The names of a macro's arguments.
    pub fn parameters(&self, found: Macro<'t>) -> Result<Vec<&'t [u8]>, NoMemory> {
        let names = names_of(self.alloc, found.parameters.unwrap_or(b""))?;
        Ok(names.unwrap_or(Vec::new(self.alloc)))
    }

    /// The values of a macro's arguments behind its name, if they are so many.
    pub fn values(
        &self,
        found: Macro<'t>,
        count: usize,
        text: &'t [u8],
    ) -> Result<Option<Values<'t>>, NoMemory> {
        if found.parameters.is_none() {
            return Ok(Some(Values {
                texts: Vec::new(self.alloc),
                size: 0,
            }));
        }
        let Some(values) = values_of(self.alloc, text)? else {
            return Ok(None);
        };
        let is_empty = match values.texts.as_slice() {
            [only] => is_blank_value(only),
            _ => false,
        };
        if values.texts.len() == count || count == 0 && is_empty {
            Ok(Some(values))
        } else {
            Ok(None)
        }
    }
}
