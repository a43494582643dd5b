// Texts that are brought in.

/// A text that is brought in, from some byte on: where it stands, and what a macro's arguments are there.
use fit_macros::{DEEPEST, Macro};

#[derive(Clone, Copy)]
pub struct Source<'t, 's> {
    pub rest: &'t [u8],
    pub file: &'t [u8],
    pub line: u64,
    /// Whether it doesn't stand in one of the files itself.
    pub is_brought: bool,
    /// Whether it is a macro's text, where a backslash stands before the end of a line.
    pub is_macro: bool,
    pub parameters: &'s [&'t [u8]],
    pub values: &'s [Vec<u8>],
}

/// How many macros and files may still lie within one another.
#[derive(Clone, Copy)]
pub struct Depth {
    pub macros: u8,
    pub files: u8,
}

impl Depth {
    /// In none.
    pub fn outermost() -> Depth {
        Depth {
            macros: DEEPEST,
            files: DEEPEST,
        }
    }
}

impl<'t, 's> Source<'t, 's> {
    /// A file, from a line on.
    pub fn of_file(rest: &'t [u8], file: &'t [u8], line: u64) -> Source<'t, 's> {
        Source {
            rest,
            file,
            line,
            is_brought: false,
            is_macro: false,
            parameters: &[],
            values: &[],
        }
    }

    /// A macro's text, with the values of its arguments.
    pub fn of_macro(
        found: Macro<'t>,
        parameters: &'s [&'t [u8]],
        values: &'s [Vec<u8>],
    ) -> Source<'t, 's> {
        Source {
            rest: found.text,
            file: found.file,
            line: found.line,
            is_brought: true,
            is_macro: true,
            parameters,
            values,
        }
    }

    /// The same, brought in.
    pub fn brought(self) -> Source<'t, 's> {
        Source {
            rest: self.rest,
            file: self.file,
            line: self.line,
            is_brought: true,
            is_macro: self.is_macro,
            parameters: self.parameters,
            values: self.values,
        }
    }

    /// Another text of the same, as the value of an argument.
    pub fn at(self, rest: &'t [u8], line: u64) -> Source<'t, 's> {
        Source {
            rest,
            file: self.file,
            line,
            is_brought: self.is_brought,
            is_macro: self.is_macro,
            parameters: self.parameters,
            values: self.values,
        }
    }

    /// What stands for a name, if it is an argument's.
    pub fn value_of(&self, name: &[u8]) -> Option<&'s [u8]> {
        let at = self.parameters.iter().position(|other| *other == name)?;
        match self.values.get(at) {
            Some(value) => Some(value),
            None => None,
        }
    }
}
