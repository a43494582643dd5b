// The branches that are open (IEEE 1364-2005, 19.4), and what becomes of their directives.
use sg_text::NoMemory;

/// A line of one of the files, from 1.
#[derive(Clone, Copy)]
pub struct Line {
    pub file: u32,
    pub number: u64,
}

/// How a branch stands in the changed text.
#[derive(Clone, Copy)]
pub enum Form {
    /// As it was read: all its tests have the same outcome there.
    Kept,
    /// Up to a test whose outcome would be another there: it became an `else`, and what is behind its text goes.
    Cut,
    /// Worked out: its directives go, and its texts that aren't taken.
    Gone,
    /// Within text that isn't taken, which stays or goes as a whole.
    Within { goes: bool },
}

/// An open branch.
#[derive(Clone, Copy)]
pub struct Branch {
    /// Of the directive that opened it.
    pub line: Line,
    /// Whether its text at hand is taken. Never so where the text round it isn't.
    taken: bool,
    /// Whether no later text of it is taken.
    settled: bool,
    /// Whether its text at hand is its last.
    last: bool,
    pub form: Form,
}

/// A test of a branch: its outcome, that which it has in the changed text, whether its directive may stay there, and
/// whether no other text may follow.
#[derive(Clone, Copy)]
pub struct Test {
    pub holds: bool,
    pub holds_there: bool,
    pub may_stay: bool,
    pub last: bool,
}

/// What becomes of the directive of a branch.
#[derive(Clone, Copy)]
pub enum Written {
    Stays,
    /// It stands in text that isn't taken.
    Within,
    Gone,
    AsIfDef,
    AsElse,
}

/// Whether the text at hand is taken.
pub fn is_taken(branches: &[Branch]) -> bool {
    match branches.last() {
        Some(branch) => branch.taken,
        None => true,
    }
}

/// Whether the text at hand isn't taken, and goes.
pub fn goes(branches: &[Branch]) -> bool {
    match branches.last() {
        Some(branch) => branch.text_goes(),
        None => false,
    }
}

impl Branch {
    fn text_goes(&self) -> bool {
        match self.form {
            Form::Kept => false,
            Form::Cut | Form::Gone => !self.taken,
            Form::Within { goes } => goes,
        }
    }

    fn with(self, taken: bool, settled: bool, last: bool, form: Form) -> Branch {
        Branch {
            line: self.line,
            taken,
            settled,
            last,
            form,
        }
    }

    // The branch with its next text, and what becomes of the directive.
    fn next(self, test: Test) -> (Branch, Written) {
        let taken = test.holds && !self.settled;
        let settled = test.holds || self.settled;
        let (form, written) = match self.form {
            Form::Within { .. } => (self.form, Written::Within),
            Form::Kept if self.settled || test.holds == test.holds_there => {
                (Form::Kept, Written::Stays)
            }
            Form::Kept => (Form::Cut, Written::AsElse),
            Form::Gone if self.is_begun_by(test) => (Form::Kept, Written::AsIfDef),
            Form::Cut | Form::Gone => (self.form, Written::Gone),
        };
        (self.with(taken, settled, test.last, form), written)
    }

    // Whether a test may open what is left of a branch whose directives are gone so far.
    fn is_begun_by(self, test: Test) -> bool {
        !self.settled && !test.last && test.may_stay && test.holds == test.holds_there
    }
}

/// Opens a branch.
pub fn open(branches: &mut Vec<Branch>, line: Line, test: Test) -> Result<Written, NoMemory> {
    let round = is_taken(branches);
    let (form, written) = if !round {
        let goes = goes(branches);
        (Form::Within { goes }, Written::Within)
    } else if test.may_stay && test.holds == test.holds_there {
        (Form::Kept, Written::Stays)
    } else {
        (Form::Gone, Written::Gone)
    };
    branches.push(Branch {
        line,
        taken: test.holds && round,
        settled: test.holds || !round,
        last: false,
        form,
    })?;
    Ok(written)
}

/// The innermost branch goes on with another text, if it may.
pub fn go_on(branches: &mut Vec<Branch>, test: Test) -> Result<Option<Written>, NoMemory> {
    let Some(branch) = branches.pop() else {
        return Ok(None);
    };
    if branch.last && is_taken(branches) {
        branches.push(branch)?;
        return Ok(None);
    }
    let (branch, written) = branch.next(test);
    branches.push(branch)?;
    Ok(Some(written))
}

/// Closes the innermost branch, if there is one.
pub fn close(branches: &mut Vec<Branch>) -> Option<Written> {
    let branch = branches.pop()?;
    Some(match branch.form {
        Form::Kept | Form::Cut => Written::Stays,
        Form::Gone => Written::Gone,
        Form::Within { .. } => Written::Within,
    })
}
