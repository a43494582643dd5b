// Cells.
use crate::changing::{Pen, span_of};
use crate::counts::{Count, add_count, name_of, word_of};
use fit_changes::Rule;
use fit_delays::{keyword_of, parts_of};
use fit_entries::{Note, Scope, Work, add_note, join_pairs, work_of};
use fit_places::{Netlist, Spot, reach};
use sdf_lex::{Lexeme, Token};
use sdf_tree::Keyword;
use sg_text::NoMemory;
use std::alloc::Global;

/// What is read of a file.
#[derive(Drop)]
pub struct Reading<'n, 's, 'v, 'a> {
    pub netlist: &'n Netlist<'s, 'v>,
    pub divider: u8,
    pub pen: Pen<'a>,
    pub counts: Vec<Count>,
}

// The text in the group of a CELLTYPE, and where the cell's instance leads.
#[derive(Clone, Copy)]
struct Named<'a> {
    cell_type: &'a [u8],
    instance: Option<Instance<'a>>,
}

#[derive(Clone, Copy)]
enum Instance<'a> {
    Top,
    All,
    Path(&'a [u8]),
}

fn cell_type_of<'a>(group: &[Token<'a>]) -> &'a [u8] {
    match group.get(2) {
        Some(token) => match token.lexeme {
            Lexeme::Text(bytes) => bytes,
            _ => b"",
        },
        None => b"",
    }
}

fn instance_of<'a>(group: &[Token<'a>]) -> Option<Instance<'a>> {
    match group.get(2)?.lexeme {
        Lexeme::Right => Some(Instance::Top),
        Lexeme::Star => Some(Instance::All),
        Lexeme::Word(path) => Some(Instance::Path(path)),
        Lexeme::Selected { whole, .. } => Some(Instance::Path(whole)),
        _ => None,
    }
}

fn names_of<'a>(parts: &[&[Token<'a>]]) -> Named<'a> {
    let mut found = Named {
        cell_type: b"",
        instance: None,
    };
    for part in parts {
        match keyword_of(part) {
            Some(Keyword::CellType) => found.cell_type = cell_type_of(part),
            Some(Keyword::Instance) => found.instance = instance_of(part),
            _ => {}
        }
    }
    found
}

// The instance of a cell, or one of its type.
fn spot_of(
    alloc: Global,
    netlist: &Netlist<'_, '_>,
    divider: u8,
    cell: Named<'_>,
) -> Result<Option<Spot>, NoMemory> {
    let Some(top) = netlist.top else {
        return Ok(None);
    };
    let top = Spot::new(alloc, top);
    match cell.instance {
        Some(Instance::Top) => Ok(Some(top)),
        Some(Instance::Path(path)) => reach(alloc, netlist, divider, &top, path),
        Some(Instance::All) => Ok(match netlist.modules.get_index_of(cell.cell_type) {
            Some(module) => Some(Spot::new(alloc, module)),
            None => None,
        }),
        None => Ok(None),
    }
}

fn path_of<'a>(cell: Named<'a>) -> &'a [u8] {
    match cell.instance {
        Some(Instance::Path(path)) => path,
        Some(Instance::All) => b"*",
        _ => b"",
    }
}

// Whether a module is a copy of a cell that `fit` made, `FF__no_checks`.
fn is_copy(name: &[u8], cell_type: &[u8]) -> bool {
    match name.strip_prefix(cell_type) {
        Some([b'_', b'_', ..]) => true,
        _ => false,
    }
}

// What is told of a cell whose type isn't the instance's module.
fn type_note(
    alloc: Global,
    scope: &Scope<'_, '_, '_>,
    cell_type: &[u8],
) -> Result<Vec<Note>, NoMemory> {
    let mut notes = Vec::new(alloc);
    if let Some(spot) = &scope.spot {
        if let Some(module) = scope.netlist.module(spot.module) {
            if module.name != cell_type && !is_copy(module.name, cell_type) {
                add_note(
                    alloc,
                    &mut notes,
                    Rule::CellType,
                    &[cell_type, b" isn't the instance's ", module.name],
                )?;
            }
        }
    }
    Ok(notes)
}

impl<'n, 's, 'v, 'a> Reading<'n, 's, 'v, 'a> {
    fn count_work(&mut self, work: &Work<'_, '_>) -> Result<(), NoMemory> {
        for (draft, settled) in work.drafts.iter().zip(&work.settled) {
            if !draft.is_gone {
                add_count(&mut self.counts, word_of(draft), settled.found)?;
            }
        }
        Ok(())
    }

    fn count_skipped(&mut self, group: &[Token<'_>]) -> Result<(), NoMemory> {
        let word = match keyword_of(group) {
            Some(
                word @ (Keyword::BidirectSkew
                | Keyword::NoChange
                | Keyword::TimingEnv
                | Keyword::Label),
            ) => name_of(word),
            _ => None,
        };
        add_count(&mut self.counts, word, false)
    }

    fn finish(&mut self, work: Work<'_, '_>, path: &[u8]) -> Result<(), NoMemory> {
        self.count_work(&work)?;
        self.pen.write(work, path)
    }

    fn add_entry(
        &mut self,
        scope: &Scope<'_, '_, '_>,
        group: &[Token<'a>],
        path: &[u8],
    ) -> Result<(), NoMemory> {
        match work_of(self.pen.alloc, scope, group)? {
            Some(work) => self.finish(work, path),
            None => Ok(()),
        }
    }

    fn add_delays(
        &mut self,
        scope: &Scope<'_, '_, '_>,
        group: &[Token<'a>],
        path: &[u8],
    ) -> Result<(), NoMemory> {
        for part in parts_of(self.pen.alloc, group)?.iter().skip(1) {
            match keyword_of(part) {
                Some(Keyword::Absolute | Keyword::Increment) => {
                    for entry in parts_of(self.pen.alloc, part)?.iter().skip(1) {
                        self.add_entry(scope, entry, path)?;
                    }
                }
                _ => self.add_entry(scope, part, path)?,
            }
        }
        Ok(())
    }

    fn add_checks<'t>(
        &mut self,
        scope: &Scope<'_, '_, '_>,
        group: &'t [Token<'a>],
        works: &mut Vec<Work<'t, 'a>>,
    ) -> Result<(), NoMemory> {
        for part in parts_of(self.pen.alloc, group)?.iter().skip(1) {
            match work_of(self.pen.alloc, scope, part)? {
                Some(work) => works.push(work)?,
                None => self.count_skipped(part)?,
            }
        }
        Ok(())
    }

    fn finish_checks(&mut self, works: Vec<Work<'_, '_>>, path: &[u8]) -> Result<(), NoMemory> {
        let mut works = works;
        join_pairs(self.pen.alloc, &mut works)?;
        for work in works {
            self.finish(work, path)?;
        }
        Ok(())
    }

    // Checks are joined over the groups that stand behind one another.
    fn add_parts(
        &mut self,
        scope: &Scope<'_, '_, '_>,
        parts: &[&[Token<'a>]],
        path: &[u8],
    ) -> Result<(), NoMemory> {
        let alloc = self.pen.alloc;
        let mut works = Vec::new(alloc);
        for part in parts {
            match keyword_of(part) {
                Some(Keyword::Delay) => {
                    self.finish_checks(works, path)?;
                    works = Vec::new(alloc);
                    self.add_delays(scope, part, path)?;
                }
                Some(Keyword::TimingCheck) => self.add_checks(scope, part, &mut works)?,
                Some(Keyword::TimingEnv | Keyword::Label) => self.count_skipped(part)?,
                _ => {}
            }
        }
        self.finish_checks(works, path)
    }

    fn tell_type(
        &mut self,
        group: &[Token<'a>],
        notes: Vec<Note>,
        path: &[u8],
    ) -> Result<(), NoMemory> {
        if let Some((byte, _)) = span_of(group) {
            for note in notes {
                self.pen.tell(byte, note, path)?;
            }
        }
        Ok(())
    }

    /// Adds a cell: the changes of its entries, and their counts.
    pub fn add_cell(&mut self, group: &[Token<'a>]) -> Result<(), NoMemory> {
        let alloc = self.pen.alloc;
        let parts = parts_of(alloc, group)?;
        let cell = names_of(&parts);
        let scope = Scope {
            netlist: self.netlist,
            divider: self.divider,
            spot: spot_of(alloc, self.netlist, self.divider, cell)?,
        };
        let path = path_of(cell);
        let notes = type_note(alloc, &scope, cell.cell_type)?;
        self.tell_type(group, notes, path)?;
        self.add_parts(&scope, &parts, path)
    }
}
