// Modules and whole netlists.
ghost use Rattle.std.specs.Prelude.{◌≡◌, IfOk, length, map, OnOk, option_map};
ghost use Rattle.vl_token.specs.Seen.{lexeme};
ghost use Rattle.vl_tree.specs.Modules as modules;
ghost use Rattle.vl_print.specs.ModulesPrinting.{put_port_list};
ghost use Rattle.vl_print.specs.Printing.{put_optional};
ghost use Rattle.vl_print.specs.Printed.{IsSpelledSource, SpellsAll};
ghost use Rattle.vl_tree.specs.Seen.{view_head, view_source};

use crate::items::{print_direction, print_optional_net_type};
use crate::lists::{Print, print_behind_commas, print_listed, print_many, print_optional};
use crate::tokens::{keyword, symbol, token};
use sg_text::{Keyword, NoMemory};
use std::alloc::Global;
use vl_token::{Symbol, Token, TokenKind};
use vl_tree::{Head, HeadPort, Module, Part, PortDeclaration, Source};

impl<'a> Print<'a> for PortDeclaration<'a> {
    ghost use Rattle.vl_tree.specs.Tree.{PortDeclaration as TreeSeen};
    ghost use Rattle.vl_tree.specs.Seen.{view_port_declaration};
    ghost use Rattle.vl_print.specs.ModulesPrinting.{put_port_declaration};

    ghost Tree = { TreeSeen };

    ghost view = { view_port_declaration };

    ghost tokens = { put_port_declaration };

    fn print(&self, out: &mut Vec<Token<'a>>) -> Result<(), NoMemory> {
        print_direction(out, self.direction, self.place)?;
        print_optional_net_type(out, self.net)?;
        print_optional(out, &self.range)?;
        self.name.print(out)
    }
}

impl<'a> Print<'a> for HeadPort<'a> {
    ghost use Rattle.vl_tree.specs.Tree.{HeadPort as TreeSeen};
    ghost use Rattle.vl_tree.specs.Seen.{view_head_port};
    ghost use Rattle.vl_print.specs.ModulesPrinting.{put_head_port};

    ghost Tree = { TreeSeen };

    ghost view = { view_head_port };

    ghost tokens = { put_head_port };

    fn print(&self, out: &mut Vec<Token<'a>>) -> Result<(), NoMemory> {
        match self {
            HeadPort::Declaration(declaration) => declaration.print(out),
            HeadPort::Name(name) => name.print(out),
        }
    }
}

impl<'a> Print<'a> for Head<'a> {
    ghost use Rattle.vl_tree.specs.Tree.{Head as TreeSeen};
    ghost use Rattle.vl_tree.specs.Seen.{view_head};
    ghost use Rattle.vl_print.specs.ModulesPrinting.{put_head};

    ghost Tree = { TreeSeen };

    ghost view = { view_head };

    ghost tokens = { put_head };

    fn print(&self, out: &mut Vec<Token<'a>>) -> Result<(), NoMemory> {
        match self {
            Head::Names(names) => print_listed(out, names.as_slice()),
            Head::Declarations { first, rest } => {
                first.print(out)?;
                print_behind_commas(out, rest.as_slice())
            }
        }
    }
}

/// `"(" [ head ] ")"`
fn print_port_list<'a>(out: &mut Vec<Token<'a>>, head: &Option<Head<'a>>) -> Result<(), NoMemory>
    ensures { OnOk result (map lexeme out.new.items ≡ put_port_list (option_map view_head head.now) (map lexeme out.old.items)) }
{
    symbol(out, Symbol::LeftParen)?;
    print_optional(out, head)?;
    symbol(out, Symbol::RightParen)
}

fn print_optional_port_list<'a>(
    out: &mut Vec<Token<'a>>,
    list: &Option<Option<Head<'a>>>,
) -> Result<(), NoMemory>
    ensures { OnOk result (map lexeme out.new.items ≡ put_optional put_port_list (option_map (option_map view_head) list.now) (map lexeme out.old.items)) }
{
    match list {
        None => Ok(()),
        Some(head) => print_port_list(out, head),
    }
}

impl<'a> Print<'a> for Module<'a> {
    ghost use Rattle.vl_tree.specs.Tree.{Module as TreeSeen};
    ghost use Rattle.vl_tree.specs.Seen.{view_module};
    ghost use Rattle.vl_print.specs.ModulesPrinting.{put_module};

    ghost Tree = { TreeSeen };

    ghost view = { view_module };

    ghost tokens = { put_module };

    fn print(&self, out: &mut Vec<Token<'a>>) -> Result<(), NoMemory> {
        token(out, TokenKind::Module(self.mark), self.place)?;
        self.name.print(out)?;
        print_optional_port_list(out, &self.head)?;
        symbol(out, Symbol::Semicolon)?;
        print_many(out, self.items.as_slice())?;
        keyword(out, Keyword::EndModule)
    }
}

impl<'a> Print<'a> for Part<'a> {
    ghost use Rattle.vl_tree.specs.Tree.{Part as TreeSeen};
    ghost use Rattle.vl_tree.specs.Seen.{view_part};
    ghost use Rattle.vl_print.specs.ModulesPrinting.{put_part};

    ghost Tree = { TreeSeen };

    ghost view = { view_part };

    ghost tokens = { put_part };

    fn print(&self, out: &mut Vec<Token<'a>>) -> Result<(), NoMemory> {
        match self {
            Part::Module(module) => module.print(out),
            Part::Primitive(primitive) => primitive.print(out),
        }
    }
}

/// Tokens that spell the tree, where any tokens do (IEEE 1364-2005, annex A). A token of which the tree has no place stands
/// at byte 0 of file 0. Takes memory in proportion to the tree.
pub fn print<'a>(alloc: Global, source: &Source<'a>) -> Result<Vec<Token<'a>>, NoMemory>
    ensures { IsSpelledSource (view_source source.now) → IfOk result (λ tokens. SpellsAll (map lexeme tokens.items) (view_source source.now)) }
{
    let mut out = Vec::new(alloc);
    print_many(&mut out, source.parts.as_slice())?;
    Ok(out)
}
