// Paths of specify blocks.
ghost use Rattle.std.specs.Prelude.{◌≡◌, map, OnOk, option_map};
ghost use Rattle.vl_token.specs.Seen.{lexeme};
ghost use Rattle.vl_print.specs.Printing.{put_optional};
ghost use Rattle.vl_tree.specs.Seen.{view_edge, view_path_condition};
ghost use Rattle.vl_print.specs.SpecifyPrinting.{put_arrow, put_edge, put_path_opening};

use crate::amounts::print_delays;
use crate::lists::{Print, print_listed, print_many, print_optional};
use crate::tokens::{NOWHERE, keyword_at, symbol, symbol_at, token};
use sg_text::{Keyword, NoMemory, Place};
use vl_token::{Symbol, Token, TokenKind};
use vl_tree::{
    Arrow, DataSource, Destination, EdgePair, EdgeWord, PathCondition, Polarity, SpecifyPath,
};

impl<'a> Print<'a> for EdgePair {
    ghost use Rattle.vl_tree.specs.declared.paths.EdgePair.{EdgePair as TreeSeen};
    ghost use Rattle.vl_print.specs.SpecifyPrinting.{put_pair};

    ghost Tree = { TreeSeen };

    ghost view = { λ p. p };

    ghost tokens = { put_pair };

    fn print(&self, out: &mut Vec<Token<'a>>) -> Result<(), NoMemory> {
        let pair = TokenKind::Pair {
            from: self.from,
            to: self.to,
        };
        token(out, pair, NOWHERE)
    }
}

pub fn print_edge(out: &mut Vec<Token<'_>>, edge: &EdgeWord, place: Place) -> Result<(), NoMemory>
    ensures { OnOk result (map lexeme out.new.items ≡ put_edge place (view_edge edge.now) (map lexeme out.old.items)) }
{
    match edge {
        EdgeWord::Posedge => keyword_at(out, Keyword::Posedge, place),
        EdgeWord::Negedge => keyword_at(out, Keyword::Negedge, place),
        EdgeWord::Pairs(pairs) => {
            keyword_at(out, Keyword::Edge, place)?;
            symbol(out, Symbol::LeftBracket)?;
            print_listed(out, pairs.as_slice())?;
            symbol(out, Symbol::RightBracket)
        }
    }
}

fn print_optional_edge(out: &mut Vec<Token<'_>>, edge: &Option<EdgeWord>) -> Result<(), NoMemory>
    ensures { OnOk result (map lexeme out.new.items ≡ put_optional (put_edge NOWHERE) (option_map view_edge edge.now) (map lexeme out.old.items)) }
{
    match edge {
        None => Ok(()),
        Some(edge) => print_edge(out, edge, NOWHERE),
    }
}

impl<'a> Print<'a> for Polarity {
    ghost use Rattle.vl_tree.specs.declared.paths.Polarity.{Polarity as TreeSeen};
    ghost use Rattle.vl_print.specs.SpecifyPrinting.{put_polarity};

    ghost Tree = { TreeSeen };

    ghost view = { λ p. p };

    ghost tokens = { put_polarity };

    fn print(&self, out: &mut Vec<Token<'a>>) -> Result<(), NoMemory> {
        match self {
            Polarity::Positive => symbol(out, Symbol::Plus),
            Polarity::Negative => symbol(out, Symbol::Minus),
        }
    }
}

fn print_arrow(out: &mut Vec<Token<'_>>, arrow: Arrow) -> Result<(), NoMemory>
    ensures { OnOk result (map lexeme out.new.items ≡ put_arrow arrow (map lexeme out.old.items)) }
{
    match arrow {
        Arrow::Parallel => symbol(out, Symbol::Parallel),
        Arrow::Full => symbol(out, Symbol::Full),
    }
}

impl<'a> Print<'a> for DataSource<'a> {
    ghost use Rattle.vl_tree.specs.Tree.{DataSource as TreeSeen};
    ghost use Rattle.vl_tree.specs.Seen.{view_data_source};
    ghost use Rattle.vl_print.specs.SpecifyPrinting.{put_data_source};

    ghost Tree = { TreeSeen };

    ghost view = { view_data_source };

    ghost tokens = { put_data_source };

    fn print(&self, out: &mut Vec<Token<'a>>) -> Result<(), NoMemory> {
        print_optional(out, &self.polarity)?;
        symbol(out, Symbol::Colon)?;
        print_many(out, self.words.as_slice())
    }
}

impl<'a> Print<'a> for Destination<'a> {
    ghost use Rattle.vl_tree.specs.Tree.{Destination as TreeSeen};
    ghost use Rattle.vl_tree.specs.Seen.{view_destination};
    ghost use Rattle.vl_print.specs.SpecifyPrinting.{put_destination};

    ghost Tree = { TreeSeen };

    ghost view = { view_destination };

    ghost tokens = { put_destination };

    fn print(&self, out: &mut Vec<Token<'a>>) -> Result<(), NoMemory> {
        match &self.source {
            None => print_listed(out, self.terms.as_slice()),
            Some(source) => {
                symbol(out, Symbol::LeftParen)?;
                print_listed(out, self.terms.as_slice())?;
                source.print(out)?;
                symbol(out, Symbol::RightParen)
            }
        }
    }
}

// What stands before the edge.
fn print_path_opening<'a>(
    out: &mut Vec<Token<'a>>,
    condition: &PathCondition<'a>,
    place: Place,
) -> Result<(), NoMemory>
    ensures { OnOk result (map lexeme out.new.items ≡ put_path_opening place (view_path_condition condition.now) (map lexeme out.old.items)) }
{
    match condition {
        PathCondition::Always => symbol_at(out, Symbol::LeftParen, place),
        PathCondition::IfNone => {
            keyword_at(out, Keyword::IfNone, place)?;
            symbol(out, Symbol::LeftParen)
        }
        PathCondition::If(words) => {
            keyword_at(out, Keyword::If, place)?;
            symbol(out, Symbol::LeftParen)?;
            print_many(out, words.as_slice())?;
            symbol(out, Symbol::RightParen)?;
            symbol(out, Symbol::LeftParen)
        }
    }
}

impl<'a> Print<'a> for SpecifyPath<'a> {
    ghost use Rattle.vl_tree.specs.Tree.{SpecifyPath as TreeSeen};
    ghost use Rattle.vl_tree.specs.Seen.{view_path};
    ghost use Rattle.vl_print.specs.SpecifyPrinting.{put_path};

    ghost Tree = { TreeSeen };

    ghost view = { view_path };

    ghost tokens = { put_path };

    fn print(&self, out: &mut Vec<Token<'a>>) -> Result<(), NoMemory> {
        print_path_opening(out, &self.condition, self.place)?;
        print_optional_edge(out, &self.edge)?;
        print_listed(out, self.sources.as_slice())?;
        print_optional(out, &self.polarity)?;
        print_arrow(out, self.arrow)?;
        self.destination.print(out)?;
        symbol(out, Symbol::RightParen)?;
        symbol(out, Symbol::Assign)?;
        print_delays(out, self.delays.as_slice())
    }
}
