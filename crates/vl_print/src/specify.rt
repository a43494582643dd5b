// Specify blocks and their items.
ghost use Rattle.std.specs.Prelude.{◌≡◌, map, OnOk};
ghost use Rattle.vl_token.specs.Seen.{lexeme};
ghost use Rattle.vl_print.specs.SpecifyPrinting.{put_style};

use crate::lists::{Print, print_listed, print_many};
use crate::tokens::{keyword, keyword_at, symbol};
use sg_text::{Keyword, NoMemory, Place};
use vl_token::{Symbol, Token};
use vl_tree::{PulseStyle, SpecifyBlock, SpecifyItem};

fn print_style(out: &mut Vec<Token<'_>>, style: PulseStyle, place: Place) -> Result<(), NoMemory>
    ensures { OnOk result (map lexeme out.new.items ≡ put_style place style (map lexeme out.old.items)) }
{
    match style {
        PulseStyle::OnEvent => keyword_at(out, Keyword::PulseStyleOnEvent, place),
        PulseStyle::OnDetect => keyword_at(out, Keyword::PulseStyleOnDetect, place),
        PulseStyle::NoShowCancelled => keyword_at(out, Keyword::NoShowCancelled, place),
    }
}

impl<'a> Print<'a> for SpecifyItem<'a> {
    ghost use Rattle.vl_tree.specs.Tree.{SpecifyItem as TreeSeen};
    ghost use Rattle.vl_tree.specs.Seen.{view_specify_item};
    ghost use Rattle.vl_print.specs.SpecifyPrinting.{put_specify_item};

    ghost Tree = { TreeSeen };

    ghost view = { view_specify_item };

    ghost tokens = { put_specify_item };

    fn print(&self, out: &mut Vec<Token<'a>>) -> Result<(), NoMemory> {
        match self {
            SpecifyItem::Specparams { place, parameters } => {
                keyword_at(out, Keyword::SpecParam, *place)?;
                print_listed(out, parameters.as_slice())?;
            }
            SpecifyItem::Path(path) => path.print(out)?,
            SpecifyItem::PulseStyle {
                place,
                style,
                terms,
            } => {
                print_style(out, *style, *place)?;
                print_listed(out, terms.as_slice())?;
            }
            SpecifyItem::Check(check) => check.print(out)?,
        }
        symbol(out, Symbol::Semicolon)
    }
}

impl<'a> Print<'a> for SpecifyBlock<'a> {
    ghost use Rattle.vl_tree.specs.Tree.{SpecifyBlock as TreeSeen};
    ghost use Rattle.vl_tree.specs.Seen.{view_block};
    ghost use Rattle.vl_print.specs.SpecifyPrinting.{put_block};

    ghost Tree = { TreeSeen };

    ghost view = { view_block };

    ghost tokens = { put_block };

    fn print(&self, out: &mut Vec<Token<'a>>) -> Result<(), NoMemory> {
        keyword_at(out, Keyword::Specify, self.place)?;
        print_many(out, self.items.as_slice())?;
        keyword(out, Keyword::EndSpecify)
    }
}
