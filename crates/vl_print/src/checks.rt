// Timing checks.
ghost use Rattle.std.specs.Prelude.{◌≡◌, map, None, OnOk, option_map};
ghost use Rattle.vl_token.specs.Seen.{lexeme};
ghost use Rattle.vl_token.specs.declared.symbols.Symbol.TheVariants as symbols;
ghost use Rattle.vl_token.specs.Tokens.{system_token};
ghost use Rattle.vl_print.specs.Printing.{put_mark, put_optional, put_token};
ghost use Rattle.vl_tree.specs.Seen.{view_edge, view_event, view_limit, view_name, view_term, view_word};
ghost use Rattle.vl_print.specs.SpecifyPrinting.{check_text, put_event_term, put_events, put_events_of, put_held, put_last_arguments, put_notifier, put_threshold_and_notifier, put_up_to_delayed};

use crate::amounts::print_next_limit;
use crate::lists::{Print, print_many, print_optional};
use crate::paths::print_edge;
use crate::tokens::{symbol, token};
use sg_text::{NoMemory, Place};
use vl_token::{Symbol, Token, TokenKind};
use vl_tree::{
    Check, CheckName, EdgeWord, Event, Limit, Name, OneLimitCheck, Term, TwoLimitCheck, Word,
};

// `[ edge ] term`
fn print_event_term<'a>(
    out: &mut Vec<Token<'a>>,
    edge: &Option<EdgeWord>,
    term: &Term<'a>,
    place: Place,
) -> Result<(), NoMemory>
    ensures { OnOk result (map lexeme out.new.items ≡ put_event_term place (option_map view_edge edge.now) (view_term term.now) (map lexeme out.old.items)) }
{
    match edge {
        None => term.print(out),
        Some(edge) => {
            print_edge(out, edge, place)?;
            term.print(out)
        }
    }
}

// `[ "&&&" condition ]`
fn print_held<'a>(
    out: &mut Vec<Token<'a>>,
    condition: &Option<Vec<Word<'a>>>,
) -> Result<(), NoMemory>
    ensures { OnOk result (map lexeme out.new.items ≡ put_optional put_held (option_map (λ words. map view_word words.items) condition.now) (map lexeme out.old.items)) }
{
    match condition {
        None => Ok(()),
        Some(words) => {
            symbol(out, Symbol::AndAndAnd)?;
            print_many(out, words.as_slice())
        }
    }
}

impl<'a> Print<'a> for Event<'a> {
    ghost use Rattle.vl_tree.specs.Tree.{Event as TreeSeen};
    ghost use Rattle.vl_tree.specs.Seen.{view_event};
    ghost use Rattle.vl_print.specs.SpecifyPrinting.{put_event};

    ghost Tree = { TreeSeen };

    ghost view = { view_event };

    ghost tokens = { put_event };

    fn print(&self, out: &mut Vec<Token<'a>>) -> Result<(), NoMemory> {
        print_event_term(out, &self.edge, &self.term, self.place)?;
        print_held(out, &self.condition)
    }
}

// `event "," event`
fn print_events<'a>(
    out: &mut Vec<Token<'a>>,
    first: &Event<'a>,
    second: &Event<'a>,
) -> Result<(), NoMemory>
    ensures { OnOk result (map lexeme out.new.items ≡ put_events (view_event first.now) (view_event second.now) (map lexeme out.old.items)) }
{
    first.print(out)?;
    symbol(out, Symbol::Comma)?;
    second.print(out)
}

// The data of `$setup` stands before the reference.
fn print_events_of<'a>(
    out: &mut Vec<Token<'a>>,
    check: OneLimitCheck,
    reference: &Event<'a>,
    second: &Event<'a>,
) -> Result<(), NoMemory>
    ensures { OnOk result (map lexeme out.new.items ≡ put_events_of check (view_event reference.now) (view_event second.now) (map lexeme out.old.items)) }
{
    match check {
        OneLimitCheck::Setup => print_events(out, second, reference),
        OneLimitCheck::Hold => print_events(out, reference, second),
        OneLimitCheck::Recovery => print_events(out, reference, second),
        OneLimitCheck::Removal => print_events(out, reference, second),
        OneLimitCheck::Skew => print_events(out, reference, second),
    }
}

// The name of a check.
fn check_text(check: CheckName) -> &'static [u8]
    ensures { result.now ≡ check_text check }
{
    match check {
        CheckName::OneLimit(OneLimitCheck::Setup) => b"$setup",
        CheckName::OneLimit(OneLimitCheck::Hold) => b"$hold",
        CheckName::OneLimit(OneLimitCheck::Recovery) => b"$recovery",
        CheckName::OneLimit(OneLimitCheck::Removal) => b"$removal",
        CheckName::OneLimit(OneLimitCheck::Skew) => b"$skew",
        CheckName::TwoLimits(TwoLimitCheck::SetupHold) => b"$setuphold",
        CheckName::TwoLimits(TwoLimitCheck::RecRem) => b"$recrem",
        CheckName::Width => b"$width",
        CheckName::Period => b"$period",
    }
}

// `name "("`
fn print_opening(out: &mut Vec<Token<'_>>, check: CheckName, place: Place) -> Result<(), NoMemory>
    ensures { OnOk result (map lexeme out.new.items ≡ put_mark symbols.LeftParen (put_token (system_token (check_text check)) place (map lexeme out.old.items))) }
{
    token(out, TokenKind::System(check_text(check)), place)?;
    symbol(out, Symbol::LeftParen)
}

// `[ "," name ]`
fn print_notifier<'a>(out: &mut Vec<Token<'a>>, notifier: &Option<Name<'a>>) -> Result<(), NoMemory>
    ensures { OnOk result (map lexeme out.new.items ≡ put_notifier (option_map view_name notifier.now) (map lexeme out.old.items)) }
{
    match notifier {
        None => Ok(()),
        Some(name) => {
            symbol(out, Symbol::Comma)?;
            name.print(out)
        }
    }
}

// `[ "," [ threshold ] [ "," name ] ]`
fn print_threshold_and_notifier<'a>(
    out: &mut Vec<Token<'a>>,
    threshold: &Option<Limit<'a>>,
    notifier: &Option<Name<'a>>,
) -> Result<(), NoMemory>
    ensures { OnOk result (map lexeme out.new.items ≡ put_threshold_and_notifier (option_map view_limit threshold.now) (option_map view_name notifier.now) (map lexeme out.old.items)) }
{
    match threshold {
        Some(threshold) => {
            print_next_limit(out, threshold)?;
            print_notifier(out, notifier)
        }
        None => print_behind_no_threshold(out, notifier),
    }
}

// An empty threshold is put where a notifier stands behind it.
fn print_behind_no_threshold<'a>(
    out: &mut Vec<Token<'a>>,
    notifier: &Option<Name<'a>>,
) -> Result<(), NoMemory>
    ensures { OnOk result (map lexeme out.new.items ≡ put_threshold_and_notifier None (option_map view_name notifier.now) (map lexeme out.old.items)) }
{
    match notifier {
        None => Ok(()),
        Some(name) => {
            symbol(out, Symbol::Comma)?;
            symbol(out, Symbol::Comma)?;
            name.print(out)
        }
    }
}

// `"," [ name ] "," ","`
fn print_up_to_delayed<'a>(
    out: &mut Vec<Token<'a>>,
    notifier: &Option<Name<'a>>,
) -> Result<(), NoMemory>
    ensures { OnOk result (map lexeme out.new.items ≡ put_up_to_delayed (option_map view_name notifier.now) (map lexeme out.old.items)) }
{
    symbol(out, Symbol::Comma)?;
    print_optional(out, notifier)?;
    symbol(out, Symbol::Comma)?;
    symbol(out, Symbol::Comma)
}

// The arguments behind the limits of a check with two.
fn print_last_arguments<'a>(
    out: &mut Vec<Token<'a>>,
    notifier: &Option<Name<'a>>,
    delayed_reference: &Option<Name<'a>>,
    delayed_data: &Option<Name<'a>>,
) -> Result<(), NoMemory>
    ensures { OnOk result (map lexeme out.new.items ≡ put_last_arguments (option_map view_name notifier.now) (option_map view_name delayed_reference.now) (option_map view_name delayed_data.now) (map lexeme out.old.items)) }
{
    match delayed_reference {
        Some(name) => {
            print_up_to_delayed(out, notifier)?;
            symbol(out, Symbol::Comma)?;
            name.print(out)?;
            print_notifier(out, delayed_data)
        }
        None => print_behind_no_reference(out, notifier, delayed_data),
    }
}

// An empty delayed reference is put where delayed data stand behind it.
fn print_behind_no_reference<'a>(
    out: &mut Vec<Token<'a>>,
    notifier: &Option<Name<'a>>,
    delayed_data: &Option<Name<'a>>,
) -> Result<(), NoMemory>
    ensures { OnOk result (map lexeme out.new.items ≡ put_last_arguments (option_map view_name notifier.now) None (option_map view_name delayed_data.now) (map lexeme out.old.items)) }
{
    match delayed_data {
        None => print_notifier(out, notifier),
        Some(name) => {
            print_up_to_delayed(out, notifier)?;
            symbol(out, Symbol::Comma)?;
            symbol(out, Symbol::Comma)?;
            name.print(out)
        }
    }
}

impl<'a> Print<'a> for Check<'a> {
    ghost use Rattle.vl_tree.specs.Tree.{Check as TreeSeen};
    ghost use Rattle.vl_tree.specs.Seen.{view_check};
    ghost use Rattle.vl_print.specs.SpecifyPrinting.{put_check};

    ghost Tree = { TreeSeen };

    ghost view = { view_check };

    ghost tokens = { put_check };

    fn print(&self, out: &mut Vec<Token<'a>>) -> Result<(), NoMemory> {
        match self {
            Check::OneLimit {
                place,
                check,
                reference,
                data: second,
                limit,
                notifier,
            } => {
                print_opening(out, CheckName::OneLimit(*check), *place)?;
                print_events_of(out, *check, reference, second)?;
                print_next_limit(out, limit)?;
                print_notifier(out, notifier)?;
            }
            Check::TwoLimits {
                place,
                check,
                reference,
                data: second,
                first: first_limit,
                second: second_limit,
                notifier,
                delayed_reference,
                delayed_data,
            } => {
                print_opening(out, CheckName::TwoLimits(*check), *place)?;
                print_events(out, reference, second)?;
                print_next_limit(out, first_limit)?;
                print_next_limit(out, second_limit)?;
                print_last_arguments(out, notifier, delayed_reference, delayed_data)?;
            }
            Check::Width {
                place,
                reference,
                limit,
                threshold,
                notifier,
            } => {
                print_opening(out, CheckName::Width, *place)?;
                reference.print(out)?;
                print_next_limit(out, limit)?;
                print_threshold_and_notifier(out, threshold, notifier)?;
            }
            Check::Period {
                place,
                reference,
                limit,
                notifier,
            } => {
                print_opening(out, CheckName::Period, *place)?;
                reference.print(out)?;
                print_next_limit(out, limit)?;
                print_notifier(out, notifier)?;
            }
        }
        symbol(out, Symbol::RightParen)
    }
}
