// What comes of one piece of a text: a token, a fault, or a change of the state.
ghost use Rattle.std.specs.Prelude.{◌≡◌, ◌≤◌, ◌<◌, ◌+◌, ◌^◌, length, drop, OnOk, IfOk, IfSome, Option, Some, None};
ghost use Rattle.std.specs.List.{prefix_len};
ghost use Rattle.vl_pieces.specs.Bytes.{is_blank};
ghost use Rattle.vl_lex.specs.State.{is_taken, is_looked_at, waits};
ghost use Rattle.vl_lex.specs.Directives.{with_macro, directive_of as directive_named};
ghost use Rattle.vl_lex.specs.Effects.{defines, mode_at, taken_piece, apply_or_wait, with_word, gap_outcome, begins_arguments, begins_name, line_effect, define_effect_behind, word_effect, first_words, use_effect, tick_effect, untaken_outcome, is_use, effect_at, effect, is_define, place_at};
ghost use Rattle.vl_lex.specs.Lexes.{Leads};
ghost use Rattle.vl_lex.specs.StateBridge.{waiting as waiting_seen, state, Gives, Answers, NoText, Steps};

use crate::branches::{is_taken, words_wanted};
use crate::directives::{Directive, Waiting, Word, directive_of};
use crate::faults::{LexKind, bad_directive, fault};
use crate::lexer::Lexer;
use crate::mode_changes::mode_behind;
use crate::origins::Origin;
use crate::piece_faults::{check_text, fault_in};
use sg_text::{NoMemory, Place, Refused, is_name_start};
use vl_pieces::{Class, Mode, behind_first, is_blank, kind_of, name_len};
use vl_token::Token;

fn is_define(directive: Directive) -> bool
    ensures { result ≡ is_define directive }
{
    matches!(directive, Directive::Define)
}

fn is_use(class: Class) -> bool
    ensures { result ≡ is_use class }
{
    matches!(class, Class::Use)
}

fn blank_len(bytes: &[u8]) -> usize
    ensures size { result ≡ prefix_len is_blank bytes.now }
    ensures within { result ≤ length bytes.now }
{
    bytes.iter().take_while(|b| is_blank(**b)).count()
}

fn begins_name(bytes: &[u8]) -> bool
    ensures { result ≡ begins_name bytes.now }
{
    match bytes {
        [b, ..] => is_name_start(*b),
        [] => false,
    }
}

fn begins_arguments(bytes: &[u8]) -> bool
    ensures { result ≡ begins_arguments bytes.now }
{
    matches!(bytes, [b'(', ..])
}

impl<'a> Lexer<'a> {
    // How the next piece is split off.
    pub fn mode_at(&self) -> Mode
        ensures { result ≡ mode_at (state self.now) }
    {
        match &self.waiting {
            Some(waiting) => if is_define(waiting.directive) {
                Mode::Line
            } else {
                Mode::Plain
            },
            None => if is_taken(&self.branches) {
                self.mode
            } else {
                Mode::Plain
            },
        }
    }

    // Whether the text at hand is looked at.
    fn is_looked_at(&self) -> bool
        ensures { result ≡ is_looked_at (state self.now).waiting (state self.now).branches }
    {
        match &self.waiting {
            Some(_) => true,
            None => is_taken(&self.branches),
        }
    }

    // A piece of text that is taken.
    fn take(&mut self, place: Place, class: Class, bytes: &'a [u8]) -> Result<(), NoMemory>
        requires { length bytes.now ≤ 2 ^ 28 }
        ensures { OnOk result (state self.new ≡ taken_piece place class bytes.now (state self.old)) }
    {
        if let Some(kind) = kind_of(class, bytes, self.mark) {
            self.tokens.push(Token { kind, place })?;
        }
        self.mode = mode_behind(self.mode, class, bytes);
        Ok(())
    }

    // A directive that has all its words is applied, and another one waits for them.
    fn apply_or_wait(&mut self, waiting: Waiting<'a>) -> Result<(), Refused<LexKind>>
        ensures { Gives (apply_or_wait (waiting_seen waiting.entry) (state self.old)) (state self.new) result }
    {
        if waiting.words.len() == words_wanted(waiting.directive, &self.branches) {
            self.waiting = None;
            self.apply(waiting.directive, waiting.place, &waiting.words)
        } else {
            self.waiting = Some(waiting);
            Ok(())
        }
    }

    // A macro is defined anew.
    fn put_macro(&mut self, name: &'a [u8], text: &'a [u8]) -> Result<(), NoMemory>
        requires { length text.now ≤ 2 ^ 28 }
        ensures { OnOk result (state self.new ≡ with_macro name.now text.now (state self.old)) }
    {
        self.macros.define(name, text)
    }

    // A macro is defined, if its text, which begins at this byte, is without fault.
    fn define_checked(
        &mut self,
        origin: Origin,
        start: usize,
        name: &'a [u8],
        text: &'a [u8],
    ) -> Result<(), Refused<LexKind>>
        requires few { length text.now ≤ 2 ^ 28 }
        requires place { start + length text.now < 2 ^ 62 }
        ensures { Answers (Leads NoText (defines origin start text.now (with_macro name.now text.now (state self.old)))) (state self.new) result }
    {
        match check_text(origin, start, text) {
            Ok(()) => {
                self.put_macro(name, text)?;
                Ok(())
            }
            Err(refused) => Err(refused),
        }
    }

    // A definition whose name and text follow so many blanks.
    fn define_by(
        &mut self,
        origin: Origin,
        at: usize,
        place: Place,
        blanks: usize,
        bytes: &'a [u8],
    ) -> Result<(), Refused<LexKind>>
        requires few { length bytes.now ≤ 2 ^ 28 }
        requires place { at + blanks + length bytes.now < 2 ^ 62 }
        ensures { Answers (Leads NoText (define_effect_behind origin at place blanks bytes.now (state self.old))) (state self.new) result }
    {
        if blanks == 0 || !begins_name(bytes) {
            return Err(bad_directive(place));
        }
        let size = name_len(bytes);
        let (name, text) = bytes.split_at(size);
        if begins_arguments(text) {
            return Err(bad_directive(place));
        }
        self.define_checked(origin, at + blanks + size, name, text)
    }

    // The line of a definition.
    fn define(
        &mut self,
        origin: Origin,
        at: usize,
        place: Place,
        line: &'a [u8],
    ) -> Result<(), Refused<LexKind>>
        requires few { length line.now ≤ 2 ^ 28 }
        requires place { at + length line.now < 2 ^ 62 }
        ensures { Answers (Leads NoText (line_effect origin at place line.now (state self.old))) (state self.new) result }
    {
        let blanks = blank_len(line);
        let (_, rest) = line.split_at(blanks);
        self.define_by(origin, at, place, blanks, rest)
    }

    // A word of a directive that waits for one.
    fn take_word(
        &mut self,
        waiting: Waiting<'a>,
        is_name: bool,
        bytes: &'a [u8],
    ) -> Result<(), Refused<LexKind>>
        ensures { Gives (apply_or_wait (with_word is_name bytes.now (waiting_seen waiting.entry)) (state self.old)) (state self.new) result }
    {
        let mut waiting = waiting;
        waiting.words.push(Word { is_name, bytes })?;
        self.apply_or_wait(waiting)
    }

    // What stands between the words of a directive.
    fn skip(&mut self, waiting: Waiting<'a>) -> Result<(), Refused<LexKind>>
        ensures { Gives (gap_outcome (waiting_seen waiting.entry) (waits (waiting_seen waiting.entry) (state self.old))) (state self.new) result }
    {
        if is_define(waiting.directive) {
            return Err(bad_directive(waiting.place));
        }
        self.waiting = Some(waiting);
        Ok(())
    }

    // A piece where a directive waits for words.
    fn await_words(
        &mut self,
        waiting: Waiting<'a>,
        origin: Origin,
        at: usize,
        class: Class,
        bytes: &'a [u8],
    ) -> Result<(), Refused<LexKind>>
        requires few { length bytes.now ≤ 2 ^ 28 }
        requires place { at + length bytes.now < 2 ^ 62 }
        ensures { Answers (Leads NoText (word_effect origin at (waiting_seen waiting.entry) class bytes.now (waits (waiting_seen waiting.entry) (state self.old)))) (state self.new) result }
    {
        match class {
            Class::Gap | Class::Attribute => self.skip(waiting),
            Class::Line => {
                self.waiting = None;
                self.define(origin, at, waiting.place, bytes)
            }
            Class::Use => Err(bad_directive(waiting.place)),
            Class::Name => self.take_word(waiting, true, bytes),
            _ => self.take_word(waiting, false, bytes),
        }
    }

    // A directive begins.
    fn begin(&mut self, directive: Directive, place: Place) -> Result<(), Refused<LexKind>>
        ensures { Gives (apply_or_wait (first_words directive place) (state self.old)) (state self.new) result }
    {
        let words = Vec::new(self.alloc);
        self.apply_or_wait(Waiting {
            directive,
            place,
            words,
        })
    }

    // A macro's use.
    fn use_macro(&mut self, place: Place, name: &[u8]) -> Result<Option<&'a [u8]>, Refused<LexKind>>
        ensures steps { Steps (use_effect place ((state self.old).macros name.now) (state self.old)) place (state self.new) result }
        ensures few { IfOk result (λ text. IfSome text (λ t. length t.now ≤ 2 ^ 28)) }
    {
        match self.macros.text_of(name) {
            Some(text) => Ok(Some(text)),
            None => Err(fault(LexKind::UnknownDirective, place)),
        }
    }

    // A backquote with a name, in text that is taken.
    fn direct(
        &mut self,
        origin: Origin,
        place: Place,
        name: &[u8],
    ) -> Result<Option<&'a [u8]>, Refused<LexKind>>
        ensures steps { Steps (tick_effect origin place name.now (directive_named name.now) (state self.old)) place (state self.new) result }
        ensures few { IfOk result (λ text. IfSome text (λ t. length t.now ≤ 2 ^ 28)) }
    {
        let directive = match origin {
            Origin::File(_) => directive_of(name),
            Origin::Macro(_) => None,
        };
        match directive {
            Some(directive) => {
                self.begin(directive, place)?;
                Ok(None)
            }
            None => self.use_macro(place, name),
        }
    }

    // The same in text that isn't taken.
    fn pass(&mut self, place: Place, name: &[u8]) -> Result<(), Refused<LexKind>>
        ensures { Gives (untaken_outcome place (directive_named name.now) (state self.old)) (state self.new) result }
    {
        match directive_of(name) {
            Some(directive) => {
                if directive.is_conditional() {
                    self.begin(directive, place)
                } else {
                    Ok(())
                }
            }
            None => Ok(()),
        }
    }

    // A piece where no directive waits for words.
    fn do_piece(
        &mut self,
        origin: Origin,
        place: Place,
        class: Class,
        bytes: &'a [u8],
    ) -> Result<Option<&'a [u8]>, Refused<LexKind>>
        requires { length bytes.now ≤ 2 ^ 28 }
        ensures steps { Steps (effect_at (is_taken (state self.old).branches) origin place class bytes.now (state self.old)) place (state self.new) result }
        ensures few { IfOk result (λ text. IfSome text (λ t. length t.now ≤ 2 ^ 28)) }
    {
        if is_taken(&self.branches) {
            if is_use(class) {
                return self.direct(origin, place, behind_first(bytes));
            }
            self.take(place, class, bytes)?;
        } else if is_use(class) {
            self.pass(place, behind_first(bytes))?;
        }
        Ok(None)
    }

    // All that comes of a piece but the reading of a macro's text, which is given.
    pub fn step(
        &mut self,
        origin: Origin,
        at: usize,
        class: Class,
        bytes: &'a [u8],
    ) -> Result<Option<&'a [u8]>, Refused<LexKind>>
        requires few { length bytes.now ≤ 2 ^ 28 }
        requires place { at + length bytes.now < 2 ^ 62 }
        ensures steps { Steps (effect origin at class bytes.now (state self.old)) (place_at origin at) (state self.new) result }
        ensures few { IfOk result (λ text. IfSome text (λ t. length t.now ≤ 2 ^ 28)) }
    {
        if let Some(found) = fault_in(self.is_looked_at(), class, bytes) {
            return Err(fault(found.kind, origin.place_at(at + found.behind)));
        }
        match self.waiting.take() {
            Some(waiting) => {
                self.await_words(waiting, origin, at, class, bytes)?;
                Ok(None)
            }
            None => self.do_piece(origin, origin.place_at(at), class, bytes),
        }
    }
}
