// The circuit of a netlist's files.
ghost use Rattle.std.specs.Prelude.{◌≡◌, ◌<◌, ◌≤◌, ◌^◌, IfOk, IfErr, Ok, length, map, option_map};
ghost use Rattle.vl_lex.specs.Lexes.{Lexes};
ghost use Rattle.vl_lex.specs.Seen.{texts};
ghost use Rattle.vl_token.specs.Seen.{lexeme};
ghost use Rattle.vl_tree.specs.Seen.{view_source};
ghost use Rattle.netlist_read.specs.Reading.{AreTree, IsRead, end_of};
ghost use Rattle.netlist_read.specs.Kinds.{failing};
ghost use Rattle.netlist_read.specs.Seen.{RefusalStands, kind_seen};
ghost use Rattle.vl_parse.specs.Parsed.{kind_seen as parse_kind_seen};
ghost use Rattle.netlist_read.specs.Phases.{MeaningStands, SyntaxStands, TextStands};
ghost use Rattle.circuit_model.specs.Elaboration.{IsElaborated};

use crate::kinds::NetlistKind;
use sg_circuit::Circuit;
use sg_delay::Corner;
use sg_text::{Place, Refused};
use std::alloc::Global;
use vl_elab::elaborate;
use vl_lex::lex;
use vl_parse::{ParseKind, parse};
use vl_token::Token;
use vl_tree::Source;

// The place behind the last byte of the last file.
fn end_of(files: &[Vec<u8>]) -> Place
    requires some { 0 < length files.now }
    requires few { length files.now ≤ 2 ^ 32 }
    ensures { result ≡ end_of (texts files.now) }
{
    let last = files.len() - 1;
    Place {
        file: last as u32,
        byte: files[last].len() as u64,
    }
}

fn read_tokens<'a>(
    alloc: Global,
    files: &'a [Vec<u8>],
) -> Result<Vec<Token<'a>>, Refused<NetlistKind<'a>>>
    ensures read { IfOk result (λ tokens. Lexes (texts files.now) (Ok (map lexeme tokens.items))) }
    ensures refused { IfErr result (TextStands (texts files.now)) }
{
    match lex(alloc, files) {
        Ok(tokens) => Ok(tokens),
        Err(Refused::Fault { kind, place }) => Err(Refused::Fault {
            kind: NetlistKind::Text(kind),
            place,
        }),
        Err(Refused::NoMemory) => Err(Refused::NoMemory),
    }
}

fn syntax_kind(kind: ParseKind<'_>) -> NetlistKind<'_>
    ensures { kind_seen result ≡ failing (parse_kind_seen kind.entry) }
{
    match kind {
        ParseKind::Syntax => NetlistKind::Syntax,
        ParseKind::Unsupported(word) => NetlistKind::Unsupported(word),
        ParseKind::Specify(kind) => NetlistKind::Specify(kind),
    }
}

// The tree of all tokens, of which `end` is the place behind the last.
fn read_tree<'a>(
    alloc: Global,
    tokens: &[Token<'a>],
    end: Place,
) -> Result<Source<'a>, Refused<NetlistKind<'a>>>
    ensures read { IfOk result (λ source. AreTree (map lexeme tokens.now) (view_source source)) }
    ensures refused { IfErr result (SyntaxStands (map lexeme tokens.now) end) }
{
    match parse(alloc, tokens, end) {
        Ok(source) => Ok(source),
        Err(Refused::Fault { kind, place }) => Err(Refused::Fault {
            kind: syntax_kind(kind),
            place,
        }),
        Err(Refused::NoMemory) => Err(Refused::NoMemory),
    }
}

fn read_circuit<'a>(
    alloc: Global,
    source: &Source<'_>,
    top: Option<&[u8]>,
    corner: Corner,
) -> Result<Circuit, Refused<NetlistKind<'a>>>
    ensures read { IfOk result (λ circuit. IsElaborated (view_source source.now) (option_map (λ n. n.now) top.entry) corner circuit) }
    ensures refused { IfErr result (MeaningStands (view_source source.now) (option_map (λ n. n.now) top.entry) corner) }
{
    match elaborate(alloc, source, top, corner) {
        Ok(circuit) => Ok(circuit),
        Err(Refused::Fault { kind, place }) => Err(Refused::Fault {
            kind: NetlistKind::Meaning(kind),
            place,
        }),
        Err(Refused::NoMemory) => Err(Refused::NoMemory),
    }
}

/// The circuit of a netlist's files, which are read one after another (IEEE 1364-2005), below the top of that name, or else below the only module that can be the top. Delays are
/// those of a corner, in ticks. Refuses a netlist with a fault that `NetlistKind` names, at a byte of one of the files, or behind the last of them; of several faults of the meaning
/// any one is answered. Takes time and memory in proportion to the netlist and to its circuit. For 2^32 files and more there is no memory.
pub fn read_netlist<'a>(
    alloc: Global,
    files: &'a [Vec<u8>],
    top: Option<&[u8]>,
    corner: Corner,
) -> Result<Circuit, Refused<NetlistKind<'a>>>
    requires some { 0 < length files.now }
    ensures read { IfOk result (λ circuit. IsRead (texts files.now) (option_map (λ n. n.now) top.entry) corner circuit) }
    ensures refused { IfErr result (λ r. RefusalStands (texts files.now) (option_map (λ n. n.now) top.entry) corner r) }
{
    if files.len() > u32::MAX as usize {
        return Err(Refused::NoMemory);
    }
    let tokens = read_tokens(alloc, files)?;
    let source = read_tree(alloc, &tokens, end_of(files))?;
    // (they take more than the tree, which is all that the circuit needs)
    drop(tokens);
    read_circuit(alloc, &source, top, corner)
}
