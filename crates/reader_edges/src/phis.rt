//! Phis.

ghost use Rattle.std.specs.Prelude.{◌≤◌, ◌∷◌, []};
ghost use Rattle.ir_grammar.specs.Tokens.{square};
ghost use Rattle.ir_grammar.specs.Types.{width_in as bits_in};
ghost use Rattle.ir_grammar.specs.Instructions.{item_or_attached, items_and_after, incoming as incoming_phrase, a_phi, phi as phi_phrase};
ghost use Rattle.reader_words.specs.Source.{pieces};
ghost use Rattle.reader_words.specs.Gives.{Gives, GivesAs};

use ir_tree::instructions::{Incoming, Phi};
use ir_tree::types::{IrType, Name};
use plain_list::Sequence;
use reader_types::operands::operand_in;
use reader_types::types::value_type;
use reader_words::ignored::{attached, has_begun, keep};
use reader_words::names::local_name;
use reader_words::source::Source;
use reader_words::stop::Stop;
use reader_words::words::{has_mark, skip_mark, skip_word};
use std::alloc::Global;

/// What a phi is where control comes from a label.
fn incoming<'a>(
    alloc: Global,
    source: Source<'a>,
    kind: &IrType,
) -> Result<(Incoming, Source<'a>), Stop<'a>>
    requires { bits_in kind.now ≤ 64 }
    ensures { Gives result ((incoming_phrase kind.now).reads (pieces source.entry)) }
{
    let source = skip_mark(source, b"[")?;
    let (value, source) = operand_in(alloc, source, kind)?;
    let source = skip_mark(source, b",")?;
    let (label, source) = local_name(alloc, source)?;
    let source = skip_mark(source, b"]")?;
    Ok((Incoming { value, label }, source))
}

/// A comma, and the value from another label or an attachment.
fn incoming_or_attached<'a>(
    alloc: Global,
    source: Source<'a>,
    kind: &IrType,
    begun: bool,
) -> Result<(Option<Incoming>, Source<'a>), Stop<'a>>
    requires { bits_in kind.now ≤ 64 }
    ensures { Gives result ((item_or_attached (square ∷ []) (incoming_phrase kind.now) begun).reads (pieces source.entry)) }
{
    let source = skip_mark(source, b",")?;
    if !begun && has_mark(source, b"[") {
        let (found, source) = incoming(alloc, source, kind)?;
        return Ok((Some(found), source));
    }
    let source = attached(source)?;
    Ok((None, source))
}

/// Values and attachments, each behind a comma.
fn incomings<'a>(
    alloc: Global,
    source: Source<'a>,
    kind: &IrType,
) -> Result<(Sequence<Incoming>, Source<'a>), Stop<'a>>
    requires { bits_in kind.now ≤ 64 }
    ensures { Gives result ((items_and_after (square ∷ []) (incoming_phrase kind.now)).reads (pieces source.entry)) }
{
    let mut found = Sequence::new(alloc);
    let mut rest = source;
    let mut begun = false;
    'commas: while has_mark(rest, b",") {
        let (next, after) = incoming_or_attached(alloc, rest, kind, begun)?;
        begun = has_begun(begun, &next);
        keep(&mut found, next)?;
        rest = after;
    }
    Ok((found, rest))
}

/// A phi that sets a register.
#[tactic(auto, unfolding(ir_grammar::specs::Instructions::phi))]
pub fn phi<'a>(
    alloc: Global,
    source: Source<'a>,
    register: Name,
) -> Result<(Phi, Source<'a>), Stop<'a>>
    ensures { GivesAs a_phi result ((phi_phrase register).reads (pieces source.entry)) }
{
    let source = skip_word(source, b"phi")?;
    let (kind, source) = value_type(source)?;
    let (first, source) = incoming(alloc, source, &kind)?;
    let (others, source) = incomings(alloc, source, &kind)?;
    let mut incoming = Sequence::of_one(alloc, first)?;
    incoming.append(others)?;
    let found = Phi {
        result: register,
        kind,
        incoming,
    };
    Ok((found, source))
}
