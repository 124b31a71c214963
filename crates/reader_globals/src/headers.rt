//! Headers of functions.

ghost use Rattle.std.specs.Prelude.{codes};
ghost use Rattle.ir_grammar.specs.Types.{behind_commas, listed};
ghost use Rattle.ir_grammar.specs.Module.{parameter as parameter_phrase, header as header_phrase};
ghost use Rattle.reader_words.specs.Source.{pieces};
ghost use Rattle.reader_words.specs.Gives.{Gives};

use ir_lexer::token::TokenKind;
use ir_tree::module::{Header, Parameter};
use plain_list::Sequence;
use reader_types::types::{result_type, value_type};
use reader_words::ignored::{attributes, ignored, tail};
use reader_words::names::{global_name, local_name};
use reader_words::source::Source;
use reader_words::stop::Stop;
use reader_words::words::{has_kind, has_mark, skip_mark};
use std::alloc::Global;

#[tactic(auto, unfolding(ir_grammar::specs::Module::parameter))]
fn parameter<'a>(alloc: Global, source: Source<'a>) -> Result<(Parameter, Source<'a>), Stop<'a>>
    ensures { Gives result (parameter_phrase.reads (pieces source.entry)) }
{
    let (kind, source) = value_type(source)?;
    let source = attributes(source)?;
    if has_kind(source, TokenKind::Local) {
        let (name, source) = local_name(alloc, source)?;
        let name = Some(name);
        return Ok((Parameter { kind, name }, source));
    }
    let name = None;
    Ok((Parameter { kind, name }, source))
}

/// Parameters, each behind a comma.
fn other_parameters<'a>(
    alloc: Global,
    source: Source<'a>,
) -> Result<(Sequence<Parameter>, Source<'a>), Stop<'a>>
    ensures { Gives result ((behind_commas parameter_phrase).reads (pieces source.entry)) }
{
    let mut found = Sequence::new(alloc);
    let mut rest = source;
    'commas: while has_mark(rest, b",") {
        let after = skip_mark(rest, b",")?;
        let (next, after) = parameter(alloc, after)?;
        found.push(next)?;
        rest = after;
    }
    Ok((found, rest))
}

/// Parameters with commas between them, and the closing parenthesis.
fn parameters<'a>(
    alloc: Global,
    source: Source<'a>,
) -> Result<(Sequence<Parameter>, Source<'a>), Stop<'a>>
    ensures { Gives result ((listed (codes ")") parameter_phrase).reads (pieces source.entry)) }
{
    let mut found = Sequence::new(alloc);
    if has_mark(source, b")") {
        let source = skip_mark(source, b")")?;
        return Ok((found, source));
    }
    let (first, source) = parameter(alloc, source)?;
    let (others, source) = other_parameters(alloc, source)?;
    let source = skip_mark(source, b")")?;
    found.push(first)?;
    found.append(others)?;
    Ok((found, source))
}

/// The header of a function.
#[tactic(auto, unfolding(ir_grammar::specs::Module::header))]
pub fn header<'a>(alloc: Global, source: Source<'a>) -> Result<(Header, Source<'a>), Stop<'a>>
    ensures { Gives result (header_phrase.reads (pieces source.entry)) }
{
    let source = ignored(source)?;
    let (kind, source) = result_type(source)?;
    let (name, source) = global_name(alloc, source)?;
    let source = skip_mark(source, b"(")?;
    let (parameters, source) = parameters(alloc, source)?;
    let source = tail(source)?;
    let found = Header {
        result: kind,
        name,
        parameters,
    };
    Ok((found, source))
}
