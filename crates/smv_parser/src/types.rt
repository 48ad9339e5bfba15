//! The readers of types, and of what stands in them.

ghost use Rattle.std.specs.Prelude.{◌≡◌, ◌≤◌, ◌<◌, ◌∷◌, ℕ, Bool, List, Option, None, Some, length, map, IfOk};
ghost use Rattle.smv_lexer.specs.Text.{Placed};
ghost use Rattle.smv_lexer.specs.View as tokens;
ghost use Rattle.smv_lexer.specs.View.{views};
ghost use Rattle.smv_parser.specs.Gives.{Gives};
ghost use Rattle.smv_parser.specs.Openings.{begins_name, constant_of, formal_of, key_truth};
ghost use Rattle.smv_parser.specs.Program as tree;
ghost use Rattle.smv_parser.specs.Program.{Lined};
ghost use Rattle.smv_parser.specs.ProgramReading as reading;
ghost use Rattle.smv_parser.specs.ProgramView as view;
ghost use Rattle.smv_parser.specs.Programs.{greatest_depth};
ghost use Rattle.smv_parser.specs.Reading.{read};
ghost use Rattle.smv_parser.specs.Tests.{number_of};
ghost use Rattle.smv_parser.specs.Tree.{Tree};
ghost use Rattle.smv_parser.specs.View.{tree_of};
ghost use Rattle.reader_laws.specs.Reading.{Reading, accept};

use crate::expressions::Expr;
use crate::items::{Item, read_commas, read_parameters};
use crate::openings::{PlainLead, TypeLead, token_type};
use crate::program::{Constant, ConstantKind, Formal, Plain, PlainKind, TypeForm, TypeKind};
use crate::reader::{Failure, after_key, after_name, after_sign, begins_with_sign, first_line};
use crate::reading::read_expression;
use crate::tokens::{natural, token_number};
use smv_lexer::{Keyword, Sign, Token, TokenKind};
use std::alloc::Global;

/// The greatest depth of an expression or a type.
pub const GREATEST_DEPTH: u32 = 256;

/// A name with its line.
pub fn read_formal(alloc: Global, tokens: &[Token]) -> Result<(Formal, &[Token]), Failure>
    ensures reads { Gives (λ x. view.formal x.0) (λ x. views x.1.now) result
        (accept formal_of (views tokens.now)) }
    ensures shorter { IfOk result (λ x. length x.1.now < length tokens.now) }
{
    let line = first_line(tokens);
    let (name, rest) = after_name(alloc, tokens)?;
    Ok((Formal { name, line }, rest))
}

impl Item for Formal {
    ghost Tree = { Lined (List ℕ) };

    ghost tree = { view.formal };

    ghost reading = { accept formal_of };

    fn read(alloc: Global, tokens: &[Token]) -> Result<(Formal, &[Token]), Failure> {
        read_formal(alloc, tokens)
    }
}

impl Item for Expr {
    ghost Tree = { Tree };

    ghost tree = { tree_of };

    ghost reading = { read greatest_depth 1 };

    fn read(alloc: Global, tokens: &[Token]) -> Result<(Expr, &[Token]), Failure> {
        let (part, rest) = read_expression(alloc, tokens, 1, GREATEST_DEPTH)?;
        Ok((part.expr, rest))
    }
}

fn key_truth(key: Keyword) -> Option<bool>
    ensures { result ≡ key_truth key }
{
    match key {
        Keyword::True => Some(true),
        Keyword::False => Some(false),
        _ => None,
    }
}

/// A name, a number, `TRUE` or `FALSE`.
fn read_constant(alloc: Global, tokens: &[Token]) -> Result<(Constant, &[Token]), Failure>
    ensures reads { Gives (λ x. view.constant x.0) (λ x. views x.1.now) result
        (accept constant_of (views tokens.now)) }
    ensures shorter { IfOk result (λ x. length x.1.now < length tokens.now) }
{
    let Some((token, rest)) = tokens.split_first() else {
        return Err(Failure::Syntax(0));
    };
    let line = token.line;
    match &token.kind {
        TokenKind::Word(name) => {
            let kind = ConstantKind::Name(name.copy(alloc)?);
            Ok((Constant { kind, line }, rest))
        }
        TokenKind::Number(value) => match natural(*value) {
            Some(value) => {
                let kind = ConstantKind::Number(value);
                Ok((Constant { kind, line }, rest))
            }
            None => Err(Failure::Syntax(tokens.len())),
        },
        TokenKind::Key(key) => match key_truth(*key) {
            Some(value) => {
                let kind = ConstantKind::Truth(value);
                Ok((Constant { kind, line }, rest))
            }
            None => Err(Failure::Syntax(tokens.len())),
        },
        TokenKind::Sign(_) => Err(Failure::Syntax(tokens.len())),
    }
}

impl Item for Constant {
    ghost Tree = { Lined tree.Constant };

    ghost tree = { view.constant };

    ghost reading = { accept constant_of };

    fn read(alloc: Global, tokens: &[Token]) -> Result<(Constant, &[Token]), Failure> {
        read_constant(alloc, tokens)
    }
}

/// The number that comes first, with the tokens after it.
#[tactic(auto, unfolding(reader_laws::specs::Reading::accept, reader_laws::specs::Reading::accepted))]
fn after_number(tokens: &[Token]) -> Result<(u32, &[Token]), Failure>
    ensures reads { Gives (λ x. x.0) (λ x. views x.1.now) result
        (accept number_of (views tokens.now)) }
    ensures small { IfOk result (λ x. x.0 ≤ 2147483647) }
    ensures shorter { IfOk result (λ x. length x.1.now < length tokens.now) }
{
    match tokens.split_first() {
        None => Err(Failure::Syntax(0)),
        Some((token, rest)) => match token_number(token) {
            Some(value) => Ok((value, rest)),
            None => Err(Failure::Syntax(tokens.len())),
        },
    }
}

/// An end of a range of values: a number, or a minus sign and a number.
fn read_end(tokens: &[Token]) -> Result<(i32, &[Token]), Failure>
    ensures reads { Gives (λ x. x.0) (λ x. views x.1.now) result
        (reading.read_end (views tokens.now)) }
    ensures shorter { IfOk result (λ x. length x.1.now < length tokens.now) }
{
    if begins_with_sign(tokens, Sign::Minus) {
        let rest = after_sign(tokens, Sign::Minus)?;
        let (value, rest) = after_number(rest)?;
        return Ok((-(value as i32), rest));
    }
    let (value, rest) = after_number(tokens)?;
    Ok((value as i32, rest))
}

/// The two ends of a range of values.
fn read_ends(tokens: &[Token]) -> Result<(i32, i32, &[Token]), Failure>
    ensures reads { Gives (λ x. (x.0, x.1)) (λ x. views x.2.now) result
        (reading.read_ends (views tokens.now)) }
    ensures shorter { IfOk result (λ x. length x.2.now < length tokens.now) }
{
    let (low, rest) = read_end(tokens)?;
    let rest = after_sign(rest, Sign::Range)?;
    let (high, rest) = read_end(rest)?;
    Ok((low, high, rest))
}

/// The two ends of an array.
fn read_range(tokens: &[Token]) -> Result<(u32, u32, &[Token]), Failure>
    ensures reads { Gives (λ x. (x.0, x.1)) (λ x. views x.2.now) result
        (reading.read_range (views tokens.now)) }
    ensures shorter { IfOk result (λ x. length x.2.now < length tokens.now) }
{
    let (low, rest) = after_number(tokens)?;
    let rest = after_sign(rest, Sign::Range)?;
    let (high, rest) = after_number(rest)?;
    Ok((low, high, rest))
}

/// A type without instances, of at most depth `most`. It recurses once for each `array`.
fn read_plain(alloc: Global, tokens: &[Token], most: u32) -> Result<(Plain, &[Token]), Failure>
    requires { 1 ≤ most }
    ensures reads { Gives (λ x. view.plain x.0) (λ x. views x.1.now) result
        (reading.read_plain most (views tokens.now)) }
    ensures shorter { IfOk result (λ x. length x.1.now < length tokens.now) }
{
    let Some((token, rest)) = tokens.split_first() else {
        return Err(Failure::Syntax(0));
    };
    let line = token.line;
    match token_type(token) {
        TypeLead::Plain(PlainLead::Boolean) => Ok((
            Plain {
                kind: PlainKind::Boolean,
                line,
            },
            rest,
        )),
        TypeLead::Plain(PlainLead::Enumeration) => {
            let (constants, rest) = read_commas(alloc, rest)?;
            let rest = after_sign(rest, Sign::CloseBrace)?;
            let kind = PlainKind::Enumeration(constants);
            Ok((Plain { kind, line }, rest))
        }
        TypeLead::Plain(PlainLead::Range) => {
            let (low, high, rest) = read_ends(tokens)?;
            let kind = PlainKind::Range(low, high);
            Ok((Plain { kind, line }, rest))
        }
        TypeLead::Plain(PlainLead::Array) => {
            if most == 1 {
                return Err(Failure::TooDeep(tokens.len()));
            }
            let (low, high, rest) = read_range(rest)?;
            let rest = after_key(rest, Keyword::Of)?;
            let (element, rest) = read_plain(alloc, rest, most - 1)?;
            let kind = PlainKind::Array(low, high, Box::new(alloc, element)?);
            Ok((Plain { kind, line }, rest))
        }
        TypeLead::Process | TypeLead::Name | TypeLead::Other => Err(Failure::Syntax(tokens.len())),
    }
}

/// The name of a module and its actual parameters.
fn read_instance(
    alloc: Global,
    tokens: &[Token],
    process: bool,
    line: u32,
) -> Result<(TypeForm, &[Token]), Failure>
    ensures reads { Gives (λ x. view.type_form x.0) (λ x. views x.1.now) result
        (reading.read_instance greatest_depth process line (views tokens.now)) }
    ensures shorter { IfOk result (λ x. length x.1.now < length tokens.now) }
{
    let (module, rest) = after_name(alloc, tokens)?;
    let (actuals, rest) = read_parameters(alloc, rest)?;
    let kind = TypeKind::Instance {
        process,
        module,
        actuals,
    };
    Ok((TypeForm { kind, line }, rest))
}

/// The type of a variable.
fn read_type(alloc: Global, tokens: &[Token]) -> Result<(TypeForm, &[Token]), Failure>
    ensures reads { Gives (λ x. view.type_form x.0) (λ x. views x.1.now) result
        (reading.read_type greatest_depth (views tokens.now)) }
    ensures shorter { IfOk result (λ x. length x.1.now < length tokens.now) }
{
    let Some((token, rest)) = tokens.split_first() else {
        return Err(Failure::Syntax(0));
    };
    match token_type(token) {
        TypeLead::Plain(_) => {
            let (plain, rest) = read_plain(alloc, tokens, GREATEST_DEPTH)?;
            let line = plain.line;
            let kind = TypeKind::Plain(plain);
            Ok((TypeForm { kind, line }, rest))
        }
        TypeLead::Process => read_instance(alloc, rest, true, token.line),
        TypeLead::Name => read_instance(alloc, tokens, false, token.line),
        TypeLead::Other => Err(Failure::Syntax(tokens.len())),
    }
}

impl Item for TypeForm {
    ghost Tree = { Lined tree.TypeForm };

    ghost tree = { view.type_form };

    ghost reading = { reading.read_type greatest_depth };

    fn read(alloc: Global, tokens: &[Token]) -> Result<(TypeForm, &[Token]), Failure> {
        read_type(alloc, tokens)
    }
}
