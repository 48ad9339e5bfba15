//! The readers of declarations, assignments and definitions, and of the sections that hold them.

ghost use Rattle.std.specs.Prelude.{◌≡◌, ◌≤◌, ◌<◌, ◌∷◌, ℕ, Bool, List, length, map, IfOk};
ghost use Rattle.smv_lexer.specs.Text.{Placed};
ghost use Rattle.smv_lexer.specs.View as tokens;
ghost use Rattle.smv_lexer.specs.View.{views};
ghost use Rattle.smv_parser.specs.Gives.{Gives};
ghost use Rattle.smv_parser.specs.Openings.{begins_left, begins_name, begins_section};
ghost use Rattle.smv_parser.specs.Program as tree;
ghost use Rattle.smv_parser.specs.Program.{Lined};
ghost use Rattle.smv_parser.specs.ProgramReading as reading;
ghost use Rattle.smv_parser.specs.ProgramView as view;
ghost use Rattle.smv_parser.specs.Programs.{greatest_depth};
ghost use Rattle.smv_parser.specs.View.{tree_of};
ghost use Rattle.reader_laws.specs.Reading.{Reading};

use crate::expressions::Expr;
use crate::items::{Item, Led, read_both, read_items};
use crate::openings::{
    SectionLead, token_begins_left, token_begins_section, token_is_name, token_left, token_section,
};
use crate::program::{
    Assignment, Declaration, Definition, Formal, Left, LeftKind, Section, SectionKind, TypeForm,
};
use crate::reader::{Failure, after_sign, begins_with_sign};
use crate::reading::{read_expression, read_path};
use crate::types::GREATEST_DEPTH;
use smv_lexer::{Sign, Token};
use std::alloc::Global;

/// `name : form ;`
fn read_declaration(alloc: Global, tokens: &[Token]) -> Result<(Declaration, &[Token]), Failure>
    ensures reads { Gives (λ x. view.declaration x.0) (λ x. views x.1.now) result
        (reading.read_declaration greatest_depth (views tokens.now)) }
    ensures shorter { IfOk result (λ x. length x.1.now < length tokens.now) }
{
    let (formal, form, rest) = read_both::<Formal, TypeForm>(alloc, tokens, Sign::Colon)?;
    let declaration = Declaration {
        name: formal.name,
        form,
        line: formal.line,
    };
    Ok((declaration, rest))
}

impl Item for Declaration {
    ghost Tree = { Lined tree.Declaration };

    ghost tree = { view.declaration };

    ghost reading = { reading.read_declaration greatest_depth };

    fn read(alloc: Global, tokens: &[Token]) -> Result<(Declaration, &[Token]), Failure> {
        read_declaration(alloc, tokens)
    }
}

impl Led for Declaration {
    ghost begins = { begins_name };

    fn is_begun_by(token: &Token) -> bool {
        token_is_name(token)
    }
}

/// A path in parentheses, behind `init` or `next`.
fn read_left_in_parens(
    alloc: Global,
    tokens: &[Token],
    kind: LeftKind,
    line: u32,
) -> Result<(Left, &[Token]), Failure>
    ensures reads { Gives (λ x. view.left x.0) (λ x. views x.1.now) result
        (reading.left_tail greatest_depth kind line (views tokens.now)) }
    ensures shorter { IfOk result (λ x. length x.1.now < length tokens.now) }
{
    let rest = after_sign(tokens, Sign::OpenParen)?;
    let (whole, rest) = read_path(alloc, rest, GREATEST_DEPTH - 1)?;
    let rest = after_sign(rest, Sign::CloseParen)?;
    let path = whole.path;
    Ok((Left { kind, path, line }, rest))
}

/// The left side of an assignment.
fn read_left(alloc: Global, tokens: &[Token]) -> Result<(Left, &[Token]), Failure>
    ensures reads { Gives (λ x. view.left x.0) (λ x. views x.1.now) result
        (reading.read_left greatest_depth (views tokens.now)) }
    ensures shorter { IfOk result (λ x. length x.1.now < length tokens.now) }
{
    let Some((token, rest)) = tokens.split_first() else {
        return Err(Failure::Syntax(0));
    };
    match token_left(token) {
        Some(LeftKind::Current) => {
            let (whole, rest) = read_path(alloc, tokens, GREATEST_DEPTH - 1)?;
            let path = whole.path;
            let line = path.line;
            let kind = LeftKind::Current;
            Ok((Left { kind, path, line }, rest))
        }
        Some(LeftKind::Init) => read_left_in_parens(alloc, rest, LeftKind::Init, token.line),
        Some(LeftKind::Next) => read_left_in_parens(alloc, rest, LeftKind::Next, token.line),
        None => Err(Failure::Syntax(tokens.len())),
    }
}

impl Item for Left {
    ghost Tree = { Lined tree.Left };

    ghost tree = { view.left };

    ghost reading = { reading.read_left greatest_depth };

    fn read(alloc: Global, tokens: &[Token]) -> Result<(Left, &[Token]), Failure> {
        read_left(alloc, tokens)
    }
}

/// `left := right ;`
fn read_assignment(alloc: Global, tokens: &[Token]) -> Result<(Assignment, &[Token]), Failure>
    ensures reads { Gives (λ x. view.assignment x.0) (λ x. views x.1.now) result
        (reading.read_assignment greatest_depth (views tokens.now)) }
    ensures shorter { IfOk result (λ x. length x.1.now < length tokens.now) }
{
    let (left, right, rest) = read_both::<Left, Expr>(alloc, tokens, Sign::Becomes)?;
    let line = left.line;
    Ok((Assignment { left, right, line }, rest))
}

impl Item for Assignment {
    ghost Tree = { Lined tree.Assignment };

    ghost tree = { view.assignment };

    ghost reading = { reading.read_assignment greatest_depth };

    fn read(alloc: Global, tokens: &[Token]) -> Result<(Assignment, &[Token]), Failure> {
        read_assignment(alloc, tokens)
    }
}

impl Led for Assignment {
    ghost begins = { begins_left };

    fn is_begun_by(token: &Token) -> bool {
        token_begins_left(token)
    }
}

/// `name := right ;`
fn read_definition(alloc: Global, tokens: &[Token]) -> Result<(Definition, &[Token]), Failure>
    ensures reads { Gives (λ x. view.definition x.0) (λ x. views x.1.now) result
        (reading.read_definition greatest_depth (views tokens.now)) }
    ensures shorter { IfOk result (λ x. length x.1.now < length tokens.now) }
{
    let (formal, right, rest) = read_both::<Formal, Expr>(alloc, tokens, Sign::Becomes)?;
    let definition = Definition {
        name: formal.name,
        right,
        line: formal.line,
    };
    Ok((definition, rest))
}

impl Item for Definition {
    ghost Tree = { Lined tree.Definition };

    ghost tree = { view.definition };

    ghost reading = { reading.read_definition greatest_depth };

    fn read(alloc: Global, tokens: &[Token]) -> Result<(Definition, &[Token]), Failure> {
        read_definition(alloc, tokens)
    }
}

impl Led for Definition {
    ghost begins = { begins_name };

    fn is_begun_by(token: &Token) -> bool {
        token_is_name(token)
    }
}

/// An expression, after which a semicolon may stand.
fn read_condition(alloc: Global, tokens: &[Token]) -> Result<(Expr, &[Token]), Failure>
    ensures reads { Gives (λ x. tree_of x.0) (λ x. views x.1.now) result
        (reading.read_condition greatest_depth (views tokens.now)) }
    ensures shorter { IfOk result (λ x. length x.1.now < length tokens.now) }
{
    let (part, rest) = read_expression(alloc, tokens, 1, GREATEST_DEPTH)?;
    if begins_with_sign(rest, Sign::Semicolon) {
        let after = after_sign(rest, Sign::Semicolon)?;
        return Ok((part.expr, after));
    }
    Ok((part.expr, rest))
}

/// A section, by its first word.
fn read_section(alloc: Global, tokens: &[Token]) -> Result<(Section, &[Token]), Failure>
    ensures reads { Gives (λ x. view.section x.0) (λ x. views x.1.now) result
        (reading.read_section greatest_depth (views tokens.now)) }
    ensures shorter { IfOk result (λ x. length x.1.now < length tokens.now) }
{
    let Some((token, rest)) = tokens.split_first() else {
        return Err(Failure::Syntax(0));
    };
    let line = token.line;
    match token_section(token) {
        SectionLead::Variables => {
            let (declarations, rest) = read_items(alloc, rest)?;
            let kind = SectionKind::Variables(declarations);
            Ok((Section { kind, line }, rest))
        }
        SectionLead::Assignments => {
            let (assignments, rest) = read_items(alloc, rest)?;
            let kind = SectionKind::Assignments(assignments);
            Ok((Section { kind, line }, rest))
        }
        SectionLead::Definitions => {
            let (definitions, rest) = read_items(alloc, rest)?;
            let kind = SectionKind::Definitions(definitions);
            Ok((Section { kind, line }, rest))
        }
        SectionLead::Condition(condition) => {
            let (expr, rest) = read_condition(alloc, rest)?;
            let kind = SectionKind::Condition(condition, expr);
            Ok((Section { kind, line }, rest))
        }
        SectionLead::Other => Err(Failure::Syntax(tokens.len())),
    }
}

impl Item for Section {
    ghost Tree = { Lined tree.Section };

    ghost tree = { view.section };

    ghost reading = { reading.read_section greatest_depth };

    fn read(alloc: Global, tokens: &[Token]) -> Result<(Section, &[Token]), Failure> {
        read_section(alloc, tokens)
    }
}

impl Led for Section {
    ghost begins = { begins_section };

    fn is_begun_by(token: &Token) -> bool {
        token_begins_section(token)
    }
}
