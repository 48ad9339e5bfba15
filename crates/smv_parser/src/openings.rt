//! What single tokens begin above expressions.

ghost use Rattle.std.specs.Prelude.{◌≡◌};
ghost use Rattle.smv_lexer.specs.View as tokens;
ghost use Rattle.smv_parser.specs.Openings.{begins_left, begins_name, begins_section, key_left, key_section, key_type, left_of, number_type, section_lead, sign_type, type_lead};

use crate::program::{Condition, LeftKind};
use smv_lexer::{Keyword, Sign, Token, TokenKind};

/// The plain type that a token begins.
#[derive(Clone, Copy)]
pub enum PlainLead {
    Boolean,
    Enumeration,
    Range,
    Array,
}

/// The type that a token begins.
#[derive(Clone, Copy)]
pub enum TypeLead {
    Plain(PlainLead),
    Process,
    Name,
    Other,
}

/// The section that a token begins.
#[derive(Clone, Copy)]
pub enum SectionLead {
    Variables,
    Assignments,
    Definitions,
    Condition(Condition),
    Other,
}

fn key_type(key: Keyword) -> TypeLead
    ensures { result ≡ key_type key }
{
    match key {
        Keyword::Boolean => TypeLead::Plain(PlainLead::Boolean),
        Keyword::Array => TypeLead::Plain(PlainLead::Array),
        Keyword::Process => TypeLead::Process,
        _ => TypeLead::Other,
    }
}

fn sign_type(sign: Sign) -> TypeLead
    ensures { result ≡ sign_type sign }
{
    match sign {
        Sign::OpenBrace => TypeLead::Plain(PlainLead::Enumeration),
        Sign::Minus => TypeLead::Plain(PlainLead::Range),
        _ => TypeLead::Other,
    }
}

fn number_type(value: i32) -> TypeLead
    ensures { result ≡ number_type value }
{
    if value >= 0 {
        TypeLead::Plain(PlainLead::Range)
    } else {
        TypeLead::Other
    }
}

pub fn token_type(token: &Token) -> TypeLead
    ensures { result ≡ type_lead (tokens.view token.now) }
{
    match &token.kind {
        TokenKind::Word(_) => TypeLead::Name,
        TokenKind::Number(value) => number_type(*value),
        TokenKind::Key(key) => key_type(*key),
        TokenKind::Sign(sign) => sign_type(*sign),
    }
}

fn key_section(key: Keyword) -> SectionLead
    ensures { result ≡ key_section key }
{
    match key {
        Keyword::Var => SectionLead::Variables,
        Keyword::Assign => SectionLead::Assignments,
        Keyword::Define => SectionLead::Definitions,
        Keyword::InitSection => SectionLead::Condition(Condition::Init),
        Keyword::Invar => SectionLead::Condition(Condition::Invar),
        Keyword::Trans => SectionLead::Condition(Condition::Trans),
        Keyword::Spec => SectionLead::Condition(Condition::Spec),
        Keyword::Fairness => SectionLead::Condition(Condition::Fairness),
        _ => SectionLead::Other,
    }
}

pub fn token_section(token: &Token) -> SectionLead
    ensures { result ≡ section_lead (tokens.view token.now) }
{
    match &token.kind {
        TokenKind::Key(key) => key_section(*key),
        TokenKind::Word(_) | TokenKind::Number(_) | TokenKind::Sign(_) => SectionLead::Other,
    }
}

pub fn token_begins_section(token: &Token) -> bool
    ensures { result ≡ begins_section (tokens.view token.now) }
{
    match token_section(token) {
        SectionLead::Other => false,
        SectionLead::Variables
        | SectionLead::Assignments
        | SectionLead::Definitions
        | SectionLead::Condition(_) => true,
    }
}

fn key_left(key: Keyword) -> Option<LeftKind>
    ensures { result ≡ key_left key }
{
    match key {
        Keyword::Init => Some(LeftKind::Init),
        Keyword::Next => Some(LeftKind::Next),
        _ => None,
    }
}

/// The left side of an assignment that a token begins.
pub fn token_left(token: &Token) -> Option<LeftKind>
    ensures { result ≡ left_of (tokens.view token.now) }
{
    match &token.kind {
        TokenKind::Word(_) => Some(LeftKind::Current),
        TokenKind::Key(key) => key_left(*key),
        TokenKind::Number(_) | TokenKind::Sign(_) => None,
    }
}

pub fn token_begins_left(token: &Token) -> bool
    ensures { result ≡ begins_left (tokens.view token.now) }
{
    match token_left(token) {
        None => false,
        Some(_) => true,
    }
}

pub fn token_is_name(token: &Token) -> bool
    ensures { result ≡ begins_name (tokens.view token.now) }
{
    match &token.kind {
        TokenKind::Word(_) => true,
        TokenKind::Number(_) | TokenKind::Key(_) | TokenKind::Sign(_) => false,
    }
}
