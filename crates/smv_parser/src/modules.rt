//! The reader of modules.

ghost use Rattle.std.specs.Prelude.{◌≡◌, ◌≤◌, ◌<◌, ℕ, Bool, List, length, map, IfOk};
ghost use Rattle.smv_lexer.specs.Text.{Placed};
ghost use Rattle.smv_lexer.specs.View as tokens;
ghost use Rattle.smv_lexer.specs.View.{views};
ghost use Rattle.smv_parser.specs.Gives.{Gives};
ghost use Rattle.smv_parser.specs.Openings.{begins_module};
ghost use Rattle.smv_parser.specs.Program as tree;
ghost use Rattle.smv_parser.specs.Program.{Lined};
ghost use Rattle.smv_parser.specs.ProgramReading as reading;
ghost use Rattle.smv_parser.specs.ProgramView as view;
ghost use Rattle.smv_parser.specs.Programs.{greatest_depth};
ghost use Rattle.reader_laws.specs.Reading.{Reading};

use crate::items::{Item, Led, read_items, read_parameters};
use crate::program::Module;
use crate::reader::{Failure, after_key, after_name, first_line, token_is_key};
use smv_lexer::{Keyword, Token};
use std::alloc::Global;

/// A module: its name, its formal parameters and its sections.
fn read_module(alloc: Global, tokens: &[Token]) -> Result<(Module, &[Token]), Failure>
    ensures reads { Gives (λ x. view.module_of x.0) (λ x. views x.1.now) result
        (reading.read_module greatest_depth (views tokens.now)) }
    ensures shorter { IfOk result (λ x. length x.1.now < length tokens.now) }
{
    let line = first_line(tokens);
    let rest = after_key(tokens, Keyword::Module)?;
    let (name, rest) = after_name(alloc, rest)?;
    let (formals, rest) = read_parameters(alloc, rest)?;
    let (sections, rest) = read_items(alloc, rest)?;
    let module = Module {
        name,
        formals,
        sections,
        line,
    };
    Ok((module, rest))
}

impl Item for Module {
    ghost Tree = { Lined tree.Module };

    ghost tree = { view.module_of };

    ghost reading = { reading.read_module greatest_depth };

    fn read(alloc: Global, tokens: &[Token]) -> Result<(Module, &[Token]), Failure> {
        read_module(alloc, tokens)
    }
}

impl Led for Module {
    ghost begins = { begins_module };

    fn is_begun_by(token: &Token) -> bool {
        token_is_key(token, Keyword::Module)
    }
}
