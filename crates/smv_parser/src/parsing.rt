//! Tokens to the program that they are.

ghost use Rattle.std.specs.Prelude.{IfErr, IfOk};
ghost use Rattle.smv_lexer.specs.View.{views};
ghost use Rattle.smv_parser.specs.Contract.{IsOnly, IsParsed, IsRefused};

use crate::items::read_items;
use crate::program::Program;
use crate::reader::Failure;
use crate::refusals::ParseRefusal;
use smv_lexer::Token;
use std::alloc::Global;

/// The program that the tokens are, each of its expressions, paths and types at most 256 deep.
///
/// It refuses at the first token with which no program begins, or none within the depth.
pub fn parse(alloc: Global, tokens: &[Token]) -> Result<Program, ParseRefusal>
    ensures ok { IfOk result (IsParsed (views tokens.now)) }
    // No other program is, and what is one within the depth isn't refused, unless memory runs out.
    ensures only { IsOnly (views tokens.now) result }
    ensures refused { IfErr result (IsRefused (views tokens.now)) }
{
    match read_items(alloc, tokens) {
        Ok((modules, rest)) => {
            if !rest.is_empty() {
                return Err(ParseRefusal::Syntax {
                    at: tokens.len() - rest.len(),
                });
            }
            Ok(Program { modules })
        }
        Err(Failure::Syntax(left)) => Err(ParseRefusal::Syntax {
            at: tokens.len() - left,
        }),
        Err(Failure::TooDeep(left)) => Err(ParseRefusal::TooDeep {
            at: tokens.len() - left,
        }),
        Err(Failure::Memory) => Err(ParseRefusal::Memory),
    }
}
