//! Laws of what a model's text is, for whoever reads an answer.

ghost use Rattle.smv_session.specs.OneAnswer.{OneAnswer};

/// A text has one model at most, or is refused for one reason. Where the job names no specification
/// that is no set of states, one that has a model is refused for a fault of an item alone, and one
/// that is accepted is not refused.
pub fn one_answer()
    ensures { OneAnswer }
{
    smv_lexer::laws::one_answer();
    smv_parser::laws::one_answer();
    smv_instantiate::one_answer();
    smv_static::laws::one_refusal();
}
