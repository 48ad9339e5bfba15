// The steps of a path, member by member.

ghost use Rattle.std.specs.Prelude.{◌<◌, ℕ, length, MatchOption};
ghost use Rattle.kripke_model.specs.Path.{member_count};
ghost use Rattle.trace_check.specs.Judged.{IsFirstBreak, StepsAt};

use kripke_model::models::Ruled;
use kripke_model::states::Lasso;
use single_states::steps::is_step;

/// The first state that doesn't step to the next one, counted from 0. After the last one it is the
/// cycle's first.
pub(crate) fn first_break(model: &Ruled, lasso: &Lasso) -> Option<u64>
    requires { 0 < length lasso.now.cycle }
    ensures { MatchOption result
        ((n : ℕ) → n < member_count lasso.now → StepsAt model.now lasso.now n)
        (IsFirstBreak model.now lasso.now) }
{
    for n in 0..lasso.member_count() {
        if !is_step(model, lasso.at(n), lasso.at(n + 1)) {
            return Some(n);
        }
    }
    None
}
