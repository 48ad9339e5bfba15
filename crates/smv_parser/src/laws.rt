//! Laws of the grammar, for the layers above.

ghost use Rattle.std.specs.Prelude.{◌≡◌, ◌≤◌, ℕ, List, false, true};
ghost use Rattle.smv_lexer.specs.Text.{Placed};
ghost use Rattle.smv_parser.specs.Grammar.{Derives};
ghost use Rattle.smv_parser.specs.Program.{Program, program_depth};
ghost use Rattle.smv_parser.specs.Programs.{DerivesProgram, IsSyntaxPlace, IsTooDeepPlace, greatest_depth};
ghost use Rattle.smv_parser.specs.Rules.{Chain, Level};
ghost use Rattle.smv_parser.specs.Tree.{Tree};

/// The rules of expressions, written one by one, are those of the numbered levels. No tokens are two expressions.
pub fn rules()
    ensures levels { (k : ℕ) (ts : List Placed) (e : Tree) → 1 ≤ k → k ≤ 4 → Level k ts e
        → Derives false k ts e }
    ensures levels_all { (k : ℕ) (ts : List Placed) (e : Tree) → 1 ≤ k → k ≤ 4
        → Derives false k ts e
        → Level k ts e }
    ensures chains { (k : ℕ) (ts : List Placed) (e : Tree) → 5 ≤ k → k ≤ 11 → Chain k ts e
        → Derives true k ts e }
    ensures chains_all { (k : ℕ) (ts : List Placed) (e : Tree) → 5 ≤ k → k ≤ 11
        → Derives true k ts e
        → Chain k ts e }
    ensures one_tree { (ts : List Placed) (e f : Tree) → Derives false 1 ts e → Derives false 1 ts f
        → e ≡ f }
{}

/// Tokens are one program at most, or are refused for one reason at one place.
pub fn one_answer()
    ensures tree { (ts : List Placed) (p q : Program) → DerivesProgram ts p → DerivesProgram ts q
        → p ≡ q }
    ensures syntax_or_tree { (at : ℕ) (ts : List Placed) (p : Program) → IsSyntaxPlace ts at
        → DerivesProgram ts p
        → ⊥ }
    ensures deep_or_tree { (at : ℕ) (ts : List Placed) (p : Program) → IsTooDeepPlace ts at
        → DerivesProgram ts p
        → program_depth p ≤ greatest_depth → ⊥ }
    ensures syntax { (at other : ℕ) (ts : List Placed) → IsSyntaxPlace ts at
        → IsSyntaxPlace ts other
        → at ≡ other }
    ensures deep { (at other : ℕ) (ts : List Placed) → IsTooDeepPlace ts at
        → IsTooDeepPlace ts other → at ≡ other }
    ensures syntax_or_deep { (at other : ℕ) (ts : List Placed) → IsSyntaxPlace ts at
        → IsTooDeepPlace ts other → ⊥ }
{}
