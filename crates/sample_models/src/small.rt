//! Models of a few states, each of which shows one thing.

/// x rises when go is 1, which it is again and again. The second constraint is met everywhere.
pub const RISES: &str = "MODULE main
VAR x : boolean; go : boolean;
ASSIGN
  init(x) := 0;
  next(x) := case go : 1; 1 : x; esac;
FAIRNESS go
FAIRNESS 1
SPEC AF x
";

/// No state has a step, so no path is infinite: all that is said of every path is true, and nothing that is said of some
/// path.
pub const NO_STEP: &str = "MODULE main
VAR x : boolean;
TRANS 0
SPEC AG 0
SPEC EX 1
";

/// No state is initial, so every specification is true.
pub const NO_INITIAL_STATE: &str = "MODULE main
VAR x : boolean;
INIT 0
SPEC AG 0
SPEC EX 0
";

/// Every state has steps, and no path is fair.
pub const NEVER_FAIR: &str = "MODULE main
VAR x : boolean;
FAIRNESS 0
SPEC AF 0
SPEC EG 1
SPEC EX 1
";

/// A right side that leaves the type of x at x = 3, which no step reaches: an item faults all the same.
pub const UNREACHED_OVERFLOW: &str = "MODULE main
VAR x : 0..3;
ASSIGN next(x) := x + 1;
INIT x = 0
TRANS next(x) < 3
SPEC AG x < 3
";

/// A `case` without a condition that always holds. Where none is 1 the value is 1, so y is 1 after each 0.
pub const FALLS_THROUGH: &str = "MODULE main
VAR y : boolean;
ASSIGN next(y) := case y : 0; esac;
SPEC AG AF y
";

/// Three values take two bits, so one code of x is unused; y has no bits.
pub const UNUSED_CODE: &str = "MODULE main
VAR x : {a, b, c}; y : {only};
SPEC AG (x in {a, b} union {c})
SPEC EG y = only
";

/// A right side that is a set: x takes one of two values where y is 1, and is kept elsewhere.
pub const SETS: &str = "MODULE main
VAR x : {a, b, c}; y : boolean;
ASSIGN
  init(x) := {a, c};
  next(x) := case y : b union {c}; 1 : x; esac;
SPEC x = b
";

/// An assignment of a current value: x is y and z in every state, and a state where it isn't has no steps.
pub const CURRENT: &str = "MODULE main
VAR x : boolean; y : boolean; z : boolean;
ASSIGN
  x := y & z;
  next(y) := z;
SPEC x
";

/// Conditions on steps: x grows where y is 1, and is no more than two away from its next value.
pub const GROWS: &str = "MODULE main
VAR x : 0..3; y : boolean;
TRANS y -> x < next(x)
TRANS next(x) - x in {0 - 2, 0 - 1, 0, 1, 2}
SPEC x = 3
";

/// An initial value and a condition on the initial states. Nothing is said of steps.
pub const BEGINS: &str = "MODULE main
VAR x : 0..3; y : boolean;
ASSIGN init(y) := 1;
INIT x in {1, 3}
SPEC x = 3 & y
";

/// A free variable: x turns, and nothing is said of p.
pub const FREE: &str = "MODULE main
VAR x : boolean; p : {a, b, c};
ASSIGN next(x) := !x;
SPEC p = b
";
