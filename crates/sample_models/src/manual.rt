//! Models of McMillan's SMV manual, and small ones in its manner. Each has a file of its name in `examples/`, with the same text
//! below the comments.

/// Two variables that exchange their values: an invariant that holds.
pub const SWAP: &str = "MODULE main
VAR
  a : boolean;
  b : boolean;
ASSIGN
  init(a) := 0;
  init(b) := 1;
  next(a) := b;
  next(b) := a;
SPEC AG (a | b)
";

/// A request in a ready state makes the next state busy, and a busy state is busy already. The request is a free variable,
/// and one right side is a set.
pub const REQUEST: &str = "MODULE main
VAR
  request : boolean;
  state : {ready, busy};
ASSIGN
  init(state) := ready;
  next(state) := case
    state = ready & request : busy;
    1 : {ready, busy};
  esac;
SPEC AG(request -> AF state = busy)
";

/// A counter of three cells, the lowest bit first: module instances, parameters and definitions. The carry out of the last
/// cell is 1 exactly where the count is 7, so in every eighth state.
pub const COUNTER: &str = "MODULE main
VAR
  bit0 : counter_cell(1);
  bit1 : counter_cell(bit0.carry_out);
  bit2 : counter_cell(bit1.carry_out);
SPEC AG AF bit2.carry_out
MODULE counter_cell(carry_in)
VAR
  value : boolean;
ASSIGN
  init(value) := 0;
  next(value) := value + carry_in mod 2;
DEFINE
  carry_out := value & carry_in;
";

/// The same counter without instances, in Boolean operators alone: an invariant that fails after seven steps.
pub const COUNTER_BITS: &str = "MODULE main
VAR
  bit0 : boolean;
  bit1 : boolean;
  bit2 : boolean;
ASSIGN
  init(bit0) := 0; init(bit1) := 0; init(bit2) := 0;
  next(bit0) := !bit0;
  next(bit1) := !(bit1 <-> bit0);
  next(bit2) := !(bit2 <-> (bit1 & bit0));
SPEC AG !((bit2 & bit1) & bit0)
";

/// Three inverters in a ring, each a process: the selector, and fairness. Each is selected again and again, and at each state
/// some output is not the inverse of the one before it, since there are three; so the outputs never stand still.
pub const INVERTER_RING: &str = "MODULE main
VAR
  gate1 : process inverter(gate3.output);
  gate2 : process inverter(gate1.output);
  gate3 : process inverter(gate2.output);
SPEC (AG AF gate1.output) & (AG AF !gate1.output)
MODULE inverter(input)
VAR
  output : boolean;
ASSIGN
  init(output) := 0;
  next(output) := !input;
FAIRNESS running
";

/// The ring without fairness: `main` may be selected for ever, and then no output changes.
pub const UNFAIR_RING: &str = "MODULE main
VAR
  gate1 : process inverter(gate3.output);
  gate2 : process inverter(gate1.output);
  gate3 : process inverter(gate2.output);
SPEC (AG AF gate1.output) & (AG AF !gate1.output)
MODULE inverter(input)
VAR
  output : boolean;
ASSIGN
  init(output) := 0;
  next(output) := !input;
";

/// Two users of a semaphore, which both assign it. They are never both critical; but one may find it taken each time that
/// it is selected, while the other one leaves and enters again in between.
pub const SEMAPHORE: &str = "MODULE main
VAR
  semaphore : boolean;
  proc1 : process user(semaphore);
  proc2 : process user(semaphore);
ASSIGN
  init(semaphore) := 0;
SPEC AG !(proc1.state = critical & proc2.state = critical)
SPEC AG (proc1.state = entering -> AF proc1.state = critical)
MODULE user(semaphore)
VAR
  state : {idle, entering, critical, exiting};
ASSIGN
  init(state) := idle;
  next(state) := case
    state = idle : {idle, entering};
    state = entering & !semaphore : critical;
    state = critical : {critical, exiting};
    state = exiting : idle;
    1 : state;
  esac;
  next(semaphore) := case
    state = entering : 1;
    state = exiting : 0;
    1 : semaphore;
  esac;
FAIRNESS running
";
