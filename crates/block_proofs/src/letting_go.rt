//! The end of a proof whose pins stay live: several of its sets may be one pin.

ghost use Rattle.std.specs.Prelude.{◌≡◌, ◌++◌, ◌∷◌, [], Ok, IfOk, OnOk};

use proof_form::form::{Entry, FairPart, FreeEntry, FreePart, Layer, Proof, Rule};
use region_sets::Pin;
use std::alloc::{AllocError, AllocFailed};

/// What holds pins, and can be let go of while they stay live.
pub trait LetGo {
    /// Ends this, and no pin.
    fn let_go(self);
}

impl LetGo for Pin {
    fn let_go(self) {
        let Pin { slot: _ } = self;
    }
}

impl<T: LetGo> LetGo for Vec<T> {
    fn let_go(mut self) {
        while let Some(value) = self.pop() {
            value.let_go();
        }
        self.destroy_empty();
    }
}

impl<T: LetGo> LetGo for Option<T> {
    fn let_go(self) {
        match self {
            None => {}
            Some(value) => value.let_go(),
        }
    }
}

impl<A: LetGo, B: LetGo> LetGo for (A, B) {
    fn let_go(self) {
        let (a, b) = self;
        a.let_go();
        b.let_go();
    }
}

impl LetGo for Layer<Pin> {
    fn let_go(self) {
        let Layer { avoid: _, set } = self;
        set.let_go();
    }
}

impl LetGo for FairPart<Pin> {
    fn let_go(self) {
        let FairPart { inside, reach } = self;
        inside.let_go();
        reach.let_go();
    }
}

impl LetGo for Rule<Pin> {
    fn let_go(self) {
        match self {
            Rule::EX(set) => set.let_go(),
            Rule::AX(set) => set.let_go(),
            Rule::AR(set) => set.let_go(),
            Rule::EU(list) => list.let_go(),
            Rule::AU(layers) => layers.let_go(),
            Rule::ER(fair, untils) => {
                fair.let_go();
                untils.let_go();
            }
        }
    }
}

impl LetGo for Entry<Pin> {
    fn let_go(self) {
        let Entry {
            node: _,
            plus: _,
            rule,
        } = self;
        rule.let_go();
    }
}

impl LetGo for FreeEntry<Pin> {
    fn let_go(self) {
        let FreeEntry {
            constraint: _,
            entry,
        } = self;
        entry.let_go();
    }
}

impl LetGo for FreePart<Pin> {
    fn let_go(self) {
        let FreePart {
            nonfair,
            fair,
            entries,
        } = self;
        nonfair.let_go();
        fair.let_go();
        entries.let_go();
    }
}

impl LetGo for Proof<Pin> {
    fn let_go(self) {
        let Proof {
            claim: _,
            free,
            nonfair,
            fair,
            entries,
            at: _,
        } = self;
        free.let_go();
        nonfair.let_go();
        fair.let_go();
        entries.let_go();
    }
}

/// Adds what was made to the list. Where there is no room for it, it is let go of.
pub(crate) fn add_made<T: LetGo>(
    list: &mut Vec<T>,
    made: Result<T, AllocError>,
) -> Result<(), AllocError>
    ensures { OnOk result
        ((value : T) × (made ≡ Ok value) × (list.new.items ≡ list.old.items ++ value ∷ [])) }
{
    match list.push(made?) {
        Ok(()) => Ok(()),
        Err(failed) => {
            let AllocFailed { value } = failed;
            value.let_go();
            Err(AllocError)
        }
    }
}

/// Both, or neither.
pub(crate) fn both<A: LetGo, B: LetGo>(
    a: Result<A, AllocError>,
    b: Result<B, AllocError>,
) -> Result<(A, B), AllocError>
    ensures { IfOk result (λ both. (a ≡ Ok both.0) × (b ≡ Ok both.1)) }
{
    match (a, b) {
        (Ok(first), Ok(second)) => Ok((first, second)),
        (Ok(first), Err(error)) => {
            first.let_go();
            Err(error)
        }
        (Err(error), Ok(second)) => {
            second.let_go();
            Err(error)
        }
        (Err(error), Err(_)) => Err(error),
    }
}
