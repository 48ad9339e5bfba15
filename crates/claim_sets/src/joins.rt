//! Many sets in one.

ghost use Rattle.std.specs.Prelude.{◌≡◌, IfOk, map};
ghost use Rattle.region_sets.specs.Sets.{IsCall, pin_slots, region};
ghost use Rattle.region_sets.specs.Ranks.{AreLive, regions, slots};
ghost use Rattle.fair_rules.specs.Claims.{join};
ghost use Rattle.proof_form.specs.Form.{layer_sets};

use proof_form::form::Layer;
use region_sets::{Pin, SetRefusal, StateSets};

/// The states of all sets.
pub fn join_all<S: StateSets>(sets: &mut S, pins: &[Pin]) -> Result<Pin, SetRefusal>
    requires { AreLive (S.seen sets.old) (slots pins.now) }
    ensures call { IsCall 2 (S.seen sets.old) (S.seen sets.new) (pin_slots result) result }
    ensures set { IfOk result (λ pin. region (S.seen sets.new) pin
        ≡ join (regions (S.seen sets.old) pins.now)) }
    ensures products { S.products sets.new ≡ S.products sets.old }
{
    let mut all = sets.empty()?;
    for k in 0..pins.len() {
        let more = sets.join(&all, &pins[k]);
        sets.release(all);
        match more {
            Ok(pin) => all = pin,
            Err(refusal) => return Err(refusal),
        }
    }
    Ok(all)
}

/// The states of all layers.
pub fn join_layers<S: StateSets>(sets: &mut S, layers: &[Layer<Pin>]) -> Result<Pin, SetRefusal>
    requires { AreLive (S.seen sets.old) (slots (layer_sets layers.now)) }
    ensures call { IsCall 2 (S.seen sets.old) (S.seen sets.new) (pin_slots result) result }
    ensures set { IfOk result (λ pin. region (S.seen sets.new) pin
        ≡ join (regions (S.seen sets.old) (layer_sets layers.now))) }
    ensures products { S.products sets.new ≡ S.products sets.old }
{
    let mut all = sets.empty()?;
    for k in 0..layers.len() {
        let layer = &layers[k];
        let more = sets.join(&all, &layer.set);
        sets.release(all);
        match more {
            Ok(pin) => all = pin,
            Err(refusal) => return Err(refusal),
        }
    }
    Ok(all)
}
