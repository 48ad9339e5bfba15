//! Makes the proofs of the specifications of models, and says what each has beside the run that it comes from, and how
//! long it takes to make it.
//!
//! The words are the names of files of models. Behind the word `answers` it says of each proof what the
//! checker answers to it, and no more. Without words it makes the proofs for a ring of three inverters,
//! and says no time.

ghost use Rattle.std.specs.Prelude.{◌≡◌, ◌+◌, Some};
ghost use Rattle.kripke_model.specs.WellFormed.{ctl_of};
ghost use Rattle.kripke_model.specs.Leaves.{HasModelLeaves};
ghost use Rattle.proof_form.specs.Shape.{spec_formula};

use crate::counting::Counts;
use crate::making::{Measured, measure};
use crate::rechecking::recheck;
use crate::spec_at::spec_at;
use crate::times::{Times, cpu_nanos};
use anyhow::{Context, Result, bail};
use case_models::kinds::diagrams;
use case_models::reading::model_of;
use case_models::telling::{tell_full, tell_refusal};
use kripke_model::expressions::Formula;
use kripke_model::models::Ruled;
use region_sets::SetRefusal;
use smv_rings::gen_text;
use std::fs;

/// What is said of a specification.
#[derive(Clone, Copy, PartialEq, Eq)]
enum Telling {
    /// The verdict, and what the checker answers to the proof.
    Answers,
    /// With what the proof has.
    Counts,
    /// And with the times.
    Times,
}

/// What is measured of all specifications.
#[derive(Clone, Copy)]
struct Sum {
    specs: usize,
    counts: Counts,
    pins: usize,
    times: Times,
}

impl Sum {
    fn zero() -> Sum {
        Sum {
            specs: 0,
            counts: Counts::zero(),
            pins: 0,
            times: Times::zero(),
        }
    }

    fn plus(self, measured: Measured) -> Sum {
        Sum {
            specs: self.specs.saturating_add(1),
            counts: self.counts.plus(measured.counts),
            pins: self.pins.saturating_add(measured.pins),
            times: self.times.plus(measured.times),
        }
    }
}

/// Says what proofs have beside runs of so many pins, and, where it is told, their times.
fn tell(
    rt: &HostRuntime,
    what: &str,
    counts: Counts,
    pins: usize,
    times: Option<Times>,
) -> Result<()> {
    let Counts {
        entries,
        layers,
        sets,
    } = counts;
    print!(rt;
        "{what}: entries {entries}, layers {layers}, sets {sets} of {pins} pins of the run"
    )?;
    if let Some(times) = times {
        let proof = times.proof_ratio(rt.alloc())?;
        let recheck = times.recheck_ratio(rt.alloc())?;
        print!(rt;
            "; extract takes {proof} of sat_sets, and reading and testing {recheck} of deciding"
        )?;
    }
    println!(rt; "")?;
    Ok(())
}

/// Measures a specification, counted from 1, over diagrams of its own. Where there is no room, says so.
fn measure_over(
    rt: &HostRuntime,
    model: &Ruled,
    formula: &Formula,
    spec: u32,
    said: &mut String,
) -> Result<Option<Measured>>
    requires spec { spec_formula model.now spec ≡ Some (ctl_of formula.now) }
    requires leaves { HasModelLeaves model.now (ctl_of formula.now) }
{
    let start = cpu_nanos(rt);
    let mut sets = match diagrams(rt.alloc(), model) {
        Ok(sets) => sets,
        Err(refusal) => {
            tell_refusal(&refusal, said)?;
            return Ok(None);
        }
    };
    let build = cpu_nanos(rt).saturating_sub(start);
    match measure(rt, &mut sets, model, formula, spec) {
        Ok(mut measured) => {
            measured.times.build = build;
            Ok(Some(measured))
        }
        Err(SetRefusal::Full { held }) => {
            tell_full(&held, said)?;
            Ok(None)
        }
        Err(SetRefusal::Memory) => bail!("no memory"),
    }
}

/// Measures a specification, counted from 1, and says so. Gives the sum with it.
fn run_spec(
    rt: &HostRuntime,
    name: &str,
    model: &Ruled,
    formula: &Formula,
    spec: u32,
    telling: Telling,
    sum: Sum,
) -> Result<Sum>
    requires spec { spec_formula model.now spec ≡ Some (ctl_of formula.now) }
    requires leaves { HasModelLeaves model.now (ctl_of formula.now) }
{
    let mut said = String::new(rt.alloc());
    let Some(mut measured) = measure_over(rt, model, formula, spec, &mut said)? else {
        println!(rt; "{name} spec {spec}: {said}")?;
        return Ok(sum);
    };
    let (answer, nanos) = recheck(rt, model, measured.text.as_slice())?;
    measured.times.recheck = nanos;
    let verdict = if measured.holds { "true" } else { "false" };
    let what = format!(in rt.alloc(); "{name} spec {spec} {verdict}, {answer}")?;
    let times = match telling {
        Telling::Answers => {
            println!(rt; "{what}")?;
            return Ok(sum.plus(measured));
        }
        Telling::Counts => None,
        Telling::Times => Some(measured.times),
    };
    tell(rt, what.as_str(), measured.counts, measured.pins, times)?;
    Ok(sum.plus(measured))
}

/// Measures each specification of the model. Gives the sum with them.
fn run_model(
    rt: &HostRuntime,
    name: &str,
    model: &Ruled,
    telling: Telling,
    sum: Sum,
) -> Result<Sum> {
    let mut all = sum;
    let Ok(count) = u32::try_from(model.formulas().len()) else {
        bail!("too many specifications");
    };
    for before in 0..count {
        let Some(formula) = spec_at(model, before) else {
            return Ok(all);
        };
        all = run_spec(rt, name, model, formula, before + 1, telling, all)?;
    }
    Ok(all)
}

/// Measures each specification of a file's model. Gives the sum with them.
fn run_file(rt: &HostRuntime, name: &str, telling: Telling, sum: Sum) -> Result<Sum> {
    let text = fs::read_to_string(rt, name).context(format_args!("reading {name}"))?;
    match model_of(rt.alloc(), text.as_str().as_bytes()) {
        Ok(model) => run_model(rt, name, &model, telling, sum),
        Err(refusal) => {
            println!(rt; "{name}: {refusal}")?;
            Ok(sum)
        }
    }
}

/// Measures the specifications of a ring of three inverters.
fn run_ring(rt: &HostRuntime) -> Result<()> {
    let text = gen_text(rt.alloc(), 3)?;
    let Ok(model) = model_of(rt.alloc(), &text) else {
        bail!("no model");
    };
    let _sum = run_model(rt, "ring of 3", &model, Telling::Counts, Sum::zero())?;
    Ok(())
}

/// Measures the proofs of the files that the words name, or without words those of a ring.
pub fn measure_proofs(rt: &HostRuntime, words: &[String]) -> Result<()> {
    let mut sum = Sum::zero();
    let mut telling = Telling::Times;
    let mut files: usize = 0;
    for name in words {
        if name.as_str() == "answers" {
            telling = Telling::Answers;
            continue;
        }
        sum = run_file(rt, name.as_str(), telling, sum)?;
        files = files.saturating_add(1);
    }
    if files == 0 {
        return run_ring(rt);
    }
    if telling == Telling::Answers {
        return Ok(());
    }
    let what = format!(in rt.alloc(); "{count} specifications", count = sum.specs)?;
    tell(rt, what.as_str(), sum.counts, sum.pins, Some(sum.times))
}
