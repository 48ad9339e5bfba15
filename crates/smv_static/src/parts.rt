//! The parts of a flat model.

ghost use Rattle.std.specs.Prelude.{◌≡◌, length};

use kripke_model::models::{Assign, FlatModel, Item};

pub fn assigns_of(flat: &FlatModel) -> &[Assign]
    ensures { result.now ≡ flat.now.assigns }
{
    &flat.assigns
}

pub fn inits_of(flat: &FlatModel) -> &[Item]
    ensures { result.now ≡ flat.now.inits }
{
    &flat.inits
}

pub fn invars_of(flat: &FlatModel) -> &[Item]
    ensures { result.now ≡ flat.now.invars }
{
    &flat.invars
}

pub fn trans_of(flat: &FlatModel) -> &[Item]
    ensures { result.now ≡ flat.now.trans }
{
    &flat.trans
}

pub fn constraints_of(flat: &FlatModel) -> &[Item]
    ensures { result.now ≡ flat.now.constraints }
{
    &flat.constraints
}

pub fn specs_of(flat: &FlatModel) -> &[Item]
    ensures { result.now ≡ flat.now.specs }
{
    &flat.specs
}

pub fn variable_count(flat: &FlatModel) -> usize
    ensures { result ≡ length flat.now.vars }
{
    flat.vars.len()
}

pub fn process_count(flat: &FlatModel) -> usize
    ensures { result ≡ length flat.now.processes }
{
    flat.processes.len()
}

pub fn line_of_assign(assign: &Assign) -> u32
    ensures { result ≡ assign.now.line }
{
    assign.line
}

pub fn line_of(item: &Item) -> u32
    ensures { result ≡ item.now.line }
{
    item.line
}

pub fn var_of(assign: &Assign) -> u32
    ensures { result ≡ assign.now.var }
{
    assign.var
}
