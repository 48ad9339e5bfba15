//! Sets as one list of nodes over the bits of the states.

use bdd_walk::NodeList;
use case_models::kinds::diagrams;
use case_models::reading::model_of;
use diagram_sets::DiagramSets;
use region_sets::{SetRefusal, StateSets};
use std::alloc::Global;
use std::test::Fail;

/// x rises when go is 1.
const RISES: &[u8] = b"MODULE main
VAR x : boolean; go : boolean;
ASSIGN
  init(x) := 0;
  next(x) := case go : 1; 1 : x; esac;
SPEC x
";

/// Diagrams over the states of that model.
fn sets_where_x_rises(alloc: Global) -> Result<DiagramSets, Fail> {
    let Ok(model) = model_of(alloc, RISES) else {
        return Err(Fail::new("a text has no model"));
    };
    match diagrams(alloc, &model) {
        Ok(sets) => Ok(sets),
        Err(_) => Err(Fail::new("a model has no parts")),
    }
}

/// The value of a root where the bits are these. `None` where the list has no node of a number, or the bits are too few.
fn value_at(list: &NodeList, root: u32, bits: &[bool]) -> Option<bool> {
    let mut at = root;
    for _ in 0..=bits.len() {
        if at < 2 {
            return Some(at == 1);
        }
        let node = list.nodes.get(at as usize - 2)?;
        let bit = *bits.get(node.level as usize)?;
        at = if bit { node.high } else { node.low };
    }
    None
}

/// Where the root has value 1, as a number: 1, 2, 4 and 8 for the bits 00, 01, 10 and 11.
fn codes_at(list: &NodeList, root: u32) -> Option<u32> {
    let mut sum: u32 = 0;
    let mut weight: u32 = 1;
    for code in 0..4 {
        if value_at(list, root, &[code / 2 == 1, code % 2 == 1])? {
            sum = sum.wrapping_add(weight);
        }
        weight = weight.wrapping_mul(2);
    }
    Some(sum)
}

/// The number of the list's roots and nodes, and the codes of its first two roots.
fn seen_in(list: &NodeList) -> Option<(usize, usize, u32, u32)> {
    let first = codes_at(list, *list.roots.get(0)?)?;
    let second = codes_at(list, *list.roots.get(1)?)?;
    Some((list.roots.len(), list.nodes.len(), first, second))
}

/// What is seen in the list of the initial states and of those with a step into them.
fn exported(sets: &mut DiagramSets) -> Result<Option<(usize, usize, u32, u32)>, SetRefusal> {
    let start = sets.initial()?;
    match sets.pre(&start) {
        Ok(before) => {
            let pins = [start, before];
            let list = sets.export_pins(&pins);
            let [start, before] = pins;
            sets.release(start);
            sets.release(before);
            Ok(seen_in(&list?))
        }
        Err(refusal) => {
            sets.release(start);
            Err(refusal)
        }
    }
}

/// x is 0 at first, and stays so for one step from the state where go is 0 too. The first list is one node over x, the
/// second one has a node more over x, with one over go below it.
#[test]
fn two_sets_as_one_list(rt: HostRuntime) -> Result<(), Fail> {
    let mut sets = sets_where_x_rises(rt.alloc())?;
    assert!(rt; sets.layout().bits() == 2);
    assert!(rt; exported(&mut sets)? == Some((2, 3, 3, 1)));
    Ok(())
}
