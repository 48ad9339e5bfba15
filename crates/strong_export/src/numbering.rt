//! A certificate by the numbers of its sets in a list of nodes.

ghost use Rattle.std.specs.Prelude.{◌≡◌, ◌+◌, IfOk, drop, length, map, slice_index};
ghost use Rattle.bdd_walk.specs.List.{nodes_of, roots_of};
ghost use Rattle.command_replies.specs.SeenRows.{seen_row};
ghost use Rattle.strong_export.specs.Numbered.{IsNumbered, rows_with};

use bdd_walk::NodeList;
use command_replies::{NodeCertificate, NodeRow};
use std::alloc::{AllocError, Global};
use strong_fair::certificate::Reason;

/// Rows with these reasons, whose sets are the roots behind the first.
fn rows_over(alloc: Global, roots: &[u32], reasons: &[Reason]) -> Result<Vec<NodeRow>, AllocError>
    requires { length roots.now ≡ 1 + length reasons.now }
    ensures { IfOk result (λ rows. map seen_row rows.items
        ≡ rows_with reasons.now (drop 1 roots.now)) }
{
    let mut rows = Vec::new(alloc);
    for (place, reason) in reasons.iter().enumerate() {
        rows.push(NodeRow {
            set: roots[place + 1],
            reason: *reason,
        })?;
    }
    Ok(rows)
}

/// A certificate over the list's nodes whose sets are its roots, with these reasons of its rows.
pub(crate) fn numbered(
    alloc: Global,
    list: NodeList,
    reasons: &[Reason],
) -> Result<NodeCertificate, AllocError>
    requires { length (roots_of list) ≡ 1 + length reasons.now }
    ensures { IfOk result (IsNumbered list reasons.now) }
{
    let NodeList { nodes, roots } = list;
    let rows = rows_over(alloc, &roots, reasons)?;
    Ok(NodeCertificate {
        nodes,
        inside: roots[0],
        rows,
    })
}
