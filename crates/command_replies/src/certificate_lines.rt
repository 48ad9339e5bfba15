// The lines of a certificate over the nodes of a list.
ghost use Rattle.std.specs.Prelude.{◌≡◌, ◌++◌, ◌∷◌, [], OnOk, codes, decimal, map};
ghost use Rattle.proof_text.specs.Lines as lines;
ghost use Rattle.proof_text.specs.Lines.{text_of, nodes_lines};
ghost use Rattle.command_replies.specs.SeenRows.{certificate_of, seen_row};
ghost use Rattle.command_replies.specs.Strong.{certificate_lines, row_line, rows_lines};

use crate::certificate::{NodeCertificate, NodeRow};
use bdd_nodes::Triple;
use std::alloc::AllocError;
use strong_fair::certificate::Reason;
use value_texts::text::Text;

// A space and the number behind it.
fn push_spaced(text: &mut Text, n: u32) -> Result<(), AllocError>
    ensures { OnOk result (text.new ≡ text.old ++ 32 ∷ decimal n) }
{
    text.push(b" ")?;
    text.push_number(n)
}

// The line of a word and a number.
fn push_counted(text: &mut Text, word: &[u8], n: usize) -> Result<(), AllocError>
    ensures { OnOk result (text.new ≡ text.old ++ text_of (lines.counted word.now n ∷ [])) }
{
    text.push(word)?;
    text.push(b" ")?;
    text.push_number(n)?;
    text.push(b"\n")
}

// The line of a word and two numbers.
fn push_numbered(text: &mut Text, word: &[u8], n: u32, set: u32) -> Result<(), AllocError>
    ensures { OnOk result (text.new ≡ text.old ++ text_of
        (lines.Words (word.now ∷ decimal n ∷ decimal set ∷ []) ∷ [])) }
{
    text.push(word)?;
    push_spaced(text, n)?;
    push_spaced(text, set)?;
    text.push(b"\n")
}

fn push_node(text: &mut Text, node: &Triple) -> Result<(), AllocError>
    ensures { OnOk result (text.new ≡ text.old ++ text_of (lines.Node [] node.now ∷ [])) }
{
    text.push(b"n")?;
    push_spaced(text, node.level)?;
    push_spaced(text, node.low)?;
    push_spaced(text, node.high)?;
    text.push(b"\n")
}

fn push_nodes(text: &mut Text, nodes: &[Triple]) -> Result<(), AllocError>
    ensures { OnOk result (text.new ≡ text.old ++ text_of (map (lines.Node []) nodes.now)) }
{
    for node in nodes {
        push_node(text, node)?;
    }
    Ok(())
}

// The nodes behind their number.
#[tactic(auto, using(crate::proofs::CertificateLines::table_is))]
fn push_table(text: &mut Text, nodes: &[Triple]) -> Result<(), AllocError>
    ensures { OnOk result (text.new ≡ text.old ++ text_of (nodes_lines nodes.now)) }
{
    push_counted(text, b"nodes", nodes.len())?;
    push_nodes(text, nodes)
}

fn push_row(text: &mut Text, row: &NodeRow) -> Result<(), AllocError>
    ensures { OnOk result (text.new ≡ text.old ++ text_of (row_line (seen_row row.now) ∷ [])) }
{
    match row.reason {
        Reason::Dead => push_counted(text, b"dead", row.set as usize),
        Reason::Avoid(k) => push_numbered(text, b"avoid", k, row.set),
        Reason::Pair(i) => push_numbered(text, b"pair", i, row.set),
    }
}

fn push_each(text: &mut Text, rows: &[NodeRow]) -> Result<(), AllocError>
    ensures { OnOk result (text.new ≡ text.old ++ text_of (map row_line (map seen_row rows.now))) }
{
    for row in rows {
        push_row(text, row)?;
    }
    Ok(())
}

// The rows behind their number.
#[tactic(auto, using(crate::proofs::CertificateLines::rows_are))]
fn push_rows(text: &mut Text, rows: &[NodeRow]) -> Result<(), AllocError>
    ensures { OnOk result (text.new ≡ text.old ++ text_of (rows_lines (map seen_row rows.now))) }
{
    push_counted(text, b"rows", rows.len())?;
    push_each(text, rows)
}

// The last line.
fn push_last(text: &mut Text) -> Result<(), AllocError>
    ensures { OnOk result (text.new ≡ text.old ++ text_of (lines.Words (codes "end" ∷ []) ∷ [])) }
{
    text.push(b"end\n")
}

// The lines of a certificate behind the nodes.
fn push_sets(text: &mut Text, inside: u32, rows: &[NodeRow]) -> Result<(), AllocError>
    ensures { OnOk result (text.new ≡ text.old
        ++ text_of (lines.counted (codes "inside") inside ∷ rows_lines (map seen_row rows.now)
        ++ lines.Words (codes "end" ∷ []) ∷ [])) }
{
    push_counted(text, b"inside", inside as usize)?;
    push_rows(text, rows)?;
    push_last(text)
}

/// Adds the lines of a certificate.
pub(crate) fn push_certificate(
    text: &mut Text,
    certificate: &NodeCertificate,
) -> Result<(), AllocError>
    ensures { OnOk result (text.new ≡ text.old
        ++ text_of
        (certificate_lines certificate.now.nodes.items (certificate_of certificate.now))) }
{
    push_table(text, &certificate.nodes)?;
    push_sets(text, certificate.inside, &certificate.rows)
}
