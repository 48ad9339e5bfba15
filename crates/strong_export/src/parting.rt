//! The sets of a certificate in one list, and the reasons of its rows in another.

ghost use Rattle.std.specs.Prelude.{◌≡◌, ◌≤◌, ◌+◌, ◌++◌, [], IfOk, length, map, vec_capacity, vec_len};
ghost use Rattle.strong_fair.specs.Form.{sets_of};
ghost use Rattle.strong_export.specs.Parted.{HasRoom, row_pins, row_reasons, reasons_in};

use region_sets::Pin;
use std::alloc::{AllocError, Global};
use strong_fair::certificate::{Certificate, Reason, Row};

/// A list without sets that has room for those of a certificate, and the reasons of its rows in order.
pub(crate) struct Room {
    pub(crate) pins: Vec<Pin>,
    pub(crate) reasons: Vec<Reason>,
}

/// Why no strong path stays in the set of each row.
fn reasons_of(alloc: Global, rows: &[Row]) -> Result<Vec<Reason>, AllocError>
    ensures { IfOk result (λ reasons. reasons.items ≡ row_reasons rows.now) }
{
    let mut reasons = Vec::new(alloc);
    for row in rows {
        reasons.push(row.reason)?;
    }
    Ok(reasons)
}

/// The rows in order.
fn rows_of(certificate: &Certificate) -> &[Row]
    ensures reasons { row_reasons result.now ≡ reasons_in certificate.now }
    ensures count { length result.now ≡ length certificate.now.rows }
{
    &certificate.rows
}

/// Room for the sets of a certificate, and the reasons of its rows.
pub(crate) fn room_for(alloc: Global, certificate: &Certificate) -> Result<Room, AllocError>
    ensures { IfOk result (HasRoom certificate.now) }
{
    let rows = rows_of(certificate);
    let reasons = reasons_of(alloc, rows)?;
    let pins = Vec::with_capacity(alloc, rows.len() + 1)?;
    Ok(Room { pins, reasons })
}

/// Moves the sets of rows to the end of a list that has room for them.
fn move_rows(mut rows: Vec<Row>, pins: &mut Vec<Pin>)
    requires room { vec_len pins.old + vec_len rows ≤ vec_capacity pins.old }
    ensures { pins.new.items ≡ pins.old.items ++ row_pins rows.items }
{
    rows.reverse();
    while let Some(row) = rows.pop() {
        let Row { set, reason: _ } = row;
        if let Err(_) = pins.push(set) {
            unreachable!();
        }
    }
    rows.destroy_empty();
}

/// Moves the sets of a certificate, in order, to a list without sets that has room for them.
pub(crate) fn move_sets(certificate: Certificate, pins: &mut Vec<Pin>)
    requires none { pins.old.items ≡ [] }
    requires empty { vec_len pins.old ≡ 0 }
    requires room { length (sets_of certificate) ≤ vec_capacity pins.old }
    ensures { pins.new.items ≡ sets_of certificate }
{
    let Certificate { inside, rows } = certificate;
    if let Err(_) = pins.push(inside) {
        unreachable!();
    }
    move_rows(rows, pins);
}
