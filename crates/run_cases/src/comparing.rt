//! What differs between how a call ended and how it was expected to end.

use crate::calling::{Found, bytes_under};
use crate::case::{Ending, Full, LeftFile};
use case_text::expected::Expected;
use case_text::notation::show;
use smv_outside::Entry;
use std::alloc::AllocError;

fn tell_put(put: &[u8], expected: &Expected, report: &mut String) -> Result<(), AllocError> {
    if expected.is_met_by(put) {
        return Ok(());
    }
    report.push_str("  puts\n")?;
    show(put, report)?;
    report.push_str("  and not\n")?;
    expected.tell(report)
}

fn tell_stores(stores: &[Full], report: &mut String) -> Result<(), AllocError> {
    for full in stores {
        let Full { levels, nodes } = *full;
        write!(report, "    full {levels} levels {nodes} nodes\n")?;
    }
    Ok(())
}

fn tell_evidence(found: &[Full], expected: &[Full], report: &mut String) -> Result<(), AllocError> {
    if found == expected {
        return Ok(());
    }
    report.push_str("  has as evidence\n")?;
    tell_stores(found, report)?;
    report.push_str("  and not\n")?;
    tell_stores(expected, report)
}

fn tell_status(found: u8, expected: u8, report: &mut String) -> Result<(), AllocError> {
    if found == expected {
        return Ok(());
    }
    write!(report, "  ends with status {found} and not {expected}\n")
}

/// Whether a file is as the call was expected to leave it: as it is said, and else as it was.
fn is_left(file: &Entry, before: &[Entry], left: &[LeftFile]) -> bool {
    let name = file.name.as_str();
    for expected in left {
        if expected.name.as_str() == name {
            return expected.text.is_met_by(&file.bytes);
        }
    }
    bytes_under(before, name) == Some(file.bytes.as_slice())
}

fn tell_files(
    files: &[Entry],
    before: &[Entry],
    left: &[LeftFile],
    report: &mut String,
) -> Result<(), AllocError> {
    for file in files {
        if !is_left(file, before, left) {
            let name = file.name.as_str();
            write!(report, "  leaves in {name}\n")?;
            show(&file.bytes, report)?;
        }
    }
    Ok(())
}

fn tell_missing(name: &str, files: &[Entry], report: &mut String) -> Result<(), AllocError> {
    if bytes_under(files, name).is_some() {
        return Ok(());
    }
    write!(report, "  leaves no file {name}\n")
}

fn tell_missing_files(
    files: &[Entry],
    before: &[Entry],
    left: &[LeftFile],
    report: &mut String,
) -> Result<(), AllocError> {
    for file in before {
        tell_missing(file.name.as_str(), files, report)?;
    }
    for file in left {
        tell_missing(file.name.as_str(), files, report)?;
    }
    Ok(())
}

/// Adds what differs, if anything does.
pub fn tell_differences(
    found: &Found,
    before: &[Entry],
    ending: &Ending,
    report: &mut String,
) -> Result<(), AllocError> {
    tell_put(&found.put, &ending.put, report)?;
    tell_files(&found.files, before, &ending.left, report)?;
    tell_missing_files(&found.files, before, &ending.left, report)?;
    tell_evidence(&found.full, &ending.full, report)?;
    tell_status(found.status, ending.status, report)
}
