//! Rows of fields, as records of CSV and lines of TSV.

ghost use Rattle.std.specs.Prelude.{◌≡◌, ◌++◌, map, IfOk, OnOk};
ghost use Rattle.jpath_texts.specs.Rows.{row_line, by_commas, by_tabs, behind_tabs, guarded, guarded_field};

use csv::{Terminator, WriterBuilder};
use std::alloc::{AllocError, Global};
use std::mem;

/// How the fields of a row of a table are separated: CSV or TSV.
#[derive(Clone, Copy, Debug, Drop)]
pub enum Separated {
    /// A format of a table's rows: CSV. The fields are separated by commas. A field with a comma, a double quote, a
    /// line feed or a carriage return is written between double quotes, with each double quote in it doubled.
    ByCommas,
    /// A format of a table's rows: TSV. The fields are separated by tabs. In a field, a tab is written `\t`, a line end
    /// `\n`, a carriage return `\r`, and a backslash `\\`.
    ByTabs,
}

/// Appends the header of a table to `out`: a row of these column names, as CSV or TSV. The only error is out of memory.
/// After the error, `out` may end with a part of the row; or it may be empty, so that what it had before the call is
/// lost, too.
pub fn add_header(
    alloc: Global,
    names: &[&str],
    separated: Separated,
    out: &mut Vec<u8>,
) -> Result<(), AllocError>
    ensures { OnOk result (out.new.items ≡ out.old.items ++ row_line separated (map (λ n. n.now) names.now)) }
{
    let mut fields = Vec::new(alloc);
    for name in names {
        fields.push(Vec::from_slice(alloc, name.as_bytes())?)?;
    }
    add_row(alloc, fields.as_slice(), separated, out)
}

/// Appends a row of CSV or TSV with these fields to `out`. The only error is that memory ran out; `out` may then end
/// with a part of the row, or have lost all its content.
pub fn add_row(
    alloc: Global,
    fields: &[Vec<u8>],
    separated: Separated,
    out: &mut Vec<u8>,
) -> Result<(), AllocError>
    ensures { OnOk result (out.new.items ≡ out.old.items ++ row_line separated (map (λ f. f.items) fields.now)) }
{
    match separated {
        Separated::ByCommas => add_csv_row(alloc, fields, out),
        Separated::ByTabs => add_tsv_row(fields, out),
    }
}

// Writes a row of CSV, by the kit's writer of CSV, whose one refusal here is want of memory.
fn add_csv_row(alloc: Global, fields: &[Vec<u8>], out: &mut Vec<u8>) -> Result<(), AllocError>
    ensures { OnOk result (out.new.items ≡ out.old.items ++ by_commas (map (λ f. f.items) fields.now)) }
{
    let lent = fields_as_slices(alloc, fields)?;
    let mut writer = WriterBuilder::new()
        .terminator(Terminator::Any(b'\n'))
        .from_writer(mem::replace(out, Vec::new(alloc)));
    if writer.write_fields(lent.as_slice()).is_err() {
        return Err(AllocError);
    }
    match writer.into_inner() {
        Ok(written) => *out = written,
        Err(_) => return Err(AllocError),
    }
    Ok(())
}

// The fields of a row, each as a slice of its bytes.
fn fields_as_slices<'f>(alloc: Global, fields: &'f [Vec<u8>]) -> Result<Vec<&'f [u8]>, AllocError>
    ensures { IfOk result (λ lent. map (λ f. f.now) lent.items ≡ map (λ f. f.items) fields.now) }
{
    let mut lent = Vec::with_capacity(alloc, fields.len())?;
    for field in fields {
        lent.push(field.as_slice())?;
    }
    Ok(lent)
}

// Writes a row of TSV: its fields with tabs between them, and a line end.
fn add_tsv_row(fields: &[Vec<u8>], out: &mut Vec<u8>) -> Result<(), AllocError>
    ensures { OnOk result (out.new.items ≡ out.old.items ++ by_tabs (map (λ f. f.items) fields.now)) }
{
    if let Some((first, rest)) = fields.split_first() {
        add_tsv_field(first.as_slice(), out)?;
        add_fields_behind_tabs(rest, out)?;
    }
    Ok(out.push(b'\n')?)
}

// Writes a tab before each field, and the field.
fn add_fields_behind_tabs(fields: &[Vec<u8>], out: &mut Vec<u8>) -> Result<(), AllocError>
    ensures { OnOk result (out.new.items ≡ out.old.items ++ behind_tabs (map (λ f. f.items) fields.now)) }
{
    for field in fields {
        out.push(b'\t')?;
        add_tsv_field(field.as_slice(), out)?;
    }
    Ok(())
}

// Writes a field of TSV; tabs, line ends, carriage returns and backslashes in it are escaped by a backslash.
fn add_tsv_field(field: &[u8], out: &mut Vec<u8>) -> Result<(), AllocError>
    ensures { OnOk result (out.new.items ≡ out.old.items ++ guarded_field field.now) }
{
    for byte in field {
        add_escaped_byte(*byte, out)?;
    }
    Ok(())
}

// Writes a byte of a TSV field; a tab, line end, carriage return or backslash is escaped by a backslash.
fn add_escaped_byte(byte: u8, out: &mut Vec<u8>) -> Result<(), AllocError>
    ensures { OnOk result (out.new.items ≡ out.old.items ++ guarded byte) }
{
    match byte {
        b'\t' => out.extend_from_slice(b"\\t"),
        b'\n' => out.extend_from_slice(b"\\n"),
        b'\r' => out.extend_from_slice(b"\\r"),
        b'\\' => out.extend_from_slice(b"\\\\"),
        other => Ok(out.push(other)?),
    }
}
