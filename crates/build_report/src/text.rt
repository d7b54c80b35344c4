//! The bytes of `report.json`.

ghost use Rattle.std.specs.Prelude.{◌≡◌, [], IfOk, OnOk, false, string_bytes};
ghost use Rattle.serde_json.specs.Data.{put, object, no_members};
ghost use Rattle.serde_json.specs.View.{view, members_view};
ghost use Rattle.serde_json.specs.Written.{has_float, members_have_float};
ghost use Rattle.build_report.specs.Reports.{count, counts, with_reason, first_reasons, skipped_members, first_members, middle_members, report_members, report_bytes};

use crate::summary::BuildReport;
use serde_json::{Map, Value, json};
use std::alloc::{AllocError, Global};

/// The text of `report.json`: one compact object with its keys in byte order, and a line end.
pub fn report_text(alloc: Global, report: &BuildReport) -> Result<Vec<u8>, AllocError>
    ensures { IfOk result (λ bytes. bytes.items ≡ report_bytes report.now) }
{
    let text = report_line(alloc, report)?;
    Ok(text.into_bytes())
}

/// The same as text.
fn report_line(alloc: Global, report: &BuildReport) -> Result<String, AllocError>
    ensures { IfOk result (λ text. string_bytes text ≡ report_bytes report.now) }
{
    let mut members = Map::new(alloc);
    put_first(alloc, report, &mut members)?;
    put_middle(alloc, report, &mut members)?;
    put_last(alloc, report, &mut members)?;
    let mut text = Value::Object(members).to_string(alloc)?;
    text.push('\n')?;
    Ok(text)
}

/// Puts the members up to `missing_refs` into an empty object.
fn put_first(
    alloc: Global,
    report: &BuildReport,
    members: &mut Map<String, Value>,
) -> Result<(), AllocError>
    requires { members.old.entries ≡ [] }
    ensures ok { OnOk result (members_view members.new.entries ≡ first_members report.now) }
    ensures plain { OnOk result (members_have_float (members_view members.new.entries) ≡ false) }
{
    put_counts(alloc, members, "edges", &report.edges)?;
    put_count(alloc, members, "format", report.format)?;
    put_count(alloc, members, "kept_pieces", report.kept_pieces)?;
    put_counts(alloc, members, "length_cm", &report.length_cm)?;
    put_count(alloc, members, "masks", report.masks)?;
    put_count(alloc, members, "missing_refs", report.missing_refs)
}

/// Puts the members up to `sequences` behind those.
fn put_middle(
    alloc: Global,
    report: &BuildReport,
    members: &mut Map<String, Value>,
) -> Result<(), AllocError>
    requires first { members_view members.old.entries ≡ first_members report.now }
    requires plain { members_have_float (members_view members.old.entries) ≡ false }
    ensures ok { OnOk result (members_view members.new.entries ≡ middle_members report.now) }
    ensures plain { OnOk result (members_have_float (members_view members.new.entries) ≡ false) }
{
    put_count(alloc, members, "modes", report.modes as u64)?;
    put_counts(alloc, members, "nodes", &report.nodes)?;
    put_count(alloc, members, "nodes_read", report.nodes_read)?;
    put_count(alloc, members, "pieces", report.pieces)?;
    put_count(alloc, members, "relations_read", report.relations_read)?;
    put_count(alloc, members, "runs", report.runs)?;
    put_count(alloc, members, "sequences", report.sequences)
}

/// Puts the other members behind those.
fn put_last(
    alloc: Global,
    report: &BuildReport,
    members: &mut Map<String, Value>,
) -> Result<(), AllocError>
    requires middle { members_view members.old.entries ≡ middle_members report.now }
    requires plain { members_have_float (members_view members.old.entries) ≡ false }
    ensures ok { OnOk result (members_view members.new.entries ≡ report_members report.now) }
    ensures plain { OnOk result (members_have_float (members_view members.new.entries) ≡ false) }
{
    put_counts(alloc, members, "shortcuts", &report.shortcuts)?;
    let skipped = skipped(alloc, &report.skipped)?;
    put_member(alloc, members, "skipped", skipped)?;
    put_counts(alloc, members, "tiles", &report.tiles)?;
    put_count(alloc, members, "transitions", report.transitions)?;
    put_count(alloc, members, "ways", report.ways)?;
    put_count(alloc, members, "ways_read", report.ways_read)
}

/// The object of the reasons that came.
fn skipped(alloc: Global, counts: &[u64; 10]) -> Result<Value, AllocError>
    ensures ok { IfOk result (λ value. view value ≡ object (skipped_members counts.now)) }
    ensures plain { IfOk result (λ value. has_float (view value) ≡ false) }
{
    let mut members = Map::new(alloc);
    put_first_reasons(alloc, counts, &mut members)?;
    put_last_reasons(alloc, counts, &mut members)?;
    Ok(Value::Object(members))
}

/// Puts the first five reasons into an empty object.
fn put_first_reasons(
    alloc: Global,
    counts: &[u64; 10],
    members: &mut Map<String, Value>,
) -> Result<(), AllocError>
    requires { members_view members.old.entries ≡ no_members }
    ensures ok { OnOk result (members_view members.new.entries ≡ first_reasons counts.now) }
    ensures plain { OnOk result (members_have_float (members_view members.new.entries) ≡ false) }
{
    put_reason(alloc, members, "conditional", counts[0])?;
    put_reason(alloc, members, "unknown_kind", counts[1])?;
    put_reason(alloc, members, "no_modes", counts[2])?;
    put_reason(alloc, members, "wrong_from", counts[3])?;
    put_reason(alloc, members, "wrong_to", counts[4])
}

/// Puts the other reasons behind those.
fn put_last_reasons(
    alloc: Global,
    counts: &[u64; 10],
    members: &mut Map<String, Value>,
) -> Result<(), AllocError>
    requires first { members_view members.old.entries ≡ first_reasons counts.now }
    requires plain { members_have_float (members_view members.old.entries) ≡ false }
    ensures ok { OnOk result (members_view members.new.entries ≡ skipped_members counts.now) }
    ensures plain { OnOk result (members_have_float (members_view members.new.entries) ≡ false) }
{
    put_reason(alloc, members, "bad_via", counts[5])?;
    put_reason(alloc, members, "no_such_way", counts[6])?;
    put_reason(alloc, members, "no_match", counts[7])?;
    put_reason(alloc, members, "too_long", counts[8])?;
    put_reason(alloc, members, "too_many_matches", counts[9])
}

/// Puts a member for a reason that came.
#[tactic(auto, unfolding(crate::specs::Reports::with_reason))]
fn put_reason(
    alloc: Global,
    members: &mut Map<String, Value>,
    name: &str,
    count: u64,
) -> Result<(), AllocError>
    ensures ok { OnOk result (members_view members.new.entries ≡ with_reason name.now count (members_view members.old.entries)) }
    ensures plain { OnOk result (members_have_float (members_view members.old.entries) ≡ false → members_have_float (members_view members.new.entries) ≡ false) }
{
    if count == 0 {
        Ok(())
    } else {
        put_count(alloc, members, name, count)
    }
}

fn put_counts(
    alloc: Global,
    members: &mut Map<String, Value>,
    name: &str,
    numbers: &[u64; 3],
) -> Result<(), AllocError>
    ensures ok { OnOk result (members_view members.new.entries ≡ put name.now (counts numbers.now) (members_view members.old.entries)) }
    ensures plain { OnOk result (members_have_float (members_view members.old.entries) ≡ false → members_have_float (members_view members.new.entries) ≡ false) }
{
    let value = counts_value(alloc, numbers)?;
    put_member(alloc, members, name, value)
}

/// A list of three numbers.
fn counts_value(alloc: Global, numbers: &[u64; 3]) -> Result<Value, AllocError>
    ensures ok { IfOk result (λ value. view value ≡ counts numbers.now) }
    ensures plain { IfOk result (λ value. has_float (view value) ≡ false) }
{
    json!(in alloc; [numbers[0], numbers[1], numbers[2]])
}

fn put_count(
    alloc: Global,
    members: &mut Map<String, Value>,
    name: &str,
    number: u64,
) -> Result<(), AllocError>
    ensures ok { OnOk result (members_view members.new.entries ≡ put name.now (count number) (members_view members.old.entries)) }
    ensures plain { OnOk result (members_have_float (members_view members.old.entries) ≡ false → members_have_float (members_view members.new.entries) ≡ false) }
{
    put_member(alloc, members, name, Value::from(number))
}

/// Puts a member that has no float.
#[tactic(auto, using(crate::proofs::Plain::put_plain))]
fn put_member(
    alloc: Global,
    members: &mut Map<String, Value>,
    name: &str,
    value: Value,
) -> Result<(), AllocError>
    requires { has_float (view value) ≡ false }
    ensures ok { OnOk result (members_view members.new.entries ≡ put name.now (view value) (members_view members.old.entries)) }
    ensures plain { OnOk result (members_have_float (members_view members.old.entries) ≡ false → members_have_float (members_view members.new.entries) ≡ false) }
{
    serde_json::put(members, alloc, name, value)
}
