//! The log of a call: what tool it was, and a result for each note.

ghost use Rattle.std.specs.Prelude.{◌≡◌, IfOk, Some, map, string_bytes};
ghost use Rattle.serde_json.specs.Read.{read};
ghost use Rattle.serde_json.specs.View.{view};
ghost use Rattle.sarif.specs.Logs.{location_of, log_of, log_with, named, region_of};
ghost use Rattle.sarif.specs.Logs.{result_of, results_of, rule_of};

use crate::message::message_text;
use crate::uri::uri_of;
use notes::{InFile, Note};
use serde_json::{Value, json};
use std::alloc::{AllocError, Global};

/// Where a note stands in its file: the line, and the column of its word, if that is known.
fn region_of(alloc: Global, note: &Note) -> Result<Value, AllocError>
    ensures { IfOk result (λ value. view value ≡ region_of note.now) }
{
    let line = note.line;
    match note.column {
        Some(column) => json!(in alloc; {"startColumn": column, "startLine": line}),
        None => json!(in alloc; {"startLine": line}),
    }
}

/// The place of a note in the file with a name.
fn location_of(alloc: Global, name: &str, note: &Note) -> Result<Value, AllocError>
    ensures { IfOk result (λ value. view value ≡ location_of name.now note.now) }
{
    let uri = uri_of(alloc, name)?;
    let uri = uri.as_str();
    let region = region_of(alloc, note)?;
    json!(in alloc; {
        "physicalLocation": {"artifactLocation": {"uri": uri}, "region": &region}
    })
}

/// What a note is about: the page that explains it, or else its level.
fn rule_of(note: &Note) -> &'static str
    ensures { result.now ≡ rule_of note.now }
{
    match note.page {
        Some(page) => page,
        None => note.level.word(),
    }
}

/// The result that tells a note.
fn result_of(alloc: Global, name: &str, note: &Note) -> Result<Value, AllocError>
    ensures { IfOk result (λ value. view value ≡ result_of name.now note.now) }
{
    let location = location_of(alloc, name, note)?;
    let message = message_text(alloc, note)?;
    let message = message.as_str();
    let (level, rule) = (note.level.word(), rule_of(note));
    json!(in alloc; {
        "level": level,
        "locations": [&location],
        "message": {"text": message},
        "ruleId": rule
    })
}

/// The results of some notes.
fn results_of(alloc: Global, notes: &[InFile<'_>]) -> Result<Vec<Value>, AllocError>
    ensures { IfOk result
        (λ results. map view results.items ≡ results_of (map named notes.now)) }
{
    let mut results = Vec::new(alloc);
    for named in notes {
        results.push(result_of(alloc, named.name, named.note)?)?;
    }
    Ok(results)
}

/// The log with some results.
fn log_with(alloc: Global, version: &str, results: &Value) -> Result<Value, AllocError>
    ensures { IfOk result (λ value. view value ≡ log_with version.now (view results.now)) }
{
    json!(in alloc; {
        "$schema": "https://json.schemastore.org/sarif-2.1.0.json",
        "runs": [{
            "results": results,
            "tool": {"driver": {"name": "pmseq", "version": version}}
        }],
        "version": "2.1.0"
    })
}

/// A log of SARIF 2.1.0 with a result for each note, in their order, as one line of JSON. The
/// version is that of the tool. Names of files are told as URI references. AllocError is answered
/// where a growth was refused.
pub fn sarif_log(alloc: Global, version: &str, notes: &[InFile<'_>]) -> Result<String, AllocError>
    ensures { IfOk result (λ text. read (string_bytes text)
        ≡ Some (log_of version.now (map named notes.now))) }
{
    let results = Value::from(results_of(alloc, notes)?);
    let log = log_with(alloc, version, &results)?;
    log.to_string(alloc)
}
