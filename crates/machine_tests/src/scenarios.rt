//! Tests that read scenarios of one layout, and split their lines into a script per processor.
mod forms;
mod parts;
mod scripts;
mod shapes;

use hp_scenario::Scenario;
use std::alloc::Global;
use std::test::Fail;

/// A layout of four memory blocks and two processors, as JSON.
const LAYOUT: &str = r#"{"order":2,"pageblocks":1,"blocks":4,"cpus":2,"batch":2,"high":2,
"owners":2,"pages":8,"words":2,"history":1000,"boot":["normal","normal","movable","offline"]}"#;

/// Returns a scenario's text.
fn text_of(alloc: Global, layout: &str, calls: &str) -> Result<String, Fail> {
    Ok(format!(in alloc; "{{\"layout\":{layout},\"calls\":[{calls}]}}")?)
}

/// Reads a scenario of lines for two processors.
fn scenario(alloc: Global, calls: &str) -> Result<Scenario, Fail> {
    let text = text_of(alloc, LAYOUT, calls)?;
    Ok(Scenario::read(alloc, text.as_bytes())?)
}
