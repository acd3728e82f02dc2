//! The lines of each processor.
use super::scenario;
use hp_scenario::{Line, Script, Work};
use hp_units::{Cpu, Event};
use std::test::Fail;

/// Returns whether a line drains this processor's lists.
fn is_drain_of(line: &Line, drained: u32) -> bool {
    match &line.work {
        Work::Event(Event::Drain { cpu: Cpu(cpu) }) => *cpu == drained,
        _ => false,
    }
}

/// Returns whether the first script has one line, and the second drains both processors.
fn are_one_line_and_drains(scripts: &[Script]) -> bool {
    match scripts {
        [first, second] => {
            first.as_slice().len() == 1
                && matches!(second.as_slice(), [one, other] if is_drain_of(one, 0) && is_drain_of(other, 1))
        }
        _ => false,
    }
}

#[test]
fn lines_go_to_their_processors(rt: HostRuntime) -> Result<(), Fail> {
    let calls = r#""1 drain 0","0 kalloc 1","1 drain 1""#;
    let scripts = scenario(rt.alloc(), calls)?.scripts(rt.alloc())?;
    assert!(rt; are_one_line_and_drains(scripts.as_slice()));
    Ok(())
}
