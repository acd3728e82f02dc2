//! What bytes written to a control file ask for.
use hp_requests::{BlockFile, ControlFault, File, Request, file_at, parse_write};
use hp_units::{Auto, Block, Event, Item, Plan, Wish, Zone};
use std::alloc::Global;
use std::test::Fail;

/// Returns whether a path is a block's file `online`.
fn is_online_of(path: &str, block: u32) -> bool {
    match file_at(path) {
        Some(
            File::OfBlock {
                block: Block(of),
                file: BlockFile::Online,
            },
        ) => of == block,
        _ => false,
    }
}

#[test]
fn paths_are_files(rt: HostRuntime) {
    assert!(rt; is_online_of("memory3/online", 3));
    assert!(rt; !is_online_of("memory03/online", 3));
}

/// Returns whether bytes written to a path ask for an event.
fn asks(alloc: Global, path: &str, bytes: &[u8], event: &Event) -> bool {
    match parse_write(alloc, path, bytes) {
        Ok(Request::Event(asked)) => asked.same(event),
        Ok(Request::Plan(_plan)) => false,
        Err(_fault) => false,
    }
}

/// Returns whether words that are written to control files ask for these events: block 3 goes
/// online, a probe, and a setting for added blocks.
fn words_ask(alloc: Global, online: &Event, probe: &Event, auto: &Event) -> bool {
    asks(alloc, "memory3/state", b"online\n", online)
        && asks(alloc, "memory3/online", b"1", online)
        && asks(alloc, "probe", b"0xffffFFFFffffFFc0\n", probe)
        && asks(alloc, "auto_online_blocks", b"online_movable", auto)
}

#[test]
fn words_become_events(rt: HostRuntime) {
    let online = Event::Online {
        block: Block(3),
        zone: Zone::Normal,
    };
    let probe = Event::Probe {
        address: 0xffff_ffff_ffff_ffc0,
    };
    let auto = Event::SetAuto {
        auto: Auto::OnlineMovable,
    };
    assert!(rt; words_ask(rt.alloc(), &online, &probe, &auto));
}

/// Returns whether bytes written to a path ask for a plan.
fn asks_for_plan(alloc: Global, path: &str, bytes: &[u8], plan: &Plan) -> bool {
    match parse_write(alloc, path, bytes) {
        Ok(Request::Plan(asked)) => asked.same(plan),
        Ok(Request::Event(_event)) => false,
        Err(_fault) => false,
    }
}

#[test]
fn offline_becomes_a_plan(rt: HostRuntime) -> Result<(), Fail> {
    let item = Item {
        block: Block(4294967295),
        wish: Wish::Off,
    };
    let plan = Plan::new(rt.alloc(), vec![in rt.alloc(); item]?)?;
    assert!(rt; asks_for_plan(rt.alloc(), "memory4294967295/state", b"offline", &plan));
    Ok(())
}

#[test]
fn faults_have_names(rt: HostRuntime) -> Result<(), Fail> {
    let fault = ControlFault::WriteOnly;
    let text = format!(in rt.alloc(); "echo: fault {fault}")?;
    assert!(rt; text.as_str() == "echo: fault WriteOnly");
    Ok(())
}
