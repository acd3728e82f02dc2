use hp_tape::{Delta, FrameChange, ListId, RowChange, Tape};
use hp_units::{
    Block, Claim, Class, Cpu, Frame, Order, Owner, Page, Pool, Row, Serial, State, Wish, Zone,
};
use std::alloc::{AllocError, Global};
use std::test::Fail;

/// Returns whether a tape and its copy have one delta, and `latest` takes it off the tape.
fn is_copied_and_back(alloc: Global, tape: &mut Tape) -> Result<bool, AllocError> {
    let copy = tape.copy(alloc)?;
    tape.trim();
    Ok(
        copy.len() == 1
            && matches!(copy.as_slice(), [Delta::Filled { now: 7, .. }])
            && matches!(tape.latest(), Some(Delta::Filled { .. }))
            && tape.latest().is_none(),
    )
}

#[test]
fn notes_copies_and_takes_back(rt: HostRuntime) -> Result<(), Fail> {
    let mut tape = Tape::with_room(rt.alloc(), 1)?;
    let filled = Delta::Filled {
        index: 0,
        frame: Frame(1),
        now: 7,
    };
    tape.note(filled.copy(rt.alloc())?);
    assert!(rt; is_copied_and_back(rt.alloc(), &mut tape)?);
    Ok(())
}

const HELD: Row = Row {
    state: State::Going,
    zone: Some(Zone::Movable),
    claim: Some(Claim {
        op: Serial((7 << 40) + 9),
        wish: Wish::Off,
    }),
};

#[test]
fn lists_have_short_names(rt: HostRuntime) {
    let area = ListId::of_area(Class::Nm, Order(10));
    let single = ListId::of_cpu(Pool::Mm, Cpu(63));
    assert!(rt;
        matches!(
            area,
            ListId::Area {
                class: Class::Nm,
                order: 10
            }
        )
    );
    assert!(rt;
        matches!(
            single,
            ListId::Cpu {
                pool: Pool::Mm,
                cpu: 63
            }
        )
    );
}

#[test]
fn changes_show_what_was_and_came(rt: HostRuntime) {
    let online = Row::online(Zone::Normal);
    let change = RowChange::new(Block(255), &HELD, &online);
    let moved = FrameChange::Moved {
        was: Frame(1),
        now: Frame(2),
    };
    assert!(rt;
        change.block() == Block(255) && change.before() == HELD && change.after() == online
    );
    assert!(rt; moved.before() == Some(Frame(1)));
    let page = Delta::of_page(Owner(63), Page(65535), moved);
    assert!(rt;
        matches!(
            page,
            Delta::Map {
                owner: 63,
                page: 65535,
                ..
            }
        )
    );
}
