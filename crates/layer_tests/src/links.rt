ghost use Rattle.std.specs.Prelude.{◌≡◌, ◌<◌, IfOk};
ghost use Rattle.layer_tests.specs.SmallLinks.{three_listed};

use hp_buddy::{Links, ListNumber};
use hp_units::Frame;
use std::alloc::{AllocError, Global};
use std::test::Fail;

/// Returns two lists over four frames; the first holds frames 3, 2 and 0.
fn three_listed(alloc: Global) -> Result<Links, AllocError>
    ensures { IfOk result (λ links. links ≡ three_listed) }
{
    let list = ListNumber(0);
    let mut links = Links::new(alloc, 4, 2)?;
    links.push_back(list, Frame(2));
    links.push_back(list, Frame(0));
    links.push_front(list, Frame(3));
    let copy = links.copy(alloc)?;
    Ok(copy)
}

/// Takes a frame off its list, if it is on one, and puts it back.
fn unlinked_and_back(links: &mut Links, frame: Frame)
    requires { frame < links.old.frame_count }
    ensures { links.new ≡ links.old }
{
    if let Some(list) = links.list_of(frame) {
        let before = links.unlink(frame);
        links.relink_after(list, frame, before);
    }
}

/// Returns whether the first list holds frames 3, 2 and 0 in this order.
fn are_in_order(links: &Links) -> bool
    requires { links.now ≡ three_listed }
{
    let (f0, f2, f3) = (Frame(0), Frame(2), Frame(3));
    links.front(ListNumber(0)) == Some(f3)
        && links.next(f3) == Some(f2)
        && links.last(ListNumber(0)) == Some(f0)
        && links.len(ListNumber(0)) == 3
}

#[test]
fn keeps_order(rt: HostRuntime) -> Result<(), Fail> {
    let mut links = three_listed(rt.alloc())?;
    unlinked_and_back(&mut links, Frame(2));
    let frames = links.list(rt.alloc(), ListNumber(0))?;
    let are_listed = frames.as_slice() == [Frame(3), Frame(2), Frame(0)].as_slice();
    assert!(rt; are_listed && are_in_order(&links));
    Ok(())
}
