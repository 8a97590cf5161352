ghost use Rattle.std.specs.Prelude.{◌≤◌};

use crate::answers::{failed_behind, fault};
use sp_device::UpTo;
use sp_replay::{Item, Programme, read_offers};
use sp_text::Kind;
use sp_word::Word;
use std::test::Fail;

const OFFERS: &[u8] = b"p off 1 2\no 1 1 9 1\no 1 1 7 4\no 2 1 7 2\no 2 1 8 3\n";

fn offer(dist: u64, pred: u32) -> Option<Item<28>>
    requires { (dist ≤ 100) × (pred ≤ 100) }
{
    Some(Item::Offer {
        vertex: 1,
        word: Word::pack(dist, pred),
    })
}

// Whether a programme has the items of the file.
fn has_offers(programme: &Programme<28>) -> bool {
    programme.words() == 1
        && programme.actors() == 2
        && programme.item(1, 0) == offer(9, 1)
        && programme.item(1, 1) == offer(7, 4)
        && programme.item(1, 2).is_none()
        && programme.item(2, 0) == offer(7, 2)
        && programme.item(2, 1) == offer(8, 3)
        && programme.item(2, 2).is_none()
}

#[test]
fn offers(rt: HostRuntime) -> Result<(), Fail> {
    let alloc = rt.alloc();
    for most in 1..OFFERS.len() {
        let programme = read_offers::<28, UpTo>(alloc, &mut UpTo::in_pieces(OFFERS, most))?;
        assert!(rt; has_offers(&programme));
        let machine = programme.machine(alloc)?;
        assert!(rt; machine.words() == [Word::unreached()].as_slice());
    }
    Ok(())
}

#[test]
fn failing_reader_of_offers(rt: HostRuntime) {
    let alloc = rt.alloc();
    for end in 0..OFFERS.len() {
        let failed = read_offers::<28, UpTo>(alloc, &mut UpTo::failing(&OFFERS[..end]));
        assert!(rt; failed.err() == Some(failed_behind(&OFFERS[..end])));
    }
    let told = read_offers::<28, UpTo>(alloc, &mut UpTo::failing(b"p off 1 1\no 1 2 5 3\n"));
    assert!(rt; told.err() == Some(fault(2, Kind::OutOfRange(b'V'))));
}
