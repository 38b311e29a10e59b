//! The examples run.
ghost use Rattle.flow_plans.specs.Settings.{IsDeskTime};

use crate::{plan_again, refusal_of, would_accept};
use flow_plans::{PlanFault, PlanStore, Setup, is_desk_time};
use flow_slots::{Shape, SlotList};
use fpl_message::{Filing, Message, Reading, Refusal};
use fpl_text::{Minute, read_moment};
use std::process::Abort;
use std::test::Fail;

const FIRST: &[u8] = b"(FPL-AAA1-IS-A320/M-SDFG/LB1-LIML0800-N0450F350 DCT-EDDF0150-0)";

fn moment(rt: &impl Abort, digits: &[u8]) -> Minute
    ensures { IsDeskTime result }
{
    let moment = read_moment(digits).expect(rt, "a moment");
    assert!(rt; is_desk_time(moment));
    moment
}

/// A setup from 2024-09-01 05:00 on, with a taxi time of 10 minutes.
fn setup(rt: &impl Abort) -> Setup {
    Setup::new(moment(rt, b"2409010500"), 10, 10, 20).expect(rt, "a setup")
}

#[test]
fn a_text_is_refused_for_its_form(rt: HostRuntime) {
    let alloc = rt.alloc();
    assert!(&rt; matches!(refusal_of(alloc, FIRST), Ok(None)));
    assert!(&rt; matches!(refusal_of(alloc, b"TIME 2409010500"), Ok(None)));
    assert!(&rt; matches!(refusal_of(alloc, b" "), Ok(Some(Refusal::Empty))));
}

#[test]
fn a_flight_plan_is_tried(rt: HostRuntime) -> Result<(), Fail> {
    let alloc = rt.alloc();
    let mut store = PlanStore::new(alloc, &setup(&rt));
    let filing = Filing::new(alloc, FIRST).map_err(|_| "no filing")?;
    let Reading::Msg(Message::Fpl(message)) = filing.reading() else {
        return Err(Fail::from("no flight plan"));
    };
    let now = moment(&rt, b"2409010500");
    assert!(&rt; matches!(would_accept(&mut store, message, now), Ok(1)));
    assert!(&rt; matches!(would_accept(&mut store, message, now), Ok(1)));
    assert_eq!(&rt; store.count(), 0);
    assert!(&rt; matches!(store.file(message, now), Ok(1)));
    assert!(&rt;
        matches!(
            would_accept(&mut store, message, now),
            Err(PlanFault::AlreadyHeld)
        )
    );
    assert_eq!(&rt; store.count(), 1);
    Ok(())
}

#[test]
fn a_flight_gets_a_slot_at_another_entry(rt: HostRuntime) -> Result<(), Fail> {
    let ten = moment(&rt, b"2409011000");
    let half_past = moment(&rt, b"2409011030");
    let noon = moment(&rt, b"2409011200");
    let shape = Shape::new(ten, noon, 20, &[]).expect(&rt, "a shape");
    let mut list = SlotList::new(rt.alloc(), shape, 10)?;
    assert!(&rt; list.slot_of(1).is_none() && list.max_plans() == 10 && list.shape().contains(ten));
    list.insert(1, ten);
    assert!(&rt; list.slot_of(1) == Some(0) && list.shape().contains(half_past));
    assert_eq!(&rt; plan_again(&mut list, 1, half_past), Some(10));
    Ok(())
}
