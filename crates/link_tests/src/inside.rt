//! Links to a worker in the same place.

use crate::frames::{is_x, job};
use sandbox_run::Cards;
use std::test::Fail;
use worker_link::{InsideLink, Link, only};

#[test]
fn a_job_is_run_inside(rt: HostRuntime) -> Result<(), Fail> {
    let alloc = rt.alloc();
    let mut link = InsideLink::new(alloc, Cards);
    link.reopen(alloc)?;
    link.send(alloc, 0, &job(alloc)?)?;
    let (lease, outcome) = link.receive(alloc)?;
    assert_eq!(rt; lease, 0);
    assert!(rt; is_x(&outcome));
    link.finish(alloc)?;
    Ok(())
}

#[test]
fn a_sent_job_is_found_under_its_lease(rt: HostRuntime) -> Result<(), Fail> {
    let alloc = rt.alloc();
    let mut link = InsideLink::new(alloc, Cards);
    link.reopen(alloc)?;
    link.send(alloc, 7, &job(alloc)?)?;
    let sent = only(link.sent(), 7).ok_or("the job was sent")?;
    assert_eq!(rt; sent.lease(), 7);
    assert_eq!(rt; sent.job().outputs.len(), 1);
    assert!(rt; only(link.sent(), 0).is_none());
    Ok(())
}
