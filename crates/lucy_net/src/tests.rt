//! A mailbox on one thread.
use crate::{Chaos, Mail};
use std::alloc::AllocError;

// What is posted arrives once, where it was posted.
#[test]
fn a_posted_item_arrives_once(rt: HostRuntime) -> Result<(), AllocError> {
    let mail = Mail::new(rt.alloc(), 2)?;
    let mut chaos = Chaos::new(1);
    may_be_shared(&mail);
    mail.post(&rt, 1, 7);
    let elsewhere: Option<u64> = mail.take(&rt, 0, &mut chaos);
    let first = mail.take(&rt, 1, &mut chaos);
    let second = mail.take(&rt, 1, &mut chaos);
    assert_eq!(rt; [elsewhere, first, second], [None, Some(7), None]);
    Ok(())
}

fn may_be_shared<T: Sync>(_value: &T) {}
