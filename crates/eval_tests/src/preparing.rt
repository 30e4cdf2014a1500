//! A copy of what a walker waits for.

use crate::texts::first_outputs;
use crate::told::{OWN_TEXT, holding};
use need_eval::Walker;
use object_name::{TryCopy, name_of};
use std::test::Fail;

#[test]
fn a_prepared_job_is_copied(rt: HostRuntime) -> Result<(), Fail> {
    let Ok(name) = name_of(OWN_TEXT) else {
        return Ok(());
    };
    let mut keeper = holding(rt.alloc(), name)?;
    let refs = first_outputs(rt.alloc(), &[name])?;
    let mut walker = Walker::new(rt.alloc(), refs, 3, 0)?;
    if walker.advance(rt.alloc(), &mut keeper).is_err() {
        return Ok(());
    }
    assert!(rt; walker.blocked().is_some());
    let Some(prepared) = walker.blocked() else {
        return Ok(());
    };
    let copy = prepared.copy(rt.alloc())?;
    assert_eq!(rt; copy.text.as_slice(), OWN_TEXT);
    assert_eq!(rt; copy.job.outputs.len(), 1);
    Ok(())
}
