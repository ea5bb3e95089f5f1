//! A table of 16 walls is full.
use crate::refusals::refused;
use editions::nehrp2003::Nehrp2003;
use jobs::job::Job;
use std::test::Fail;

// Apart from the levels' test, for the reason that stands there.
#[test]
fn seventeen_walls(rt: HostRuntime) -> Result<(), Fail> {
    let mut job = Job::new(Nehrp2003);
    for position in 0..16u32 {
        job.enter_wall(position, 1)?;
    }
    assert!(rt; refused(job.enter_wall(16, 1), 10, 16));
    job.enter_wall(15, 2)?;
    job.drop_wall(0)?;
    job.enter_wall(16, 1)?;
    assert!(rt; refused(job.enter_wall(0, 1), 10, 0));
    Ok(())
}
