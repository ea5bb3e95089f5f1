//! A table of 64 levels is full.
use editions::nehrp2003::Nehrp2003;
use faults::fault::{Cause, Fault, Layer};
use jobs::job::Job;
use std::test::Fail;

// Apart from the walls' test: a job's calls for walls are others, and closures of them would each borrow the job.
#[test]
fn sixty_five_levels(rt: HostRuntime) -> Result<(), Fail> {
    let mut job = Job::new(Nehrp2003);
    for height in 1..=64u32 {
        job.enter_level(height, 1, 1)?;
    }
    let full = Fault::new(Layer::Tables, Cause::LevelsFull, 65);
    assert!(rt; job.enter_level(65, 1, 1) == Err(full));
    job.enter_level(64, 2, 2)?;
    job.drop_level(1)?;
    job.enter_level(65, 1, 1)?;
    let full = Fault::new(Layer::Tables, Cause::LevelsFull, 1);
    assert!(rt; job.enter_level(1, 1, 1) == Err(full) && job.level_count() == 64);
    Ok(())
}
