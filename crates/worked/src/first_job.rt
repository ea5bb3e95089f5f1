//! The first job: three levels under NEHRP 2003, and what becomes of it under other periods.
use editions::nehrp2003::Nehrp2003;
use faults::fault::{Cause, Fault, Layer};
use jobs::job::Job;
use std::test::Fail;

/// The first job's settings 0 to 12.
const SETTINGS: [u32; 13] = [
    800, 100, 500, 400, 140, 20, 0, 1_000, 600, 500, 4_000, 550, 100,
];

/// Its levels: height, weight and gravity load.
const LEVELS: [[u32; 3]; 3] = [
    [4_000, 5_000, 6_000],
    [8_000, 5_000, 6_000],
    [12_000, 4_000, 6_000],
];

/// The first job with the settings that follow set anew.
fn job_with(changes: &[(u32, u32)]) -> Result<Job<Nehrp2003>, Fault> {
    let mut job = Job::new(Nehrp2003);
    for (number, value) in SETTINGS.iter().enumerate() {
        job.set(number as u32, *value)?;
    }
    for (number, value) in changes {
        job.set(*number, *value)?;
    }
    for [height, weight, gravity] in LEVELS {
        job.enter_level(height, weight, gravity)?;
    }
    Ok(job)
}

/// Periods T and TA, CU and S1, with the base shear and the exponent number that they give.
const PERIODS: [[u32; 6]; 6] = [
    [500, 400, 140, 500, 1_750, 0],
    [1_000, 600, 140, 500, 1_250, 348],
    [4_000, 4_000, 100, 500, 263, 2_048],
    [5_000, 5_000, 100, 500, 168, 2_048],
    [6_000, 6_000, 100, 500, 140, 2_048],
    [5_000, 5_000, 100, 600, 525, 2_048],
];

#[test]
fn periods(rt: HostRuntime) -> Result<(), Fail> {
    for [t, ta, cu, s1, shear, exponent] in PERIODS {
        let job = job_with(&[(2, t), (3, ta), (4, cu), (9, s1)])?;
        let answers = job.answers()?;
        assert!(rt; answers.shear == shear && answers.exponent == exponent);
    }
    Ok(())
}

#[test]
fn refusals_in_order(rt: HostRuntime) -> Result<(), Fail> {
    let mut job = Job::new(Nehrp2003);
    assert!(rt; job.answers() == Err(Fault::new(Layer::Sheet, Cause::NoLevels, 0)));
    job.enter_level(500_000, 60_000, 1)?;
    assert!(rt; job.answers() == Err(Fault::new(Layer::Sheet, Cause::SettingAbsent, 0)));
    job.set(0, 100)?;
    job.set(2, 1)?;
    assert!(rt; job.answers() == Err(Fault::new(Layer::Sheet, Cause::SettingAbsent, 1)));
    Ok(())
}
