//! Every entry at the first figure that it refuses and at the last that it takes.
use crate::refusals::refused;
use editions::nehrp2003::Nehrp2003;
use faults::fault::Fault;
use jobs::job::Job;
use records::analysis::Analysis;
use records::wall::Wall;
use std::test::Fail;

/// The least and the greatest figure of each setting, by number.
const SETTINGS: [[u32; 2]; 16] = [
    [100, 1_000],
    [100, 150],
    [1, 20_000],
    [1, 20_000],
    [100, 200],
    [1, 50],
    [0, 1],
    [1, 4_000],
    [1, 4_000],
    [0, 4_000],
    [1_000, 20_000],
    [100, 1_000],
    [1, 100],
    [1, 2_000],
    [1, 2_000],
    [0, 1_000],
];

#[test]
fn settings(rt: HostRuntime) -> Result<(), Fail> {
    let mut job = Job::new(Nehrp2003);
    for (at, [least, greatest]) in SETTINGS.iter().enumerate() {
        let number = at as u32;
        assert!(rt; job.setting(number).is_none());
        job.set(number, *greatest)?;
        job.set(number, *least)?;
        assert!(rt; refused(job.set(number, greatest.saturating_add(1)), 7, number));
        assert!(rt; *least == 0 || refused(job.set(number, least.saturating_sub(1)), 7, number));
        assert!(rt; job.setting(number) == Some(*least));
    }
    assert!(rt; refused(job.set(16, 100), 6, 16) && refused(job.set(u32::MAX, 100), 6, u32::MAX));
    Ok(())
}

/// Whether an entry is taken, or refused with the cause and the place that stand beside it.
fn meets(res: Result<(), Fault>, refusal: Option<(u32, u32)>) -> bool {
    match refusal {
        Some((cause, place)) => refused(res, cause, place),
        None => res.is_ok(),
    }
}

/// Levels, each with the cause and the place of its refusal, or none where it is taken.
const LEVELS: [([u32; 3], Option<(u32, u32)>); 10] = [
    ([1, 1, 1], None),
    ([500_000, 60_000, 200_000], None),
    ([0, 1, 1], Some((1, 0))),
    ([500_001, 1, 1], Some((1, 500_001))),
    ([2, 0, 1], Some((2, 0))),
    ([2, 60_001, 1], Some((2, 60_001))),
    ([2, 1, 0], Some((3, 0))),
    ([2, 1, 200_001], Some((3, 200_001))),
    ([0, 0, 0], Some((1, 0))),
    ([2, 0, 0], Some((2, 0))),
];

#[test]
fn levels(rt: HostRuntime) -> Result<(), Fail> {
    let mut job = Job::new(Nehrp2003);
    for ([height, weight, gravity], refusal) in LEVELS {
        let res = job.enter_level(height, weight, gravity);
        assert!(rt; meets(res, refusal));
    }
    assert!(rt; job.level_count() == 2 && job.level(2).is_none());
    assert!(rt; refused(job.drop_level(2), 5, 2));
    job.drop_level(1)?;
    assert!(rt; refused(job.drop_level(1), 5, 1));
    Ok(())
}

/// Walls, each with the cause and the place of its refusal, or none where it is taken.
const WALLS: [([u32; 2], Option<(u32, u32)>); 6] = [
    ([0, 1], None),
    ([500_000, 60_000], None),
    ([500_001, 1], Some((8, 500_001))),
    ([1, 0], Some((9, 0))),
    ([1, 60_001], Some((9, 60_001))),
    ([500_001, 0], Some((8, 500_001))),
];

#[test]
fn walls(rt: HostRuntime) -> Result<(), Fail> {
    let mut job = Job::new(Nehrp2003);
    for ([position, rigidity], refusal) in WALLS {
        let res = job.enter_wall(position, rigidity);
        assert!(rt; meets(res, refusal));
    }
    job.enter_wall(0, 7)?;
    assert!(rt;
        job.wall(0)
            == Some(Wall {
                position: 0,
                rigidity: 7,
            })
            && job.wall(1).is_none()
    );
    assert!(rt; refused(job.drop_wall(1), 11, 1));
    job.drop_wall(0)?;
    assert!(rt; refused(job.drop_wall(0), 11, 0));
    Ok(())
}

/// Analyses, each with the cause and the place of its refusal.
const ANALYSES: [([u32; 4], (u32, u32)); 5] = [
    ([1_000_001, 0, 0, 0], (12, 1_000_001)),
    ([0, 4_194_304, 0, 0], (13, 1)),
    ([0, 0, 4_194_304, 0], (13, 2)),
    ([0, 0, 0, 4_194_304], (13, 3)),
    (
        [1_000_001, 4_194_304, 4_194_304, 4_194_304],
        (12, 1_000_001),
    ),
];

const LARGEST: Analysis = Analysis {
    force: 1_000_000,
    centre: 4_194_303,
    left: 4_194_303,
    right: 4_194_303,
};

#[test]
fn analyses(rt: HostRuntime) -> Result<(), Fail> {
    LARGEST.admit()?;
    for ([force, centre, left, right], (cause, place)) in ANALYSES {
        let analysis = Analysis {
            force,
            centre,
            left,
            right,
        };
        assert!(rt; refused(analysis.admit(), cause, place));
    }
    Ok(())
}
