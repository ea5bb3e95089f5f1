//! Shares by stakes above what their kind names as its greatest, and by such whose products 64 bits do not hold.
ghost use Rattle.std.specs.Prelude.{◌≡◌};
ghost use Rattle.std.proofs.Common.{rules};

use sharing::bearer::Bearer;
use sharing::parts::share;
use std::test::Fail;

/// A plot, which bears by its area.
struct Plot {
    area: u64,
}

impl Bearer for Plot {
    const GREATEST: u64 = 10_000;

    ghost GREATEST = { 10000 };

    ghost stake = { λ p. p.area };

    ghost bounded = { Prim.search rules };

    fn stake(&self) -> u64 {
        self.area
    }
}

/// Together 64 times the greatest stake that any kind may name.
const LARGE: [Plot; 3] = [
    Plot {
        area: 100_000_000_000_000,
    },
    Plot {
        area: 57_698_037_759_999,
    },
    Plot {
        area: 100_000_000_000_001,
    },
];

const SMALL: [Plot; 3] = [
    Plot { area: 10_001 },
    Plot { area: 20_000 },
    Plot { area: 1 },
];

#[test]
fn stakes_above_the_greatest(rt: HostRuntime) -> Result<(), Fail> {
    let mut shares = [7u32; 4];
    share(1_000_000, 257_698_037_760_000, &LARGE, &mut shares);
    assert_eq!(rt; shares, [388_051, 223_897, 388_052, 7]);
    share(1_000_000, 30_002, &SMALL, &mut shares);
    assert_eq!(rt; shares, [333_344, 666_622, 34, 7]);
    Ok(())
}
