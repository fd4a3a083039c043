// The answer: a reason with its two depths.
ghost use Rattle.std.specs.Prelude.{◌≡◌, ◌≤◌};
ghost use Rattle.paper.specs.Reasons.{reason_number};
ghost use Rattle.reasons.specs.Whys.{reason_as};

use records::Depth;

#[derive(Clone, Copy, PartialEq, Eq)]
pub enum Reason {
    OpenWater,
    UnderSnow,
    NoWater,
    BelowPotential,
    RoomForAll,
    AboveLargest,
    AllRecharged,
}

// Of open water gross precipitation and inflow; where no water reached the ground that water, which is none, and the snow at the day's end; else infiltration and
// potential evapotranspiration, the surplus over it and the room that the soil had before the day, or the excess and the cover's largest recharge.
#[derive(Clone, Copy)]
pub struct Why {
    pub reason: Reason,
    pub first: Depth,
    pub second: Depth,
}

impl Reason {
    // 1 to 7.
    #[tactic(auto, unfolding(paper::specs::Reasons::reason_number))]
    pub fn number(self) -> u32
        ensures { (result ≡ reason_number (reason_as self)) × (result ≤ 7) }
    {
        match self {
            Reason::OpenWater => 1,
            Reason::UnderSnow => 2,
            Reason::NoWater => 3,
            Reason::BelowPotential => 4,
            Reason::RoomForAll => 5,
            Reason::AboveLargest => 6,
            Reason::AllRecharged => 7,
        }
    }
}
