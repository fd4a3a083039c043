// What is refused of a day's weather.
ghost use Rattle.std.specs.Prelude.{◌≡◌, ◌≤◌};
ghost use Rattle.paper.specs.Radiation.{readings, estimate_number};

// A reading is outside its limits or is not a number.
#[derive(Clone, Copy, Debug, PartialEq, Eq)]
pub struct BadReadings;

impl BadReadings {
    // The refusal's. Its place is 0.
    #[tactic(auto, unfolding(paper::specs::Radiation::estimate_number))]
    pub fn number(self) -> u32
        ensures { (result ≡ estimate_number readings) × (result ≤ 13) }
    {
        13
    }
}
