// What is wrong, with its place. A refusal says the paper's number and place of itself; a verdict is a Result, whose error is a refusal.
ghost use Rattle.std.specs.Prelude.{◌≡◌, ◌≤◌};
ghost use Rattle.paper.specs.Refusals.{number_of, place_of};
ghost use Rattle.records.specs.Verdicts.{refusal_as};

#[derive(Clone, Copy, PartialEq, Eq)]
pub enum Refusal {
    Grid,
    Lent,
    CoverTable(usize),
    CellNumbers(usize),
    Ring(usize),
    Climate,
    DayRecord,
    SerialGap,
    StateAt(usize),
    Snowfall(usize),
}

impl Refusal {
    #[tactic(auto, unfolding(paper::specs::Refusals::number_of))]
    pub fn number(self) -> u32
        ensures { (result ≡ number_of (refusal_as self)) × (result ≤ 10) }
    {
        match self {
            Refusal::Grid => 1,
            Refusal::Lent => 2,
            Refusal::CoverTable(_) => 3,
            Refusal::CellNumbers(_) => 4,
            Refusal::Ring(_) => 5,
            Refusal::Climate => 6,
            Refusal::DayRecord => 7,
            Refusal::SerialGap => 8,
            Refusal::StateAt(_) => 9,
            Refusal::Snowfall(_) => 10,
        }
    }

    #[tactic(auto, unfolding(paper::specs::Refusals::place_of))]
    pub fn place(self) -> usize
        ensures { result ≡ place_of (refusal_as self) }
    {
        match self {
            Refusal::CoverTable(entry) => entry,
            Refusal::CellNumbers(cell)
            | Refusal::Ring(cell)
            | Refusal::StateAt(cell)
            | Refusal::Snowfall(cell) => cell,
            Refusal::Grid
            | Refusal::Lent
            | Refusal::Climate
            | Refusal::DayRecord
            | Refusal::SerialGap => 0,
        }
    }
}
