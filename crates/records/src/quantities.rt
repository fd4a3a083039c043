// The paper's quantities, each a type of its own, so that a temperature handed over where a depth belongs does not compile.
// The limits that bound a quantity stand with it.
ghost use Rattle.std.specs.Prelude.{◌≡◌, ◌-◌, ◌<◌, min};
ghost use Rattle.paper.specs.Snow.{above_freezing};
ghost use Rattle.records.specs.Days.{tenths};
ghost use Rattle.records.specs.Temperatures.{below_freezing, farthest};

// Units of 0.0001 inch.
#[derive(Clone, Copy)]
pub struct Depth(pub u64);

// Tenths of a degree Fahrenheit.
#[derive(Clone, Copy)]
pub struct TenthF(pub i32);

#[derive(Clone, Copy)]
pub struct CurveNumber(pub u64);

// Thousandths of a Celsius degree-day.
#[derive(Clone, Copy)]
pub struct FrostIndex(pub u64);

impl Depth {
    pub const MOST_GROSS: Depth = Depth(400000);

    pub const MOST_SNOW: Depth = Depth(10000000);

    pub const MOST_POTENTIAL: Depth = Depth(20000);

    pub const MOST_INTERCEPTION: Depth = Depth(10000);

    pub const MOST_LARGEST_RECHARGE: Depth = Depth(100000);

    // The melt rate, 1.5 mm per degree Celsius: 12,500 units for each 381 tenths of a degree Fahrenheit above freezing.
    pub const MELT: Depth = Depth(12500);

    pub const MELT_TENTHS: u64 = 381;

    pub fn smaller(self, other: Depth) -> Depth
        ensures { result.0 ≡ min self.0 other.0 }
    {
        if self.0 <= other.0 { self } else { other }
    }

    // What of this depth is beyond a limit: 0 where it keeps to it.
    pub fn beyond(self, limit: Depth) -> Depth
        ensures { result.0 ≡ self.0 - limit.0 }
    {
        if self.0 <= limit.0 {
            Depth(0)
        } else {
            Depth(self.0 - limit.0)
        }
    }
}

impl TenthF {
    pub const FREEZING: TenthF = TenthF(320);

    pub const LEAST: TenthF = TenthF(-1000);

    pub const MOST: TenthF = TenthF(1500);

    // Tenths above freezing; 0 where it is not.
    pub fn above_freezing(self) -> u64
        ensures { (result ≡ above_freezing (tenths self)) × (result < farthest) }
    {
        if self.0 <= TenthF::FREEZING.0 {
            return 0;
        }
        (self.0 - TenthF::FREEZING.0) as u64
    }

    // Tenths below freezing; 0 where it is not. The difference can pass 32 bits.
    pub fn below_freezing(self) -> u64
        ensures { (result ≡ below_freezing (tenths self)) × (result < farthest) }
    {
        if TenthF::FREEZING.0 <= self.0 {
            return 0;
        }
        (TenthF::FREEZING.0 as i64 - self.0 as i64) as u64
    }
}

impl CurveNumber {
    pub const LEAST: CurveNumber = CurveNumber(30);

    pub const MOST: CurveNumber = CurveNumber(100);
}

impl FrostIndex {
    pub const MOST: FrostIndex = FrostIndex(2500000);

    pub const MOST_SETPOINT: FrostIndex = FrostIndex(2000000);

    // The setpoints of the program `balance`.
    pub const FIRST_SETPOINT: FrostIndex = FrostIndex(56000);

    pub const SECOND_SETPOINT: FrostIndex = FrostIndex(83000);

    // What a day leaves of it: 97 of each 100.
    pub const KEPT: u64 = 97;

    pub const KEPT_OF: u64 = 100;

    // One degree-day: a day that is 18 tenths of a degree Fahrenheit below freezing.
    pub const DEGREE_DAY: FrostIndex = FrostIndex(1000);

    pub const DEGREE_TENTHS: u64 = 18;
}
