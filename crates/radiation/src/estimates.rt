// The two estimates: every operation is rounded once, in the order of document 02.
ghost use Rattle.std.specs.Prelude.{◌≡◌, ◌≤◌};
ghost use Rattle.paper.specs.Radiation.{turc_of, jensen_haise_of, millimetres as millimetresOf, units_of, estimate_units, estimated_of};
ghost use Rattle.radiation.specs.Estimates.{weather_as, estimate_as, potential_as};

use crate::answers::BadReadings;
use crate::limits::weather_fits;
use crate::weather::{Estimate, Weather};
use records::Depth;

// Below this humidity, in percent, Turc's estimate grows.
const DRY: f64 = 50.0;

// Millimetres to units: an inch is 25.4 mm, and 10,000 units.
const UNITS: f64 = 100000.0;

const MILLIMETRES: f64 = 254.0;

// In millimetres.
fn turc(mean: f64, radiation: f64, humidity: f64) -> f64
    ensures { result ≡ turc_of mean radiation humidity }
{
    if mean <= 0.0 {
        return 0.0;
    }
    let humid = ((0.013 * mean) / (mean + 15.0)) * (radiation + 50.0);
    if humidity < DRY {
        return humid * (1.0 + (DRY - humidity) / 70.0);
    }
    humid
}

// In millimetres.
fn jensen_haise(mean: f64, radiation: f64) -> f64
    ensures { result ≡ jensen_haise_of mean radiation }
{
    let estimate = (radiation / 59.0) * (0.025 * mean + 0.08);
    if estimate < 0.0 {
        return 0.0;
    }
    estimate
}

#[tactic(auto, unfolding(paper::specs::Radiation::millimetres))]
fn millimetres(mean: f64, estimate: Estimate) -> f64
    ensures { result ≡ millimetresOf mean (estimate_as estimate) }
{
    match estimate {
        Estimate::Turc(radiation, humidity) => turc(mean, radiation, humidity),
        Estimate::JensenHaise(radiation) => jensen_haise(mean, radiation),
    }
}

fn units(millimetres: f64) -> f64
    ensures { result ≡ units_of millimetres }
{
    millimetres * UNITS / MILLIMETRES
}

// Potential evapotranspiration of a day, never more than the most that a day may have: the greatest whole number of units not above the estimate.
pub fn potential(weather: Weather) -> Result<Depth, BadReadings>
    ensures { (potential_as result ≡ estimated_of (weather_as weather)) × (estimate_units (potential_as result) ≤ 20000) }
{
    if !weather_fits(weather) {
        return Err(BadReadings);
    }
    let estimate = weather.estimate;
    let depth = units(millimetres(weather.mean, estimate));
    Ok(Depth(std::num::truncating_f64_to_u64(depth)))
}
