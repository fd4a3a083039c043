// Test 13, of the readings. What is not a number is in no order with any limit, and so fails each.
ghost use Rattle.std.specs.Prelude.{◌≡◌};
ghost use Rattle.paper.specs.Radiation.{mean_fits, radiation_fits, humidity_fits, estimate_fits, weather_fits};
ghost use Rattle.radiation.specs.Estimates.{estimate_as, weather_as};

use crate::weather::{Estimate, Weather};

const MOST_MEAN: f64 = 60.0;

const MOST_RADIATION: f64 = 1000.0;

const MOST_HUMIDITY: f64 = 100.0;

fn mean_fits(mean: f64) -> bool
    ensures { result ≡ mean_fits mean }
{
    (-MOST_MEAN <= mean) & (mean <= MOST_MEAN)
}

fn radiation_fits(radiation: f64) -> bool
    ensures { result ≡ radiation_fits radiation }
{
    (0.0 <= radiation) & (radiation <= MOST_RADIATION)
}

fn humidity_fits(humidity: f64) -> bool
    ensures { result ≡ humidity_fits humidity }
{
    (0.0 <= humidity) & (humidity <= MOST_HUMIDITY)
}

// Those of the chosen estimate, and no others.
#[tactic(auto, unfolding(paper::specs::Radiation::estimate_fits))]
fn estimate_fits(estimate: Estimate) -> bool
    ensures { result ≡ estimate_fits (estimate_as estimate) }
{
    match estimate {
        Estimate::Turc(radiation, humidity) => radiation_fits(radiation) & humidity_fits(humidity),
        Estimate::JensenHaise(radiation) => radiation_fits(radiation),
    }
}

#[tactic(auto, unfolding(paper::specs::Radiation::weather_fits))]
pub(crate) fn weather_fits(weather: Weather) -> bool
    ensures { result ≡ weather_fits (weather_as weather) }
{
    let estimate = weather.estimate;
    mean_fits(weather.mean) & estimate_fits(estimate)
}
