// Potential evapotranspiration from radiation, for C. It has no enum to hand over, so each estimate is a call of its own.
ghost use Rattle.std.specs.Prelude.{◌≡◌};
ghost use Rattle.paper.specs.Radiation.{turc, jensen_haise, estimated_of};
ghost use Rattle.radiation.specs.Estimates.{weather_as};
ghost use Rattle.clib.specs.Estimates.{weather_from, estimate, estimate_given};

use crate::numbers::numbered;
use radiation::{Estimate, Weather};

fn estimated(weather: Weather, potential: &mut u64) -> u64
    ensures { estimate result potential.new ≡ estimate_given (estimated_of (weather_as weather)) }
{
    match radiation::potential(weather) {
        Ok(depth) => {
            *potential = depth.0;
            0
        }
        Err(why) => {
            *potential = 0;
            numbered(why.number(), 0)
        }
    }
}

pub fn recharge_turc(mean: f64, radiation: f64, humidity: f64, potential: &mut u64) -> u64
    ensures { estimate result potential.new ≡ estimate_given (estimated_of (weather_from mean (turc radiation humidity))) }
{
    let weather = Weather {
        mean,
        estimate: Estimate::Turc(radiation, humidity),
    };
    estimated(weather, potential)
}

pub fn recharge_jensen_haise(mean: f64, radiation: f64, potential: &mut u64) -> u64
    ensures { estimate result potential.new ≡ estimate_given (estimated_of (weather_from mean (jensen_haise radiation))) }
{
    let weather = Weather {
        mean,
        estimate: Estimate::JensenHaise(radiation),
    };
    estimated(weather, potential)
}
