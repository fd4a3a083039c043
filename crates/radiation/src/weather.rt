// A day's weather as a station reads it.

// The chosen estimate with its own readings.
#[derive(Clone, Copy)]
pub enum Estimate {
    // Radiation in cal/cm² a day, and humidity in percent.
    Turc(f64, f64),
    // Radiation alone.
    JensenHaise(f64),
}

#[derive(Clone, Copy)]
pub struct Weather {
    // Degrees Celsius.
    pub mean: f64,
    pub estimate: Estimate,
}
