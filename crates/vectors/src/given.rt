// The distributions that calls are given.
use distribution::{Distribution, FloatDistribution, IntDistribution};

pub fn float(low: f64, high: f64, log_scale: bool, step: Option<f64>) -> Distribution {
    Distribution::Float(FloatDistribution {
        low,
        high,
        log_scale,
        step,
    })
}

pub fn int(low: i64, high: i64, step: Option<i64>) -> Distribution {
    Distribution::Int(IntDistribution {
        low,
        high,
        log_scale: false,
        step,
    })
}

// With the log flag.
pub fn logarithmic(low: i64, high: i64, step: Option<i64>) -> Distribution {
    Distribution::Int(IntDistribution {
        low,
        high,
        log_scale: true,
        step,
    })
}

// Float 0..1.
pub fn unit_interval() -> Distribution {
    float(0.0, 1.0, false, None)
}
