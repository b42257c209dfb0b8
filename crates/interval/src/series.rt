// The nine coefficients of sine and of cosine, as intervals and as doubles, and the doubles above their tails. Each is proved equal to its exact
// fraction's by computation.
ghost use Rattle.std.specs.Prelude.{◌≡◌};
ghost use Rattle.interval.specs.Series.{sine_term, cosine_term, nine, nine_nearest, tail_up};

use crate::Interval;

impl Interval {
    // The reciprocals of the odd factorials, through 17!, with alternating signs: the sine over u, as a series in u².
    pub const SINE: [Interval; 9] = [
        Interval {
            lo: 0.9999999999999999,
            hi: 1.0000000000000002,
        },
        Interval {
            lo: -0.16666666666666669,
            hi: -0.16666666666666663,
        },
        Interval {
            lo: 0.008333333333333331,
            hi: 0.008333333333333335,
        },
        Interval {
            lo: -0.00019841269841269844,
            hi: -0.00019841269841269839,
        },
        Interval {
            lo: 0.000002755731922398589,
            hi: 0.0000027557319223985897,
        },
        Interval {
            lo: -0.000000025052108385441724,
            hi: -0.000000025052108385441717,
        },
        Interval {
            lo: 0.0000000001605904383682161,
            hi: 0.00000000016059043836821616,
        },
        Interval {
            lo: -0.0000000000007647163731819817,
            hi: -0.0000000000007647163731819815,
        },
        Interval {
            lo: 0.0000000000000028114572543455202,
            hi: 0.000000000000002811457254345521,
        },
    ];

    // The reciprocals of the even factorials, through 16!, with alternating signs: the cosine, as a series in u².
    pub const COSINE: [Interval; 9] = [
        Interval {
            lo: 0.9999999999999999,
            hi: 1.0000000000000002,
        },
        Interval {
            lo: -0.5000000000000001,
            hi: -0.49999999999999994,
        },
        Interval {
            lo: 0.04166666666666666,
            hi: 0.04166666666666667,
        },
        Interval {
            lo: -0.0013888888888888892,
            hi: -0.0013888888888888887,
        },
        Interval {
            lo: 0.000024801587301587298,
            hi: 0.000024801587301587305,
        },
        Interval {
            lo: -0.00000027557319223985894,
            hi: -0.00000027557319223985883,
        },
        Interval {
            lo: 0.0000000020876756987868096,
            hi: 0.0000000020876756987868104,
        },
        Interval {
            lo: -0.000000000011470745597729726,
            hi: -0.000000000011470745597729723,
        },
        Interval {
            lo: 0.000000000000047794773323873846,
            hi: 0.00000000000004779477332387386,
        },
    ];

    // The same coefficients' nearest doubles.
    pub const SINE_NEAREST: [f64; 9] = [
        1.0,
        -0.16666666666666666,
        0.008333333333333333,
        -0.0001984126984126984,
        0.0000027557319223985893,
        -0.00000002505210838544172,
        0.00000000016059043836821613,
        -0.0000000000007647163731819816,
        0.0000000000000028114572543455206,
    ];

    pub const COSINE_NEAREST: [f64; 9] = [
        1.0,
        -0.5,
        0.041666666666666664,
        -0.001388888888888889,
        0.0000248015873015873,
        -0.0000002755731922398589,
        0.00000000208767569878681,
        -0.000000000011470745597729725,
        0.00000000000004779477332387385,
    ];

    // Above (4/5)^19/19! and (4/5)^18/18!.
    pub const TAIL_SINE: f64 = 0.00000000000000000011847183946702754;

    pub const TAIL_COSINE: f64 = 0.0000000000000000028137061873419037;

    pub fn sine() -> [Interval; 9]
        ensures { result ≡ nine sine_term }
    {
        Self::SINE
    }

    pub fn cosine() -> [Interval; 9]
        ensures { result ≡ nine cosine_term }
    {
        Self::COSINE
    }

    pub fn sine_nearest() -> [f64; 9]
        ensures { result ≡ nine_nearest sine_term }
    {
        Self::SINE_NEAREST
    }

    pub fn cosine_nearest() -> [f64; 9]
        ensures { result ≡ nine_nearest cosine_term }
    {
        Self::COSINE_NEAREST
    }

    pub fn tail_sine() -> f64
        ensures { result ≡ tail_up 19 }
    {
        Self::TAIL_SINE
    }

    pub fn tail_cosine() -> f64
        ensures { result ≡ tail_up 18 }
    {
        Self::TAIL_COSINE
    }
}
