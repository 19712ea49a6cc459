// The law's steps by their numbers (docs/STEPS.md). 0 is the inputs; 2, the larger of -alpha and 0, 13, the hardening step's conditions,
// and 15, the root of (6 - d) / 2, refuse nothing.
// The moduli are finite.
pub const MODULI: u8 = 1;

// The hyperbolic sine, and p0.
pub const SINH: u8 = 3;

pub const P0: u8 = 4;

// The power -2/3 of the product of sigma.
pub const POWER: u8 = 5;

// The trial stress's squares and the trial pressure.
pub const TRIAL: u8 = 6;

// Whether the trial pressure is above p0, below -beta p0, and whether y is below 1e-4.
pub const UPPER: u8 = 7;

pub const LOWER: u8 = 8;

pub const YIELD: u8 = 9;

// A tip: its volume, the cube root, the logarithm where hardening is enabled.
pub const TIP_VOLUME: u8 = 10;

pub const TIP_SIZE: u8 = 11;

pub const TIP_LOG: u8 = 12;

// The hardening step: the centre, the norm of the trial stress, the distance and the direction.
pub const CENTRE: u8 = 14;

pub const STRESS_NORM: u8 = 16;

pub const DISTANCE: u8 = 17;

pub const DIRECTION: u8 = 18;

// The crossings: the discriminant's root, both pressures, the side of the trial state.
pub const DISCRIMINANT: u8 = 19;

pub const CROSSINGS: u8 = 20;

pub const SIDE: u8 = 21;

// The volume at the crossing, and the logarithm.
pub const VOLUME: u8 = 22;

pub const VOLUME_LOG: u8 = 23;

// Onto the surface: the root of -y1 / y0, the power 2/3 of the product of sigma, k, the norm of the trial stress, the squares of sigma and
// their roots.
pub const RATIO: u8 = 24;

pub const POWER_BACK: u8 = 25;

pub const SCALE: u8 = 26;

pub const NORM: u8 = 27;

pub const SQUARES: u8 = 28;

pub const ROOTS: u8 = 29;

// The results are finite.
pub const RESULTS: u8 = 30;
