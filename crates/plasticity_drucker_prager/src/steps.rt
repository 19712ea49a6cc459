// The law's steps by their numbers (docs/STEPS.md). 0 is the inputs.
// The flag: only active when failed.
pub const FLAG: u8 = 1;

// alpha: the exponential, the sine, the slope. 4 is the root of 2/3, which refuses nothing.
pub const DECAY: u8 = 2;

pub const SINE: u8 = 3;

pub const SLOPE: u8 = 5;

// The logarithms of the singular values.
pub const LOGS: u8 = 6;

// The strain, its trace and its deviatoric part.
pub const STRAIN: u8 = 7;

// Whether the deviatoric part is all zero.
pub const ZEROS: u8 = 8;

// Whether the trace is above 0.
pub const TRACE: u8 = 9;

// The norm of the strain.
pub const TIP: u8 = 10;

// The norm of the deviatoric part.
pub const NORM: u8 = 11;

pub const GAMMA: u8 = 12;

// Whether gamma is at most 0.
pub const YIELD: u8 = 13;

// The strain back on the cone, and its exponentials.
pub const BACK: u8 = 14;

pub const EXPS: u8 = 15;

// The determinants: how much the volume changed, the one that stands, the plastic one.
pub const DETERMINANTS: u8 = 16;

// The logarithms of the previous determinant and of the one that stands.
pub const LOG_BEFORE: u8 = 17;

pub const LOG_AFTER: u8 = 18;

// The results are finite.
pub const RESULTS: u8 = 19;
