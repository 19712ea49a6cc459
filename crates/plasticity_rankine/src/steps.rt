// The law's steps by their numbers (docs/STEPS.md).
pub const INPUTS: u8 = 0;

pub const MODULI: u8 = 1;

pub const LOGARITHMS: u8 = 2;

pub const FIRST_TEST: u8 = 4;

pub const SECOND_TEST: u8 = 5;

pub const THIRD_TEST: u8 = 6;

pub const NORM: u8 = 7;

pub const HARDENING: u8 = 8;

pub const EXPONENTIALS: u8 = 9;

pub const RESULTS: u8 = 10;
