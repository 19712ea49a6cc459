// What stands in the places of a record, held to the check: F from 0, U from 9, sigma from 18 and V^T from 21, as RULES, section 7, has them.
ghost use Rattle.std.specs.Prelude.{◌<◌};

use factors::{Factors, Principal};
use tensor::Rows;

fn row(r: &[u64], at: usize) -> [f64; 3]
    requires { at < 64 }
{
    [
        record::float(r, at),
        record::float(r, at + 1),
        record::float(r, at + 2),
    ]
}

fn rows(r: &[u64], at: usize) -> Rows
    requires { at < 32 }
{
    let r0 = row(r, at);
    let r1 = row(r, at + 3);
    let r2 = row(r, at + 6);
    Rows { r0, r1, r2 }
}

pub fn factors_held(r: &[u64]) -> bool {
    let f = tensor::of_rows(rows(r, 0));
    let u = rows(r, 9);
    let sigma = row(r, 18);
    let vt = rows(r, 21);
    factors::accepted(f, Factors { u, sigma, vt })
}

// Principal values stand in sigma's places and their axes, by rows, in V^T's.
pub fn principals_held(r: &[u64]) -> bool {
    let f = tensor::of_rows(rows(r, 0));
    let values = row(r, 18);
    let axes = rows(r, 21);
    factors::principal_accepted(f, Principal { values, axes })
}
