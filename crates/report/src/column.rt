// A column of a report: of one value, of two columns put together, and of a list of records.
ghost use Rattle.std.specs.Prelude.{◌≡◌, ◌+◌, ◌<◌, ◌≤◌, ◌&&◌, leb, [], ◌∷◌, nat_le};
ghost use Rattle.std.specs.Float.Ieee as Ieee;
ghost use Rattle.std.specs.Float.{binary64};
ghost use Rattle.record.specs.Layout.{floats};
ghost use Rattle.report.specs.Column.{column_of, first};
ghost use Rattle.report.specs.Joined.{lifted, word_below, word_above, of_both, join_columns, records_in, most, together};
ghost use Rattle.report.specs.Report.{values};

use crate::whole;

// How many records a report may speak of.
pub const MOST: u64 = 4096;

// How many values are counted, the least, greatest and total of their whole numbers of 2^-30, in two's complement, how many lie
// not within 2^20 of zero, and how many are NaN or infinite. With count 0 least, greatest and total are 0.
#[derive(Clone, Copy)]
pub struct Column {
    pub count: u64,
    pub least: u64,
    pub greatest: u64,
    pub total: u64,
    pub outside: u64,
    pub not_finite: u64,
}

pub fn empty() -> Column
    ensures { result ≡ column_of [] }
{
    Column {
        count: 0,
        least: 0,
        greatest: 0,
        total: 0,
        outside: 0,
        not_finite: 0,
    }
}

// The column of one value, from its bits: sizes are in the order of their patterns.
fn of_value(n: u64) -> Column
    ensures { result ≡ column_of (Ieee.of_bits binary64 n ∷ []) }
{
    let size = n % 0x8000_0000_0000_0000;
    if size >= 0x7ff0_0000_0000_0000 {
        return Column {
            count: 0,
            least: 0,
            greatest: 0,
            total: 0,
            outside: 0,
            not_finite: 1,
        };
    }
    if size > whole::BOUND {
        return Column {
            count: 0,
            least: 0,
            greatest: 0,
            total: 0,
            outside: 1,
            not_finite: 0,
        };
    }
    let k = whole::whole(n);
    Column {
        count: 1,
        least: k,
        greatest: k,
        total: k,
        outside: 0,
        not_finite: 0,
    }
}

// Words in two's complement are in the order of these.
fn lift(w: u64) -> u64
    ensures { result ≡ lifted w }
{
    std::num::wrapping_add_u64(w, 0x8000_0000_0000_0000)
}

fn lower(v: u64, w: u64) -> u64
    ensures { result ≡ first word_below v w }
{
    if lift(w) < lift(v) { w } else { v }
}

fn higher(v: u64, w: u64) -> u64
    ensures { result ≡ first word_above v w }
{
    if lift(v) < lift(w) { w } else { v }
}

// The least over the columns with a count.
fn least(a: Column, b: Column) -> u64
    ensures { result ≡ of_both word_below a.count b.count a.least b.least }
{
    if a.count == 0 {
        if b.count == 0 { 0 } else { b.least }
    } else {
        if b.count == 0 {
            a.least
        } else {
            lower(a.least, b.least)
        }
    }
}

fn greatest(a: Column, b: Column) -> u64
    ensures { result ≡ of_both word_above a.count b.count a.greatest b.greatest }
{
    if a.count == 0 {
        if b.count == 0 { 0 } else { b.greatest }
    } else {
        if b.count == 0 {
            a.greatest
        } else {
            higher(a.greatest, b.greatest)
        }
    }
}

// Two columns put together.
pub fn join(a: Column, b: Column) -> Column
    requires { records_in a + records_in b ≤ most }
    ensures { result ≡ join_columns a b }
{
    Column {
        count: a.count + b.count,
        least: least(a, b),
        greatest: greatest(a, b),
        total: std::num::wrapping_add_u64(a.total, b.total),
        outside: a.outside + b.outside,
        not_finite: a.not_finite + b.not_finite,
    }
}

// Whether no number of a column is above 4,096, so that all can be added.
fn small(c: Column) -> bool
    ensures { result ≡ (nat_le c.count most && (nat_le c.outside most && leb c.not_finite most)) }
{
    (c.count <= MOST) & ((c.outside <= MOST) & (c.not_finite <= MOST))
}

// How many records a column speaks of.
fn records(c: Column) -> u64
    requires { (c.count ≤ most) × (c.outside ≤ most) × (c.not_finite ≤ most) }
    ensures { result ≡ records_in c }
{
    c.count + c.outside + c.not_finite
}

// Whether two columns speak of at most 4,096 records together.
pub fn fit(a: Column, b: Column) -> bool
    ensures { result ≡ together a b }
{
    if small(a) & small(b) {
        records(a) + records(b) <= MOST
    } else {
        false
    }
}

// The column at a place of the first n records.
pub fn at_place(l: &[u64], place: usize, n: usize) -> Column
    requires { (place < floats) × (n ≤ most) }
    ensures { result ≡ column_of (values place l.now n) }
{
    let mut c = empty();
    for i in 0..n {
        c = join(c, of_value(record::word(l, i * record::FLOATS + place)));
    }
    c
}
