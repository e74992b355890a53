// How many bytes a value takes, so that room is made for them at once.
ghost use Rattle.std.specs.Prelude.{◌≡◌, ◌+◌, ◌<◌, ◌^◌};
ghost use Rattle.pv_format.specs.Length.{polyvalue_length, reads_length, record_length};
ghost use Rattle.pv_replay.specs.Values.{record_of};

use crate::Record;
use pv_tree::{Poly, Read};

// How many bytes a polyvalue takes.
fn poly_length(value: &Poly<i64>) -> usize
    requires { polyvalue_length value.now < 2 ^ 63 }
    ensures { result ≡ polyvalue_length value.now }
{
    // There is a case at least.
    let leaves = value.cases().len();
    2 + 9 * leaves + 10 * leaves.saturating_sub(1)
}

/// How many bytes items with their polyvalues take.
pub fn reads_length(reads: &[Read]) -> usize
    requires { reads_length reads.now < 2 ^ 63 }
    ensures { result ≡ reads_length reads.now }
{
    let mut length = 1;
    for read in reads {
        length += read_length(read);
    }
    length
}

// How many bytes an item with its polyvalue takes.
fn read_length(read: &Read) -> usize
    requires { 4 + polyvalue_length read.now.cases < 2 ^ 63 }
    ensures { result ≡ 4 + polyvalue_length read.now.cases }
{
    4 + poly_length(&read.value)
}

/// How many bytes a record takes.
pub fn record_length(value: &Record) -> usize
    requires { record_length (record_of value.now) < 2 ^ 63 }
    ensures { result ≡ record_length (record_of value.now) }
{
    match value {
        Record::Epoch(_) => 5,
        Record::Prepared { writes, .. } => 10 + reads_length(writes),
        Record::Outcome { .. } => 11,
    }
}
