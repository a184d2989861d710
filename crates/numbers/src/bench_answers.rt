// The answers of the bench as numbers: what is returned, and five numbers lent out.
ghost use Rattle.std.specs.Prelude.{◌≡◌, [], ◌∷◌};
ghost use Rattle.oracle.specs.Numbers.{of_reassembled, fault_number, fault_values, of_checked};
ghost use Rattle.splitter.specs.Split.{of_split};
ghost use Rattle.base.specs.Answer.{code_of};
ghost use Rattle.numbers.specs.Numbers.{value_of};
ghost use Rattle.numbers.specs.Fives.{five, ToldInFive};

use oracle::{CheckError, Fault, ReassembleError};
use splitter::SplitError;

// A number, and what stands beside it.
fn told(number: u32, carried: [u64; 5], values: &mut [u64; 5]) -> u32
    ensures { (result ≡ number) × (values.new ≡ carried) }
{
    *values = carried;
    number
}

// A number, and one that stands beside it.
fn told_one(number: u32, n: usize, values: &mut [u64; 5]) -> u32
    ensures { (result ≡ number) × (values.new ≡ (n ∷ 0 ∷ 0 ∷ 0 ∷ 0 ∷ [])) }
{
    told(number, [n as u64, 0, 0, 0, 0], values)
}

#[tactic(auto, unfolding(oracle::specs::Numbers::fault_number, oracle::specs::Numbers::fault_values, crate::specs::Fives::five))]
fn told_fault(fault: Fault, values: &mut [u64; 5]) -> u32
    ensures { (result ≡ fault_number fault) × (values.new ≡ five (fault_values fault)) }
{
    match fault {
        Fault::Length(n, len) => told(20, [n as u64, len as u64, 0, 0, 0], values),
        Fault::Restarted(n) => told_one(21, n, values),
        Fault::Announced(n, size) => told(22, [n as u64, u64::from(size), 0, 0, 0], values),
        Fault::Stray(n) => told_one(23, n, values),
        Fault::Order(n, sequence, index, wanted, next) => told(
            24,
            [
                n as u64,
                u64::from(sequence),
                u64::from(index),
                u64::from(wanted),
                u64::from(next),
            ],
            values,
        ),
        Fault::Padding(n, byte) => told(25, [n as u64, u64::from(byte), 0, 0, 0], values),
        Fault::TooWide(n) => told_one(29, n, values),
    }
}

#[tactic(auto, unfolding(oracle::specs::Numbers::of_reassembled, crate::specs::Fives::five, crate::specs::Fives::five_of))]
pub fn told_reassembled(r: Result<usize, ReassembleError>, values: &mut [u64; 5]) -> u32
    ensures { ToldInFive (of_reassembled r) result values.new }
{
    match r {
        Ok(n) => told_one(0, n, values),
        Err(ReassembleError::Refused(fault)) => told_fault(fault, values),
        Err(ReassembleError::Incomplete(size)) => told_one(26, usize::from(size), values),
        Err(ReassembleError::NoRoom) => told_one(27, 0, values),
    }
}

#[tactic(auto, unfolding(splitter::specs::Split::of_split))]
pub fn split_number(s: Result<usize, SplitError>) -> u32
    ensures { result ≡ code_of (of_split s) }
{
    match s {
        Ok(_) => 0,
        Err(SplitError::BadSplit) => 28,
        Err(SplitError::TooWide) => 8,
        Err(SplitError::Short) => 27,
    }
}

#[tactic(auto, unfolding(splitter::specs::Split::of_split))]
pub fn split_count(s: Result<usize, SplitError>) -> usize
    ensures { result ≡ value_of (of_split s) }
{
    s.unwrap_or(0)
}

#[tactic(auto, unfolding(oracle::specs::Numbers::of_checked, crate::specs::Fives::five, crate::specs::Fives::five_of))]
pub fn told_checked(c: Result<(), CheckError>, values: &mut [u64; 5]) -> u32
    ensures { ToldInFive (of_checked c) result values.new }
{
    match c {
        Ok(()) => told_one(0, 0, values),
        Err(CheckError::NoCount) => told_one(30, 0, values),
        Err(CheckError::Over) => told_one(31, 0, values),
        Err(CheckError::NoClaim) => told_one(32, 0, values),
        Err(CheckError::Faulty(fault)) => told_fault(fault, values),
        Err(CheckError::Open(size)) => told_one(26, usize::from(size), values),
        Err(CheckError::Count(n)) => told_one(33, n, values),
        Err(CheckError::Size(i)) => told_one(34, i, values),
        Err(CheckError::Hours(i)) => told_one(35, i, values),
        Err(CheckError::Pattern(i)) => told_one(36, i, values),
        Err(CheckError::Sequence(i)) => told_one(37, i, values),
    }
}
