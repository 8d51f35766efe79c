ghost use Rattle.std.specs.Prelude.{◌≡◌, ◌+◌, ◌<◌, ◌≤◌, ◌++◌, length, take, drop, OnOk, OnErr, Some, codes};
ghost use Rattle.operands.specs.Registers.{KeepsPairs, StoresAs, ending_whole, starting_whole, int_at, int_cells, long_at, long_cells, stored};

use crate::register::Register;
use std::error::Error;
use std::fmt;

/// A store names a register that there is not.
#[derive(Clone, Copy, Debug, PartialEq, Eq)]
pub struct NoSuchRegister;

impl fmt::Display for NoSuchRegister {
    ghost output = { λ _. Some (codes "no such register") };

    fn fmt<W: fmt::Write>(&self, f: &mut fmt::Formatter<W>) -> fmt::Result {
        f.write_str("no such register")
    }
}

impl Error for NoSuchRegister {}

/// The int in a register; none where there is no such register, or it holds no int.
// Not one function with `load_long`: each is one `match`, on one register or on two, and they answer with different types.
// Two parameters, and no struct, here and in the stores: the slice is one, and the register's number is an instruction's
// operand.
pub fn load_int<I: Copy, J: Copy>(registers: &[Register<I, J>], n: usize) -> Option<I>
    ensures { result ≡ int_at n registers.now }
{
    match registers.get(n) {
        Some(Register::Int(value)) => Some(*value),
        _ => None,
    }
}

/// The long in a register and the next one; none where there are no such registers, or they hold no long.
pub fn load_long<I: Copy, J: Copy>(registers: &[Register<I, J>], n: usize) -> Option<J>
    ensures { result ≡ long_at n registers.now }
{
    match registers.get(n..)? {
        [Register::LongFirst(value), Register::LongSecond, ..] => Some(*value),
        _ => None,
    }
}

/// Stores an int into a register. Where that held half of a long, the other half is unset. Where there is no such
/// register nothing is altered.
pub fn store_int<I: Copy, J: Copy>(
    registers: &mut [Register<I, J>],
    n: usize,
    value: I,
) -> Result<(), NoSuchRegister>
    ensures value { StoresAs (stored (int_cells value) n registers.old) registers.old result registers.new }
    ensures pairs { KeepsPairs I J }
{
    unset_halves(registers, n, 1)?;
    registers[n] = Register::Int(value);
    Ok(())
}

/// Stores a long into a register and the next one. Where these held half of another long, its other half is unset. Where
/// there are no such registers nothing is altered.
// Not one function with `store_int`: what is stored would be lent as a slice, and that the array behind it, of registers
// whose numbers are of any type, takes fewer than 2^63 bytes only a caller could know.
pub fn store_long<I: Copy, J: Copy>(
    registers: &mut [Register<I, J>],
    n: usize,
    value: J,
) -> Result<(), NoSuchRegister>
    ensures value { StoresAs (stored (long_cells value) n registers.old) registers.old result registers.new }
    ensures pairs { KeepsPairs I J }
{
    unset_halves(registers, n, 2)?;
    registers[n] = Register::LongFirst(value);
    registers[n + 1] = Register::LongSecond;
    Ok(())
}

/// Unsets the register before the `count` from `n` on where it holds a first half, and the one after them where it holds a
/// second half.
fn unset_halves<I: Copy, J: Copy>(
    registers: &mut [Register<I, J>],
    n: usize,
    count: usize,
) -> Result<(), NoSuchRegister>
    ensures unset { OnOk result ((n + count ≤ length registers.old) × (registers.new ≡ ending_whole (take n registers.old) ++ (take count (drop n registers.old) ++ starting_whole (drop (n + count) registers.old)))) }
    ensures refused { OnErr result ((length registers.old < n + count) × (registers.new ≡ registers.old)) }
{
    let (before, rest) = registers.split_at_mut_checked(n).ok_or(NoSuchRegister)?;
    let (_, after) = rest.split_at_mut_checked(count).ok_or(NoSuchRegister)?;
    unset_first_half(before);
    unset_second_half(after);
    Ok(())
}

/// Unsets the last register where it holds the first half of a long.
// `matches!`, and no pattern within the `Some`: where its arms join, a proof no longer knows what the slice holds.
// Not one function with `unset_second_half`: it would be told the end of the slice and the half, and be longer than both.
fn unset_first_half<I: Copy, J: Copy>(before: &mut [Register<I, J>])
    ensures { before.new ≡ ending_whole before.old }
{
    if let Some(last) = before.last_mut() {
        if matches!(last, Register::LongFirst(_)) {
            *last = Register::Unset;
        }
    }
}

/// Unsets the first register where it holds the second half of a long.
fn unset_second_half<I: Copy, J: Copy>(after: &mut [Register<I, J>])
    ensures { after.new ≡ starting_whole after.old }
{
    if let Some(first) = after.first_mut() {
        if matches!(first, Register::LongSecond) {
            *first = Register::Unset;
        }
    }
}
