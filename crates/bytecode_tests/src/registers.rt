use operands::Register;
use operands::registers::{self, NoSuchRegister};
use std::{fmt, io};

/// What is done to registers: a register's number, and the value for a store.
// An enum, and no closures: a case is a row of a table, and each step is printed too.
#[derive(Clone, Copy)]
enum Step<I, J> {
    StoreInt(usize, I),
    StoreLong(usize, J),
    LoadInt(usize),
    LoadLong(usize),
}

static KINDS: [&[Step<(), ()>]; 4] = [
    &[
        Step::StoreInt(0, ()),
        Step::LoadInt(0),
        Step::LoadInt(1),
        Step::LoadLong(0),
    ],
    &[
        Step::StoreLong(0, ()),
        Step::LoadLong(0),
        Step::LoadLong(1),
        Step::LoadInt(0),
        Step::LoadInt(1),
    ],
    &[
        Step::StoreLong(14, ()),
        Step::StoreLong(15, ()),
        Step::StoreInt(16, ()),
        Step::LoadLong(15),
        Step::LoadInt(16),
    ],
    &[
        Step::StoreLong(3, ()),
        Step::StoreInt(3, ()),
        Step::StoreLong(3, ()),
        Step::StoreInt(4, ()),
        Step::LoadInt(3),
    ],
];

static VALUES: [&[Step<i32, i64>]; 8] = [
    &[
        Step::StoreInt(0, -1),
        Step::StoreInt(15, 7),
        Step::StoreInt(16, 8),
        Step::LoadInt(15),
    ],
    &[
        Step::StoreLong(0, 1),
        Step::StoreLong(1, 2),
        Step::LoadLong(0),
        Step::LoadLong(1),
    ],
    &[
        Step::StoreLong(1, 1),
        Step::StoreLong(0, 2),
        Step::LoadLong(0),
        Step::LoadLong(1),
    ],
    &[
        Step::StoreLong(0, 1),
        Step::StoreLong(2, 2),
        Step::StoreLong(1, 3),
        Step::LoadLong(1),
    ],
    &[
        Step::StoreLong(0, 1),
        Step::StoreLong(2, 2),
        Step::StoreInt(1, 3),
        Step::LoadLong(2),
    ],
    &[
        Step::StoreLong(0, 1),
        Step::StoreLong(2, 2),
        Step::StoreInt(2, 3),
        Step::LoadLong(0),
    ],
    &[
        Step::StoreLong(13, 5),
        Step::StoreInt(15, 6),
        Step::StoreLong(14, 7),
        Step::LoadLong(14),
        Step::LoadInt(13),
    ],
    &[
        Step::StoreInt(18446744073709551615, 1),
        Step::StoreLong(18446744073709551615, 1),
        Step::LoadInt(18446744073709551615),
        Step::LoadLong(18446744073709551614),
    ],
];

/// A line for each case of kinds, and then for each of values.
pub fn cases(rt: &HostRuntime) -> io::Result<()> {
    lines(rt, "kinds", &mut [Register::Unset; 16], &KINDS)?;
    lines(rt, "values", &mut [Register::Unset; 16], &VALUES)
}

/// For each case a line, over registers that are all unset at first.
fn lines<I: Held, J: Held>(
    rt: &HostRuntime,
    sort: &str,
    all: &mut [Register<I, J>],
    cases: &[&[Step<I, J>]],
) -> io::Result<()> {
    for steps in cases {
        all.fill(Register::Unset);
        print!(rt; "registers of {sort}")?;
        carry_out(rt, all, steps)?;
    }
    Ok(())
}

/// Each step, with what a load gives or the registers after a store, and `no` where it is refused.
fn carry_out<I: Held, J: Held>(
    rt: &HostRuntime,
    all: &mut [Register<I, J>],
    steps: &[Step<I, J>],
) -> io::Result<()> {
    for step in steps {
        match *step {
            Step::StoreInt(n, value) => {
                print!(rt; " istore {n}")?;
                let done = registers::store_int(all, n, value);
                print_stored(rt, done, all)?;
            }
            Step::StoreLong(n, value) => {
                print!(rt; " lstore {n}")?;
                let done = registers::store_long(all, n, value);
                print_stored(rt, done, all)?;
            }
            Step::LoadInt(n) => {
                print!(rt; " iload {n}")?;
                print_loaded(rt, registers::load_int(all, n))?;
            }
            Step::LoadLong(n) => {
                print!(rt; " lload {n}")?;
                print_loaded(rt, registers::load_long(all, n))?;
            }
        }
    }
    println!(rt)
}

fn print_loaded<V: Held>(rt: &HostRuntime, value: Option<V>) -> io::Result<()> {
    match value {
        Some(value) => print!(rt; " ={}", Number(value)),
        None => print!(rt; " no"),
    }
}

fn print_stored<I: Held, J: Held>(
    rt: &HostRuntime,
    done: Result<(), NoSuchRegister>,
    all: &[Register<I, J>],
) -> io::Result<()> {
    print!(rt; " {} [", if done.is_ok() { "yes" } else { "no" })?;
    for register in all {
        print!(rt; " {}", Shown(*register))?;
    }
    print!(rt; " ]")
}

/// What a register holds: nothing more than the kind in a frame of kinds, and the number in a record.
// A trait, and not `Display` alone: `()` has none.
trait Held: Copy {
    fn fmt<W: fmt::Write>(self, f: &mut fmt::Formatter<W>) -> fmt::Result;
}

impl Held for () {
    fn fmt<W: fmt::Write>(self, _f: &mut fmt::Formatter<W>) -> fmt::Result {
        Ok(())
    }
}

impl Held for i32 {
    fn fmt<W: fmt::Write>(self, f: &mut fmt::Formatter<W>) -> fmt::Result {
        write!(f, "{self}")
    }
}

impl Held for i64 {
    fn fmt<W: fmt::Write>(self, f: &mut fmt::Formatter<W>) -> fmt::Result {
        write!(f, "{self}")
    }
}

/// What a register holds, as it is printed.
#[derive(Clone, Copy)]
struct Number<V>(V);

impl<V: Held> fmt::Display for Number<V> {
    fn fmt<W: fmt::Write>(&self, f: &mut fmt::Formatter<W>) -> fmt::Result {
        self.0.fmt(f)
    }
}

/// A register as it is printed: `u` unset, `I`, `J` and `j` for the halves of a long, with the number.
#[derive(Clone, Copy)]
struct Shown<I, J>(Register<I, J>);

impl<I: Held, J: Held> fmt::Display for Shown<I, J> {
    fn fmt<W: fmt::Write>(&self, f: &mut fmt::Formatter<W>) -> fmt::Result {
        match self.0 {
            Register::Unset => write!(f, "u"),
            Register::Int(value) => write!(f, "I{}", Number(value)),
            Register::LongFirst(value) => write!(f, "J{}", Number(value)),
            Register::LongSecond => write!(f, "j"),
        }
    }
}
