use crate::value::Value;
use bytecode::Kind;
use operands::{Cell, Stack, StackError, StackOp};
use std::{fmt, io};

/// What is done to a stack.
// An enum, and no closures: a case is a row of a table, and each step is printed too.
#[derive(Clone, Copy)]
enum Step<C> {
    Push(C),
    Pop,
    Rearrange(StackOp),
}

const I: Kind = Kind::Int;

const J: Kind = Kind::Long;

const T: Kind = Kind::Text;

const O: Kind = Kind::Output;

const DUP: Step<Kind> = Step::Rearrange(StackOp::Dup);

const DUP2: Step<Kind> = Step::Rearrange(StackOp::Dup2);

const POP: Step<Kind> = Step::Rearrange(StackOp::Pop);

const POP2: Step<Kind> = Step::Rearrange(StackOp::Pop2);

const SWAP: Step<Kind> = Step::Rearrange(StackOp::Swap);

/// The kinds that lie there, the top last, and what is done.
static KINDS: [(&[Kind], &[Step<Kind>]); 29] = [
    (
        &[],
        &[Step::Push(I), Step::Push(J), Step::Push(T), Step::Push(O)],
    ),
    (&[], &[Step::Pop]),
    (&[I, J], &[Step::Pop, Step::Pop, Step::Pop]),
    (&[], &[DUP]),
    (&[I], &[DUP]),
    (&[T], &[DUP]),
    (&[O], &[DUP]),
    (&[J], &[DUP]),
    (&[], &[DUP2]),
    (&[I], &[DUP2]),
    (&[J], &[DUP2]),
    (&[T, J], &[DUP2]),
    (&[I, T], &[DUP2]),
    (&[J, I], &[DUP2]),
    (&[], &[POP]),
    (&[J, O], &[POP, POP]),
    (&[], &[POP2]),
    (&[I], &[POP2]),
    (&[I, J], &[POP2]),
    (&[J, I, T], &[POP2, POP2]),
    (&[J, I], &[POP2]),
    (&[], &[SWAP]),
    (&[I], &[SWAP]),
    (&[J, I, T], &[SWAP]),
    (&[I, J], &[SWAP]),
    (&[J, I], &[SWAP]),
    (
        &[J, J, J, J, J, J, J, I],
        &[DUP2, Step::Push(J), DUP, DUP, POP, Step::Push(I)],
    ),
    (
        &[J, J, J, J, J, J, J, J],
        &[DUP2, Step::Push(I), POP2, Step::Push(J)],
    ),
    (
        &[I, I, I, I, I, I, I, I, I, I, I, I, I, I, T],
        &[Step::Push(J), DUP2, Step::Push(I), Step::Push(I), DUP, SWAP],
    ),
];

/// The same for values.
static VALUES: [(&[Value], &[Step<Value>]); 4] = [
    (
        &[Value::Int(1), Value::Int(2)],
        &[
            Step::Rearrange(StackOp::Swap),
            Step::Rearrange(StackOp::Dup2),
            Step::Rearrange(StackOp::Pop),
            Step::Pop,
        ],
    ),
    (
        &[Value::Long(-3), Value::Long(4)],
        &[
            Step::Rearrange(StackOp::Dup2),
            Step::Rearrange(StackOp::Swap),
            Step::Rearrange(StackOp::Pop2),
            Step::Push(Value::Int(5)),
            Step::Rearrange(StackOp::Dup),
        ],
    ),
    (
        &[
            Value::Long(1),
            Value::Long(2),
            Value::Long(3),
            Value::Long(4),
            Value::Long(5),
            Value::Long(6),
            Value::Long(7),
        ],
        &[
            Step::Push(Value::Long(8)),
            Step::Push(Value::Int(9)),
            Step::Pop,
            Step::Push(Value::Int(9)),
            Step::Push(Value::Int(10)),
            Step::Push(Value::Int(11)),
        ],
    ),
    (
        &[],
        &[
            Step::Pop,
            Step::Rearrange(StackOp::Pop2),
            Step::Push(Value::Int(-2147483648)),
            Step::Pop,
        ],
    ),
];

/// A line for each case of kinds, and then for each of values.
pub fn cases(rt: &HostRuntime) -> io::Result<()> {
    lines(rt, &mut [Kind::Int; 16], &KINDS)?;
    lines(rt, &mut [Value::Int(0); 16], &VALUES)
}

/// For each case a line: the stack at the start; then each step, with `no` where it is refused, and the stack after it.
fn lines<C: Cell + fmt::Display>(
    rt: &HostRuntime,
    cells: &mut [C],
    cases: &[(&[C], &[Step<C>])],
) -> io::Result<()> {
    for (start, steps) in cases {
        let mut stack = Stack::new(cells, 0);
        for cell in *start {
            if stack.push(*cell).is_err() {
                break;
            }
        }
        print!(rt; "stack")?;
        print_stack(rt, &stack)?;
        for step in *steps {
            carry_out(rt, &mut stack, *step)?;
            print_stack(rt, &stack)?;
        }
        println!(rt)?;
    }
    Ok(())
}

/// Prints the step, and `no` where it is refused.
fn carry_out<C: Cell + fmt::Display>(
    rt: &HostRuntime,
    stack: &mut Stack<C>,
    step: Step<C>,
) -> io::Result<()> {
    match step {
        Step::Push(cell) => {
            print!(rt; " push {cell}")?;
            print_refusal(rt, stack.push(cell))
        }
        Step::Pop => match stack.pop() {
            Some(cell) => print!(rt; " take {cell}"),
            None => print!(rt; " take no"),
        },
        Step::Rearrange(op) => {
            print!(rt; " {op}")?;
            print_refusal(rt, stack.rearrange(op))
        }
    }
}

fn print_refusal(rt: &HostRuntime, done: Result<(), StackError>) -> io::Result<()> {
    match done {
        Ok(()) => Ok(()),
        Err(_) => print!(rt; " no"),
    }
}

/// The cells of a stack, the top last, in brackets, with its slots and its top.
fn print_stack<C: Cell + fmt::Display>(rt: &HostRuntime, stack: &Stack<C>) -> io::Result<()> {
    print!(rt; " [")?;
    for cell in stack.cells() {
        print!(rt; " {cell}")?;
    }
    print!(rt; " ] {}", stack.slots())?;
    match stack.peek() {
        Some(top) => print!(rt; " {top}"),
        None => Ok(()),
    }
}
