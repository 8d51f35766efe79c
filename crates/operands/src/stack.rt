ghost use Rattle.std.specs.Prelude.{◌≡◌, ℕ, ◌+◌, ◌≤◌, ◌∷◌, Some, Err, OnOk, OnErr, length, min, reverse, take};
ghost use Rattle.operands.specs.Stacks as lent;
ghost use Rattle.operands.specs.Stacks.{FewCells, copied, error_text, op_text, rearranged, slots_of, stacked, taken, top_group, top_of};

use std::error::Error;
use std::fmt;

/// The most slots that a stack may take.
const MOST_SLOTS: u128 = 16;

/// What can stand on an operand stack: it tells how many slots it takes, one or two.
pub trait Cell: Copy {
    ghost size: { Self → ℕ };

    /// How many slots it takes.
    fn slots(self) -> usize
        ensures { result ≡ size self };

    ghost bounded: { (c : Self) → (1 ≤ size c) × (size c ≤ 2) };
}

/// What rearranges a stack, whatever the values are.
#[derive(Clone, Copy, Debug, PartialEq, Eq)]
pub enum StackOp {
    Dup,
    Dup2,
    Pop,
    Pop2,
    Swap,
}

/// Its mnemonic.
impl fmt::Display for StackOp {
    ghost output = { λ op. Some (op_text op) };

    fn fmt<W: fmt::Write>(&self, f: &mut fmt::Formatter<W>) -> fmt::Result {
        f.write_str(match self {
            StackOp::Dup => "dup",
            StackOp::Dup2 => "dup2",
            StackOp::Pop => "pop",
            StackOp::Pop2 => "pop2",
            StackOp::Swap => "swap",
        })
    }
}

/// Why a stack is left as it was.
#[derive(Clone, Copy, Debug, PartialEq, Eq)]
pub enum StackError {
    /// The instruction does not fit the cells on top.
    Unfit,
    /// The stack would take more than 16 slots, or more cells than were lent.
    NoRoom,
}

impl fmt::Display for StackError {
    ghost output = { λ e. Some (error_text e) };

    fn fmt<W: fmt::Write>(&self, f: &mut fmt::Formatter<W>) -> fmt::Result {
        f.write_str(match self {
            StackError::Unfit => "the instruction does not fit the stack",
            StackError::NoRoom => "the stack has no room",
        })
    }
}

impl Error for StackError {}

/// An operand stack in cells that are lent to it: the first `used` of them, the top last. Its methods keep the slice that
/// was lent, so whoever lent it knows what it holds afterwards.
// Lent cells and a count, and no `Vec`: the stack of a method lies in a stretch of cells that the caller keeps.
#[derive(Drop)]
pub struct Stack<'a, C> {
    cells: &'a mut [C],
    used: usize,
    ghost within: { used ≤ length cells.now },
}

impl<'a, C: Cell> Stack<'a, C> {
    ghost use Rattle.operands.specs.Changes.{Becomes, HasRoom, Pops, held};
    ghost use Rattle.operands.specs.declared.stack.StackError.{StackError};
    ghost use Rattle.operands.specs.declared.stack.StackError.TheVariants.{NoRoom};
    ghost use Rattle.operands.specs.declared.stack.StackOp.TheVariants.{Swap};

    /// The stack of the first `used` cells; where there are fewer, of all of them.
    pub fn new(cells: &'a mut [C], used: usize) -> Stack<'a, C>
        ensures lent { result.cells.ghost_name ≡ cells.entry.ghost_name }
        ensures cells { result.cells.now ≡ cells.old }
        ensures used { result.used ≡ min used (length cells.old) }
        ensures stack { held result ≡ stacked cells.old used }
    {
        let used = used.min(cells.len());
        Stack { cells, used }
    }

    /// How many cells the stack has.
    pub fn used(&self) -> usize
        ensures { result ≡ self.now.used }
    {
        self.used
    }

    /// The cells of the stack, the top last.
    pub fn cells(&self) -> &[C]
        ensures list { result.now ≡ take self.now.used self.now.cells.now }
        ensures stack { held self.now ≡ reverse result.now }
    {
        &self.cells[..self.used]
    }

    /// How many slots the stack takes.
    pub fn slots(&self) -> u128
        ensures { result ≡ slots_of C.size (held self.now) }
    {
        slots_of(self.cells())
    }

    /// The top of the stack; none where it is empty.
    pub fn peek(&self) -> Option<C>
        ensures { result ≡ top_of (held self.now) }
    {
        self.cells().last().copied()
    }

    /// Takes the top off; none where the stack is empty.
    pub fn pop(&mut self) -> Option<C>
        ensures { Pops self.old result self.new }
    {
        let top = self.peek()?;
        self.used -= 1;
        Some(top)
    }

    /// Puts a cell on top. Refuses where there is no room for it.
    pub fn push(&mut self, cell: C) -> Result<(), StackError>
        ensures becomes { Becomes C.size (Some (cell ∷ held self.old)) self.old result self.new }
        ensures few { FewCells C.size }
    {
        self.check_room(1, cell.slots())?;
        self.cells[self.used] = cell;
        self.used += 1;
        Ok(())
    }

    /// Carries out `dup`, `dup2`, `pop`, `pop2` or `swap`. Refuses where that does not fit the cells on top, or there is
    /// no room for what it leaves.
    pub fn rearrange(&mut self, op: StackOp) -> Result<(), StackError>
        ensures { Becomes C.size (rearranged C.size op (held self.old)) self.old result self.new }
    {
        // A `match`, and no functions in a table: these are instructions, which are read from a scene.
        match op {
            StackOp::Dup => self.copy_group(1),
            StackOp::Dup2 => self.copy_group(2),
            StackOp::Pop => self.take_group(1),
            StackOp::Pop2 => self.take_group(2),
            StackOp::Swap => self.swap(),
        }
    }

    /// Refuses where there is no room for so many cells more, which take so many slots.
    fn check_room(&self, cells: usize, slots: usize) -> Result<(), StackError>
        ensures room { OnOk result (HasRoom C.size self.now cells slots) }
        ensures none { OnErr result (HasRoom C.size self.now cells slots → ⊥) }
        ensures error { (e : StackError) → result ≡ Err e → e ≡ NoRoom }
    {
        if self.cells.len() - self.used < cells || self.slots() + slots as u128 > MOST_SLOTS {
            return Err(StackError::NoRoom);
        }
        Ok(())
    }

    /// Copies the cells on top that take so many slots.
    fn copy_group(&mut self, slots: usize) -> Result<(), StackError>
        ensures { Becomes C.size (copied C.size slots (held self.old)) self.old result self.new }
    {
        let count = top_group(self.cells(), slots).ok_or(StackError::Unfit)?;
        self.check_room(count, slots)?;
        self.cells
            .copy_within(self.used - count..self.used, self.used);
        self.used += count;
        Ok(())
    }

    /// Takes away the cells on top that take so many slots.
    fn take_group(&mut self, slots: usize) -> Result<(), StackError>
        ensures { Becomes C.size (taken C.size slots (held self.old)) self.old result self.new }
    {
        let count = top_group(self.cells(), slots).ok_or(StackError::Unfit)?;
        let left = self.used - count;
        // Read through `cells`: after `&self.cells[..left]` itself a proof no longer knows what the cells hold.
        if slots_of(&self.cells()[..left]) > MOST_SLOTS {
            return Err(StackError::NoRoom);
        }
        self.used = left;
        Ok(())
    }

    /// Exchanges the two cells of one slot on top.
    fn swap(&mut self) -> Result<(), StackError>
        ensures { Becomes C.size (rearranged C.size Swap (held self.old)) self.old result self.new }
    {
        let [.., second, top] = self.cells() else {
            return Err(StackError::Unfit);
        };
        if second.slots() != 1 || top.slots() != 1 {
            return Err(StackError::Unfit);
        }
        self.check_room(0, 0)?;
        self.cells.swap(self.used - 2, self.used - 1);
        Ok(())
    }
}

/// The cells of the stack of the first `used` cells, the top last, for whoever is lent them only to read; where there are
/// fewer, all of them.
pub fn cells_in_use<C>(cells: &[C], used: usize) -> &[C]
    ensures list { result.now ≡ take used cells.now }
    ensures stack { reverse result.now ≡ stacked cells.now used }
{
    &cells[..used.min(cells.len())]
}

/// How many slots the cells take together. A `usize` holds how many cells a slice has, but not always twice as many.
pub fn slots_of<C: Cell>(cells: &[C]) -> u128
    ensures list { result ≡ slots_of C.size cells.now }
    ensures stack { result ≡ slots_of C.size (reverse cells.now) }
{
    cells.iter().map(|cell| cell.slots() as u128).sum()
}

/// How many slots the stack of the first `used` cells takes.
pub fn slots<C: Cell>(cells: &[C], used: usize) -> u128
    ensures { result ≡ slots_of C.size (stacked cells.now used) }
{
    slots_of(cells_in_use(cells, used))
}

/// The top of the stack of the first `used` cells; none where it is empty.
pub fn peek<C: Cell>(cells: &[C], used: usize) -> Option<C>
    ensures { result ≡ top_of (stacked cells.now used) }
{
    cells_in_use(cells, used).last().copied()
}

/// The top of that stack, and how many cells are left below it; none where it is empty.
pub fn pop<C: Cell>(cells: &[C], used: usize) -> Option<(C, usize)>
    ensures { lent.Pops cells.now used result }
{
    let (top, below) = cells_in_use(cells, used).split_last()?;
    Some((*top, below.len()))
}

/// Puts a cell on top of the first `used` cells and answers how many there are then. Refuses where there is no room for
/// it, and then alters nothing.
// Beside `Stack::push`, for whoever lends a part of a slice: when this returns, a proof knows what the part holds.
pub fn push<C: Cell>(cells: &mut [C], used: usize, cell: C) -> Option<usize>
    ensures becomes { lent.Becomes C.size (Some (cell ∷ stacked cells.old used)) cells.old used result cells.new }
    ensures few { FewCells C.size }
{
    let mut stack = Stack::new(cells, used);
    match stack.push(cell) {
        Ok(()) => Some(stack.used()),
        Err(_) => None,
    }
}

/// Carries out `dup`, `dup2`, `pop`, `pop2` or `swap` on the first `used` cells and answers how many there are then.
/// Refuses where that does not fit the cells on top, or there is no room for what it leaves, and then alters nothing.
// Beside `Stack::rearrange`, as `push`.
pub fn rearrange<C: Cell>(cells: &mut [C], used: usize, op: StackOp) -> Option<usize>
    ensures { lent.Becomes C.size (rearranged C.size op (stacked cells.old used)) cells.old used result cells.new }
{
    let mut stack = Stack::new(cells, used);
    match stack.rearrange(op) {
        Ok(()) => Some(stack.used()),
        Err(_) => None,
    }
}

/// How many cells on top take so many slots together, where one or two do.
fn top_group<C: Cell>(stack: &[C], slots: usize) -> Option<usize>
    ensures { result ≡ top_group C.size slots (reverse stack.now) }
{
    match stack {
        [.., top] if top.slots() == slots => Some(1),
        [.., second, top] if second.slots() + top.slots() == slots => Some(2),
        _ => None,
    }
}
