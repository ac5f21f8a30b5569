//! The lines of undetectable faults by the names in their places.
ghost use Rattle.std.specs.Prelude.{◌≡◌, ◌<◌, ℕ, List, [], Some, IfOk, OnOk, length, slice_get};
ghost use Rattle.grading.specs.Table as spec;
ghost use Rattle.grading.specs.Table.{AreListed, HaveName, IsAdded};

use ae_base::{Memory, Name, Seq};
use indexmap::IndexMap;
use std::alloc::Global;
use std::marker::Model;
use vec_text::{Idle, PlaceName};

/// For each name some numbers.
#[derive(Drop)]
struct Numbers {
    by_name: IndexMap<Name, Seq<usize>>,
}

impl Numbers {
    /// No numbers. It takes no memory before the first `add`.
    fn new(alloc: Global) -> Numbers
        ensures { (name : List ℕ) → spec.numbers_of result name ≡ [] }
    {
        Numbers {
            by_name: IndexMap::new(alloc),
        }
    }

    /// Puts a number under a name.
    fn add(&mut self, alloc: Global, name: Name, number: usize) -> Result<(), Memory>
        ensures { OnOk result (IsAdded name number self.old self.new) }
    {
        let numbers = self.by_name.entry(name)?.or_insert(Seq::new(alloc));
        numbers.push(number)?;
        Ok(())
    }

    /// The numbers under a name.
    fn of(&self, name: &Name) -> &[usize]
        ensures { result.now ≡ spec.numbers_of self.now name.now }
    {
        match self.by_name.get(name) {
            Some(numbers) => numbers.as_slice(),
            None => &[],
        }
    }
}

/// The name in a place.
pub fn name_in(place: &PlaceName) -> &Name
    ensures { result.now ≡ spec.name_in place.now }
{
    match place {
        PlaceName::Stem(name) => name,
        PlaceName::Pin(name, _) => name,
        PlaceName::Port(name) => name,
    }
}

/// The numbers of lines by the names in their places.
fn numbers_by_name(alloc: Global, lines: &[Idle]) -> Result<Numbers, Memory>
    ensures { IfOk result (AreListed lines.now (length lines.now)) }
{
    let mut numbers = Numbers::new(alloc);
    for i in 0..lines.len() {
        numbers.add(alloc, name_in(&lines[i].place).copy(alloc)?, i)?;
    }
    Ok(numbers)
}

/// Lines of undetectable faults, found by the names in their places.
#[derive(Drop)]
pub struct LinesByName<'a> {
    lines: &'a [Idle],
    numbers: Numbers,
}

impl<'a> Model for LinesByName<'a> {
    ghost use Rattle.std.specs.Prelude.{List, length};
    ghost use Rattle.grading.specs.Table.{AreListed};
    ghost use Rattle.vec_text.specs.declared.file.Idle.{Idle};

    ghost Value = { List Idle };

    ghost view = { λ t. t.lines.now };

    ghost invariant = { λ t. AreListed t.lines.now (length t.lines.now) t.numbers };
}

impl<'a> LinesByName<'a> {
    /// The table of lines, made by one pass over them. `Memory` comes only for want of memory.
    pub fn new(alloc: Global, lines: &'a [Idle]) -> Result<LinesByName<'a>, Memory>
        ensures { IfOk result (λ table. table ≡ lines.now) }
    {
        let numbers = numbers_by_name(alloc, lines)?;
        Ok(LinesByName { lines, numbers })
    }

    /// The line with a number, from 0 on.
    pub fn line(&self, number: usize) -> &Idle
        requires { number < length self.now }
        ensures { slice_get self.now number ≡ Some result.now }
    {
        let lines = self.lines;
        &lines[number]
    }

    /// The numbers of the lines whose places have the name.
    pub fn numbers_of(&self, name: &Name) -> &[usize]
        ensures { HaveName self.now name.now result.now }
    {
        self.numbers.of(name)
    }
}
