//! The whole of models, copy by copy.

ghost use Rattle.std.specs.Prelude.{◌≡◌, ◌<◌, ◌≤◌, ◌+◌, ◌^◌, ◌++◌, ◌∷◌, [], All, IfOk, OnOk, get_or, length, map, vec_len, ℕ, None};
ghost use Rattle.blif_models.specs.Layouts.{AreNumbered, EntryIs, IsRanked, IsTable, counted, joined_to, laid_whole, main_table, model_at, placed_in, numbered_cover, numbered_latch};
ghost use Rattle.blif_models.specs.SpotsApart.{AreEnough, AreNames, HaveOneSpot};
ghost use Rattle.blif_models.specs.Unfinished.{AreMore, GoesOn, IsFrame, IsNext, IsStart, LaidIs, onward};

use crate::numbered::{
    Entry, Laid, NumberedCover, NumberedInstance, NumberedJoin, NumberedLatch, NumberedModel, Spot,
};
use edge_bits::List;
use std::alloc::{AllocError, Global};

/// The number of the next spot. There are fewer than 2^32: for more there is no memory.
fn next_number(spots: &[Spot]) -> Result<u32, AllocError>
    ensures { IfOk result (λ number. number ≡ length spots.now) }
{
    let count = spots.len();
    if count <= 4_294_967_295 {
        Ok(count as u32)
    } else {
        Err(AllocError)
    }
}

/// For each of so many names of a copy the number of the spot to which it is joined, where the actual names have these numbers.
fn joined(
    alloc: Global,
    outer: &[u32],
    joins: &[NumberedJoin],
    names: usize,
) -> Result<Vec<Option<u32>>, AllocError>
    requires actual { All (λ join. join.actual < length outer.now) joins.now }
    requires formal { All (λ join. join.formal < names) joins.now }
    ensures many { IfOk result (λ joined. vec_len joined ≡ names) }
    ensures joined { IfOk result (λ joined. (name : ℕ) → name < names → get_or joined.items name None ≡ joined_to outer.now joins.now name) }
{
    let mut joined = vec![in alloc; None::<u32>; names]?;
    for join in joins {
        let formal = join.formal as usize;
        if joined[formal].is_none() {
            joined[formal] = Some(outer[join.actual as usize]);
        }
    }
    Ok(joined)
}

/// The numbers of the spots of a copy's names: a joined one has its actual's, any other a new one.
fn new_table(
    alloc: Global,
    spots: &mut Vec<Spot>,
    outer: &[u32],
    copy: u64,
    model: u32,
    joins: &[NumberedJoin],
    names: u32,
) -> Result<Vec<u32>, AllocError>
    requires outer { All (λ n. n < length spots.old.items) outer.now }
    requires actual { All (λ join. join.actual < length outer.now) joins.now }
    requires formal { All (λ join. join.formal < names) joins.now }
    ensures { IfOk result (λ table. IsTable spots.old.items outer.now copy model joins.now names spots.new.items table.items) }
{
    let joined = joined(alloc, outer, joins, names as usize)?;
    let mut table = Vec::with_capacity(alloc, joined.len())?;
    for name in 0..names {
        if let Some(number) = joined[name as usize] {
            table.push(number)?;
        } else {
            let number = next_number(spots)?;
            spots.push(Spot { copy, model, name })?;
            table.push(number)?;
        }
    }
    Ok(table)
}

/// A copy that is not finished: its model, the place of its next entry, how many copies stand before that entry, and the numbers of
/// the spots of its names.
#[derive(Drop)]
pub struct Frame {
    pub model: u32,
    pub next: usize,
    pub copies: u64,
    pub table: Vec<u32>,
}

/// The numbers that stand in a table at these places.
fn numbers_at(alloc: Global, table: &[u32], places: &[u32]) -> Result<List<u32>, AllocError>
    requires { All (λ n. n < length table.now) places.now }
    ensures { IfOk result (λ numbers. numbers ≡ map (λ n. get_or table.now n 0) places.now) }
{
    let mut numbers = Vec::with_capacity(alloc, places.len())?;
    for place in places {
        numbers.push(table[*place as usize])?;
    }
    Ok(List::from_vec(numbers))
}

/// A cover of a copy.
fn cover_of(
    alloc: Global,
    table: &[u32],
    model: u32,
    place: usize,
    cover: &NumberedCover,
) -> Result<Laid, AllocError>
    requires ins { All (λ n. n < length table.now) cover.now.ins }
    requires name { cover.now.name < length table.now }
    ensures { IfOk result (λ laid. laid ≡ Laid.Cover (numbered_cover table.now cover.now) model place) }
{
    Ok(Laid::Cover {
        cover: NumberedCover {
            line: cover.line,
            ins: numbers_at(alloc, table, cover.ins.as_slice())?,
            name: table[cover.name as usize],
        },
        model,
        place,
    })
}

/// A latch of a copy.
fn latch_of(table: &[u32], latch: &NumberedLatch) -> Laid
    requires input { latch.now.input < length table.now }
    requires output { latch.now.output < length table.now }
    ensures { result ≡ Laid.Latch (numbered_latch table.now latch.now) }
{
    Laid::Latch(NumberedLatch {
        line: latch.line,
        input: table[latch.input as usize],
        output: table[latch.output as usize],
    })
}

/// How far a layout is: the spots of names, what was laid out, and the copies that are not finished, each inside the one before it.
#[derive(Drop)]
pub struct Layout {
    pub spots: Vec<Spot>,
    pub laid: Vec<Laid>,
    pub stack: Vec<Frame>,
}

/// The number of the next copy, where so many stand before. Copies are counted in 64 bits: for more there is no memory.
fn next_copy(copies: u64) -> Result<u64, AllocError>
    ensures { IfOk result (λ copy. copy ≡ copies + 1) }
{
    copies.checked_add(1).ok_or(AllocError)
}

/// How many copies stand behind a copy that has so many inside.
fn copies_behind(copy: u64, inside: u64) -> Result<u64, AllocError>
    ensures { IfOk result (λ copies. copies ≡ copy + inside) }
{
    copy.checked_add(inside).ok_or(AllocError)
}

impl Layout {
    /// Lays out a cover or a latch, and goes on behind it.
    fn lay(&mut self, laid: Laid, frame: Frame) -> Result<(), AllocError>
        requires { frame.next + 1 < 2 ^ 64 }
        ensures spots { OnOk result (self.new.spots ≡ self.old.spots) }
        ensures laid { OnOk result (self.new.laid.items ≡ self.old.laid.items ++ laid ∷ []) }
        ensures stack { OnOk result (self.new.stack.items ≡ self.old.stack.items ++ onward frame frame.copies ∷ []) }
    {
        self.laid.push(laid)?;
        let copies = frame.copies;
        self.go_on(frame, copies)?;
        Ok(())
    }

    /// Goes on behind the next entry of a copy, where so many copies stand before.
    fn go_on(&mut self, frame: Frame, copies: u64) -> Result<(), AllocError>
        requires { frame.next + 1 < 2 ^ 64 }
        ensures spots { OnOk result (self.new.spots ≡ self.old.spots) }
        ensures laid { OnOk result (self.new.laid ≡ self.old.laid) }
        ensures stack { OnOk result (self.new.stack.items ≡ self.old.stack.items ++ onward frame copies ∷ []) }
    {
        let Frame {
            model,
            next,
            table,
            ..
        } = frame;
        self.stack.push(Frame {
            model,
            next: next + 1,
            copies,
            table,
        })?;
        Ok(())
    }

    /// Opens the copy of an instance that stands next, or passes it where it has no signals.
    fn enter(
        &mut self,
        alloc: Global,
        models: &[NumberedModel],
        copies: &[u64],
        signals: &[u64],
        frame: Frame,
        instance: &NumberedInstance,
    ) -> Result<(), AllocError>
        requires next { IsNext models.now frame (Entry.Instance instance.now) }
        requires entry { EntryIs models.now (model_at models.now frame.model).names (Entry.Instance instance.now) }
        requires frame { IsFrame models.now self.old.spots.items frame }
        requires room { frame.next + 1 < 2 ^ 64 }
        requires copies { length copies.now ≡ length models.now }
        requires signals { length signals.now ≡ length models.now }
        ensures { OnOk result (GoesOn models.now (counted copies.now signals.now) self.old frame self.new) }
    {
        let model = instance.model as usize;
        let copy = next_copy(frame.copies)?;
        let behind = copies_behind(copy, copies[model])?;
        if signals[model] == 0 {
            self.go_on(frame, behind)?;
            return Ok(());
        }
        let joins = instance.joins.as_slice();
        let names = models[model].names;
        let table = new_table(
            alloc,
            &mut self.spots,
            &frame.table,
            copy,
            instance.model,
            joins,
            names,
        )?;
        self.go_on(frame, behind)?;
        self.stack.push(Frame {
            model: instance.model,
            next: 0,
            copies: copy,
            table,
        })?;
        Ok(())
    }

    /// Lays out the next entry of a copy that was taken off the stack, or leaves a copy without further ones.
    fn step(
        &mut self,
        alloc: Global,
        models: &[NumberedModel],
        copies: &[u64],
        signals: &[u64],
        frame: Frame,
    ) -> Result<(), AllocError>
        requires numbered { AreNumbered models.now }
        requires frame { IsFrame models.now self.old.spots.items frame }
        requires copies { length copies.now ≡ length models.now }
        requires signals { length signals.now ≡ length models.now }
        ensures { OnOk result (GoesOn models.now (counted copies.now signals.now) self.old frame self.new) }
    {
        let entries = models[frame.model as usize].entries.as_slice();
        let Some(entry) = entries.get(frame.next) else {
            return Ok(());
        };
        match entry {
            Entry::Cover(cover) => {
                let laid = cover_of(alloc, &frame.table, frame.model, frame.next, cover)?;
                self.lay(laid, frame)?;
            }
            Entry::Latch(latch) => {
                let laid = latch_of(&frame.table, latch);
                self.lay(laid, frame)?;
            }
            Entry::Instance(instance) => {
                self.enter(alloc, models, copies, signals, frame, instance)?;
            }
        }
        Ok(())
    }
}

/// The main model's own names, each with a spot of its own under its number, before anything is laid out.
fn start(alloc: Global, main: u32, names: u32) -> Result<Layout, AllocError>
    ensures spots { IfOk result (λ layout. layout.spots.items ≡ main_table main names) }
    ensures laid { IfOk result (λ layout. layout.laid.items ≡ []) }
    ensures stack { IfOk result (λ layout. IsStart main names layout.stack.items) }
{
    let mut spots = Vec::with_capacity(alloc, names as usize)?;
    let mut table = Vec::with_capacity(alloc, names as usize)?;
    for name in 0..names {
        spots.push(Spot {
            copy: 0,
            model: main,
            name,
        })?;
        table.push(name)?;
    }
    let mut stack = Vec::new(alloc);
    stack.push(Frame {
        model: main,
        next: 0,
        copies: 0,
        table,
    })?;
    Ok(Layout {
        spots,
        laid: Vec::new(alloc),
        stack,
    })
}

/// The whole of a main model: the spots of its names, and its covers and latches with numbers of spots.
#[derive(Drop)]
pub struct Whole {
    pub spots: Vec<Spot>,
    pub laid: Vec<Laid>,
}

/// The whole of a main model, where each model has so many copies inside and so many signals in all. Copies are laid out one inside
/// the other in the order of the entries; a copy without signals takes no time. The main model's names keep their numbers.
pub fn lay_out(
    alloc: Global,
    models: &[NumberedModel],
    copies: &[u64],
    signals: &[u64],
    main: u32,
) -> Result<Whole, AllocError>
    requires main { main < length models.now }
    requires numbered { AreNumbered models.now }
    requires copies { length copies.now ≡ length models.now }
    requires signals { length signals.now ≡ length models.now }
    requires ranked { (rank : ℕ → ℕ) × IsRanked models.now rank × (rank main ≤ length models.now) }
    ensures whole { IfOk result (λ whole. map (placed_in whole.spots.items) whole.laid.items ≡ laid_whole models.now (counted copies.now signals.now) (length models.now) main) }
    ensures within { IfOk result (λ whole. All (LaidIs (vec_len whole.spots)) whole.laid.items) }
    ensures main { IfOk result (λ whole. AreMore (main_table main (model_at models.now main).names) whole.spots.items) }
    ensures apart { IfOk result (λ whole. AreEnough models.now copies.now → HaveOneSpot whole.spots.items × AreNames models.now whole.spots.items) }
{
    let mut layout = start(alloc, main, models[main as usize].names)?;
    while let Some(frame) = layout.stack.pop() {
        layout.step(alloc, models, copies, signals, frame)?;
    }
    let Layout { spots, laid, .. } = layout;
    Ok(Whole { spots, laid })
}
