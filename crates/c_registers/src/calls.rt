//! The calls of C, over any record, cell, side and handle.
//!
//! While a call runs on a side, `live` of its handle is BUSY. A call that is cut off leaves it so,
//! and each later one is refused.
ghost use Rattle.std.specs.Prelude.{◌≡◌, ◌≢◌, ◌+◌, ◌≤◌, ◌^◌, true, false, IfSome, IfOk, IfErr, ⊤};
ghost use Rattle.std.specs.Borrow.{sem, follows_so, Lends, LendsSoOk};
ghost use mathlib.Core.Option.{none};
ghost use Rattle.c_registers.specs.Handles.{holding, busy, Has, LacksSide, IsMake, IsWrite};
ghost use Rattle.c_registers.specs.Handles.{IsPublish, IsRead, IsLook, IsEnd};
ghost use Rattle.c_registers.specs.Handles.{IsBack, IsSlotFilled};
ghost use Rattle.c_registers.specs.TripleCalls.{at_hand, in_slot, Stays, HasPublished, writer_with};
ghost use Rattle.c_registers.specs.Numbers.{numbered};
ghost use Rattle.c_registers.specs.declared.triple.TripleReader.{TripleReader};
ghost use Rattle.c_registers.specs.declared.triple.TripleWriter.{TripleWriter};

use crate::hands::{Hand, Holds, Wraps};
use crate::roles::{Opens, Reading, Writing};
use crate::status::{CUT_OFF, DONE, ENDED, IN_USE, NO_MEMORY, OTHER_SIDE, REFUSED};
use crate::triple::{TripleReader, TripleWriter};
use std::alloc::Global;

/// What `live` is while a call runs on the side of a handle. It is no number of a type.
pub const BUSY: u64 = 255;

/// Why a handle whose `live` isn't the number of its type lacks its side.
#[cold]
#[inline(never)]
pub fn lacks(live: u64) -> u32
    ensures { LacksSide live result }
{
    if live == 0 {
        return ENDED;
    }
    if live == BUSY {
        return CUT_OFF;
    }
    OTHER_SIDE
}

/// The side in a box, where there is memory.
fn boxed<D: Wraps<S>, S>(alloc: Global, side: S) -> Option<Box<D>>
    ensures { IfSome result (λ b. b.value ≡ D.side side) }
{
    Box::new(alloc, D::whole(side)).ok()
}

/// Puts both sides of a new cell into the handles.
pub fn make<
    D: Wraps<P>,
    E: Wraps<G>,
    H: Hand<D>,
    K: Hand<E>,
    W: Copy,
    P: Opens<W, G>,
    G: Reading<W>,
>(alloc: Global, first: &W, writer: &mut H, reader: &mut K) -> u32
    ensures { IsMake (H.CODE, K.CODE) D.side E.side P.is_made
        (holding (H.live writer.old) (H.side writer.old)) (holding (K.live reader.old) (K.side reader.old))
        (holding (H.live writer.new) (H.side writer.new))
        (holding (K.live reader.new) (K.side reader.new)) first.now result }
{
    if writer.live() != 0 {
        return IN_USE;
    }
    if reader.live() != 0 {
        return IN_USE;
    }
    let Ok((put, get)) = P::open(alloc, first) else {
        return NO_MEMORY;
    };
    let Some(put) = boxed::<D, P>(alloc, put) else {
        return NO_MEMORY;
    };
    let Some(get) = boxed::<E, G>(alloc, get) else {
        return NO_MEMORY;
    };
    writer.put(put);
    reader.put(get);
    DONE
}

/// Writes by the side in the struct.
#[inline]
fn write_inside<D: Wraps<P>, W: Copy, P: Writing<W>>(side: &mut D, item: &W) -> bool
    ensures written { result ≡ true → (q : P) × (side.new ≡ D.side q) × P.has_written (D.inner side.old) q item.now }
    ensures refused { result ≡ false → (side.new ≡ side.old) × (2 ^ 64 ≤ P.last (D.inner side.old) + 1) }
{
    side.inside().write(item)
}

/// Publishes by the side in the struct.
#[inline]
fn publish_inside<D: Wraps<TripleWriter<W>>, W: Copy>(side: &mut D) -> bool
    ensures written { result ≡ true → (q : TripleWriter W) × (side.new ≡ D.side q) × HasPublished (D.inner side.old) q }
    ensures refused { result ≡ false → (side.new ≡ side.old) × (2 ^ 64 ≤ (D.inner side.old).number + 1) }
{
    side.inside().publish()
}

/// Reads by the side in the struct.
#[inline]
fn read_inside<D: Wraps<G>, W: Copy, G: Reading<W>>(side: &mut D, item: &mut W, number: &mut u64)
    ensures { (q : G) × (side.new ≡ D.side q) × G.has_read (D.inner side.old) q (numbered number.new item.new) }
{
    let answer = side.inside().read();
    *item = answer.words;
    *number = answer.number;
}

/// Looks by the side in the struct.
#[inline]
fn look_inside<D: Wraps<G>, W: Copy, G: Reading<W>>(side: &mut D) -> u64
    ensures { (q : G) × (w : W) × (side.new ≡ D.side q) × G.has_read (D.inner side.old) q (numbered result w) }
{
    side.inside().look()
}

/// Lends the record at hand of the side in the struct.
#[inline]
fn hold_inside<'a, D: Wraps<TripleReader<W>> + 'a, W: Copy + 'a>(side: &'a mut D) -> &'a W
    ensures* stays { sem 𝓛 (follows_so D.row D.row side.entry.ghost_name none (λ _ _. ⊤)
        (λ d. (h : TripleReader W) × (d ≡ D.side h) × Stays (D.inner side.old) h)) }
    ensures held { result.now ≡ (at_hand (D.inner side.old)).words }
{
    let get = side.inside();
    &get.hold().words
}

/// Lends the words in the slot of the side in the struct.
#[inline]
fn slot_inside<'a, D: Wraps<TripleWriter<W>> + 'a, W: Copy + 'a>(side: &'a mut D) -> &'a mut W
    ensures* lent { sem 𝓛 (Lends D.row W.row side.entry result (λ w. D.side (writer_with (D.inner side.old) w))) }
    ensures value { result.now ≡ (in_slot (D.inner side.old)).words }
{
    let put = side.inside();
    put.loan()
}

/// Writes the record by the writing side of a handle.
#[inline]
pub fn write<D: Wraps<P>, L: Holds<D>, W: Copy, P: Writing<W>>(
    code: u64,
    live: &mut u64,
    loose: &mut L,
    item: &W,
) -> u32
    requires { live.old ≡ code → L.full loose.old ≡ true }
    ensures live { live.new ≡ live.old }
    ensures full { L.full loose.new ≡ L.full loose.old }
    ensures write { IsWrite code D.side P.last P.has_written (holding live.old (L.side loose.old))
        (holding live.new (L.side loose.new)) item.now result }
{
    if *live != code {
        return lacks(*live);
    }
    *live = BUSY;
    let written = write_inside::<D, W, P>(loose.reach(), item);
    *live = code;
    if written { DONE } else { REFUSED }
}

/// Publishes what lies in the slot of the triple buffer's writing side of a handle.
#[inline]
pub fn publish<D: Wraps<TripleWriter<W>>, L: Holds<D>, W: Copy>(
    code: u64,
    live: &mut u64,
    loose: &mut L,
) -> u32
    requires { live.old ≡ code → L.full loose.old ≡ true }
    ensures live { live.new ≡ live.old }
    ensures full { L.full loose.new ≡ L.full loose.old }
    ensures publish { IsPublish code D.side (λ p. p.number) HasPublished (holding live.old (L.side loose.old))
        (holding live.new (L.side loose.new)) result }
{
    if *live != code {
        return lacks(*live);
    }
    *live = BUSY;
    let published = publish_inside::<D, W>(loose.reach());
    *live = code;
    if published { DONE } else { REFUSED }
}

/// Reads by the reading side of a handle.
#[inline]
pub fn read<D: Wraps<G>, L: Holds<D>, W: Copy, G: Reading<W>>(
    code: u64,
    live: &mut u64,
    loose: &mut L,
    item: &mut W,
    number: &mut u64,
) -> u32
    requires { live.old ≡ code → L.full loose.old ≡ true }
    ensures live { live.new ≡ live.old }
    ensures full { L.full loose.new ≡ L.full loose.old }
    ensures read { IsRead code D.side G.has_read (holding live.old (L.side loose.old))
        (holding live.new (L.side loose.new)) item.old item.new number.old number.new result }
{
    if *live != code {
        return lacks(*live);
    }
    *live = BUSY;
    read_inside::<D, W, G>(loose.reach(), item, number);
    *live = code;
    DONE
}

/// Looks by the reading side of a handle which number the newest record has, without the record.
#[inline]
pub fn look<D: Wraps<G>, L: Holds<D>, W: Copy, G: Reading<W>>(
    code: u64,
    live: &mut u64,
    loose: &mut L,
    number: &mut u64,
) -> u32
    requires { live.old ≡ code → L.full loose.old ≡ true }
    ensures live { live.new ≡ live.old }
    ensures full { L.full loose.new ≡ L.full loose.old }
    ensures look { IsLook code D.side G.has_read (holding live.old (L.side loose.old))
        (holding live.new (L.side loose.new)) number.old number.new result }
{
    if *live != code {
        return lacks(*live);
    }
    *live = BUSY;
    *number = look_inside::<D, W, G>(loose.reach());
    *live = code;
    DONE
}

/// Lends the record that a read or a look gave last, where it lies, until the side is used again.
#[inline]
pub fn hold<'a, D: Wraps<TripleReader<W>> + 'a, L: Holds<D>, W: Copy + 'a>(
    loose: &'a mut L,
    code: u64,
    live: u64,
) -> Result<&'a W, u32>
    requires { live ≡ code → L.full loose.old ≡ true }
    ensures* back { sem 𝓛
        (follows_so L.row L.row loose.entry.ghost_name none (λ _ _. ⊤) (λ l. (L.full l ≡ L.full loose.old)
        × IsBack code D.side Stays (holding live (L.side loose.old)) (holding live (L.side l)))) }
    ensures ok { IfOk result (λ at. (g : TripleReader W) × Has code (holding live (L.side loose.old)) (D.side g)
        × (at.now ≡ (at_hand g).words)) }
    ensures err { IfErr result (λ n. (live ≢ code) × LacksSide live n) }
{
    if live != code {
        return Err(lacks(live));
    }
    let side = loose.reach();
    Ok(hold_inside::<D, W>(side))
}

/// Lends the words in the writing side's slot, to be filled where the record will lie, until the side is used again.
/// They are an older record's, or the opening's.
#[inline]
pub fn slot<'a, D: Wraps<TripleWriter<W>> + 'a, L: Holds<D>, W: Copy + 'a>(
    loose: &'a mut L,
    code: u64,
    live: u64,
) -> Result<&'a mut W, u32>
    requires { live ≡ code → L.full loose.old ≡ true }
    ensures* lent { sem 𝓛 (LendsSoOk L.row W.row loose.entry result (λ l w. (L.full l ≡ L.full loose.old)
        × IsSlotFilled code D.side writer_with (holding live (L.side loose.old)) (holding live (L.side l)) w)
        (λ l. l ≡ loose.old)) }
    ensures ok { IfOk result (λ at. (p : TripleWriter W) × Has code (holding live (L.side loose.old)) (D.side p)
        × (at.now ≡ (in_slot p).words)) }
    ensures err { IfErr result (λ n. (live ≢ code) × LacksSide live n) }
{
    if live != code {
        return Err(lacks(live));
    }
    let side = loose.reach();
    Ok(slot_inside::<D, W>(side))
}

/// Ends the side that the handle has.
pub fn end<D: Drop, H: Hand<D>>(alloc: Global, handle: &mut H) -> u32
    ensures { IsEnd H.CODE (holding (H.live handle.old) (H.side handle.old))
        (holding (H.live handle.new) (H.side handle.new)) result }
{
    let live = handle.live();
    if live != H::CODE {
        return lacks(live);
    }
    drop(handle.take(alloc));
    DONE
}
