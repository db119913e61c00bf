// made by c/exports.py
//! A board over four-slot cells with records of 24 bytes.
ghost use Rattle.c_registers.specs.Handles.{holding, IsEnd};
ghost use Rattle.c_boards.specs.Places.{IsBoardMake, IsBoardWrite, IsBoardRead, IsBoardReadSince};

use c_boards::{Mark, Posts, make_places, read_place, read_place_since, write_place};
use c_handles::handles::four_slot_place_24;
use c_handles::{FourSlotPlace24, FourSlotSeat24, Record24};
use c_registers::end;
use std::alloc::Global;

#[unsafe(no_mangle)]
pub extern "C" fn nidzaru_board_24_make(
    alloc: Global,
    first: &Record24,
    limit: u64,
    places: &mut [four_slot_place_24::Handle],
) -> u32
    ensures { IsBoardMake (λ h. h.live) (λ h. h.loose.side) 33 (λ s. record { it = s })
        ⟦<FourSlotSeat24 as Posts<Record24>>⟧.is_made limit places.old places.new first.now result }
{
    make_places::<FourSlotPlace24, four_slot_place_24::Handle, Record24, FourSlotSeat24>(
        alloc, first, limit, places,
    )
}

#[unsafe(no_mangle)]
pub extern "C" fn nidzaru_board_24_write(
    place: &mut four_slot_place_24::Handle,
    item: &Record24,
    stamp: &mut Mark,
) -> u32
    ensures { IsBoardWrite 33 (λ s. record { it = s }) ⟦<FourSlotSeat24 as Posts<Record24>>⟧.has_posted
        ⟦<FourSlotSeat24 as Posts<Record24>>⟧.is_refused
        (holding place.old.live place.old.loose.side) (holding place.new.live place.new.loose.side)
        item.now stamp.old stamp.new result }
{
    write_place::<FourSlotPlace24, four_slot_place_24::Loose, Record24, FourSlotSeat24>(
        33,
        &mut place.live,
        &mut place.loose,
        item,
        stamp,
    )
}

#[unsafe(no_mangle)]
pub extern "C" fn nidzaru_board_24_read(
    place: &mut four_slot_place_24::Handle,
    item: &mut Record24,
    stamp: &mut Mark,
) -> u32
    ensures { IsBoardRead 33 (λ s. record { it = s }) ⟦<FourSlotSeat24 as Posts<Record24>>⟧.has_seen
        (holding place.old.live place.old.loose.side) (holding place.new.live place.new.loose.side)
        item.old item.new stamp.old stamp.new result }
{
    read_place::<FourSlotPlace24, four_slot_place_24::Loose, Record24, FourSlotSeat24>(
        33,
        &mut place.live,
        &mut place.loose,
        item,
        stamp,
    )
}

#[unsafe(no_mangle)]
pub extern "C" fn nidzaru_board_24_read_since(
    place: &mut four_slot_place_24::Handle,
    least: &Mark,
    item: &mut Record24,
    stamp: &mut Mark,
) -> u32
    ensures { IsBoardReadSince 33 (λ s. record { it = s }) ⟦<FourSlotSeat24 as Posts<Record24>>⟧.has_seen
        (holding place.old.live place.old.loose.side) (holding place.new.live place.new.loose.side)
        least.now item.old item.new stamp.old stamp.new result }
{
    read_place_since::<FourSlotPlace24, four_slot_place_24::Loose, Record24, FourSlotSeat24>(
        33,
        &mut place.live,
        &mut place.loose,
        least,
        item,
        stamp,
    )
}

#[unsafe(no_mangle)]
pub extern "C" fn nidzaru_board_24_end(alloc: Global, place: &mut four_slot_place_24::Handle) -> u32
    ensures { IsEnd 33 (holding place.old.live place.old.loose.side)
        (holding place.new.live place.new.loose.side) result }
{
    end::<FourSlotPlace24, four_slot_place_24::Handle>(alloc, place)
}
