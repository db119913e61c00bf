// made by c/exports.py
//! A board over four-slot cells with records of 256 bytes.
ghost use Rattle.c_registers.specs.Handles.{holding, IsEnd};
ghost use Rattle.c_boards.specs.Places.{IsBoardMake, IsBoardWrite, IsBoardRead, IsBoardReadSince};

use c_boards::{Mark, Posts, make_places, read_place, read_place_since, write_place};
use c_handles::handles::four_slot_place_256;
use c_handles::{FourSlotPlace256, FourSlotSeat256, Record256};
use c_registers::end;
use std::alloc::Global;

#[unsafe(no_mangle)]
pub extern "C" fn nidzaru_board_256_make(
    alloc: Global,
    first: &Record256,
    limit: u64,
    places: &mut [four_slot_place_256::Handle],
) -> u32
    ensures { IsBoardMake (λ h. h.live) (λ h. h.loose.side) 34 (λ s. record { it = s })
        ⟦<FourSlotSeat256 as Posts<Record256>>⟧.is_made limit places.old places.new first.now result }
{
    make_places::<FourSlotPlace256, four_slot_place_256::Handle, Record256, FourSlotSeat256>(
        alloc, first, limit, places,
    )
}

#[unsafe(no_mangle)]
pub extern "C" fn nidzaru_board_256_write(
    place: &mut four_slot_place_256::Handle,
    item: &Record256,
    stamp: &mut Mark,
) -> u32
    ensures { IsBoardWrite 34 (λ s. record { it = s }) ⟦<FourSlotSeat256 as Posts<Record256>>⟧.has_posted
        ⟦<FourSlotSeat256 as Posts<Record256>>⟧.is_refused
        (holding place.old.live place.old.loose.side) (holding place.new.live place.new.loose.side)
        item.now stamp.old stamp.new result }
{
    write_place::<FourSlotPlace256, four_slot_place_256::Loose, Record256, FourSlotSeat256>(
        34,
        &mut place.live,
        &mut place.loose,
        item,
        stamp,
    )
}

#[unsafe(no_mangle)]
pub extern "C" fn nidzaru_board_256_read(
    place: &mut four_slot_place_256::Handle,
    item: &mut Record256,
    stamp: &mut Mark,
) -> u32
    ensures { IsBoardRead 34 (λ s. record { it = s }) ⟦<FourSlotSeat256 as Posts<Record256>>⟧.has_seen
        (holding place.old.live place.old.loose.side) (holding place.new.live place.new.loose.side)
        item.old item.new stamp.old stamp.new result }
{
    read_place::<FourSlotPlace256, four_slot_place_256::Loose, Record256, FourSlotSeat256>(
        34,
        &mut place.live,
        &mut place.loose,
        item,
        stamp,
    )
}

#[unsafe(no_mangle)]
pub extern "C" fn nidzaru_board_256_read_since(
    place: &mut four_slot_place_256::Handle,
    least: &Mark,
    item: &mut Record256,
    stamp: &mut Mark,
) -> u32
    ensures { IsBoardReadSince 34 (λ s. record { it = s }) ⟦<FourSlotSeat256 as Posts<Record256>>⟧.has_seen
        (holding place.old.live place.old.loose.side) (holding place.new.live place.new.loose.side)
        least.now item.old item.new stamp.old stamp.new result }
{
    read_place_since::<FourSlotPlace256, four_slot_place_256::Loose, Record256, FourSlotSeat256>(
        34,
        &mut place.live,
        &mut place.loose,
        least,
        item,
        stamp,
    )
}

#[unsafe(no_mangle)]
pub extern "C" fn nidzaru_board_256_end(
    alloc: Global,
    place: &mut four_slot_place_256::Handle,
) -> u32
    ensures { IsEnd 34 (holding place.old.live place.old.loose.side)
        (holding place.new.live place.new.loose.side) result }
{
    end::<FourSlotPlace256, four_slot_place_256::Handle>(alloc, place)
}
