// made by c/exports.py
//! A board over triple buffers with records of 256 bytes.
ghost use Rattle.c_registers.specs.Handles.{holding, IsEnd};
ghost use Rattle.c_boards.specs.Places.{IsBoardMake, IsBoardWrite, IsBoardRead, IsBoardReadSince};

use c_boards::{Mark, Posts, make_places, read_place, read_place_since, write_place};
use c_handles::handles::triple_place_256;
use c_handles::{Record256, TriplePlace256, TripleSeat256};
use c_registers::end;
use std::alloc::Global;

#[unsafe(no_mangle)]
pub extern "C" fn nidzaru_triple_board_256_make(
    alloc: Global,
    first: &Record256,
    limit: u64,
    places: &mut [triple_place_256::Handle],
) -> u32
    ensures { IsBoardMake (λ h. h.live) (λ h. h.loose.side) 37 (λ s. record { it = s })
        ⟦<TripleSeat256 as Posts<Record256>>⟧.is_made limit places.old places.new first.now result }
{
    make_places::<TriplePlace256, triple_place_256::Handle, Record256, TripleSeat256>(
        alloc, first, limit, places,
    )
}

#[unsafe(no_mangle)]
pub extern "C" fn nidzaru_triple_board_256_write(
    place: &mut triple_place_256::Handle,
    item: &Record256,
    stamp: &mut Mark,
) -> u32
    ensures { IsBoardWrite 37 (λ s. record { it = s }) ⟦<TripleSeat256 as Posts<Record256>>⟧.has_posted
        ⟦<TripleSeat256 as Posts<Record256>>⟧.is_refused
        (holding place.old.live place.old.loose.side) (holding place.new.live place.new.loose.side)
        item.now stamp.old stamp.new result }
{
    write_place::<TriplePlace256, triple_place_256::Loose, Record256, TripleSeat256>(
        37,
        &mut place.live,
        &mut place.loose,
        item,
        stamp,
    )
}

#[unsafe(no_mangle)]
pub extern "C" fn nidzaru_triple_board_256_read(
    place: &mut triple_place_256::Handle,
    item: &mut Record256,
    stamp: &mut Mark,
) -> u32
    ensures { IsBoardRead 37 (λ s. record { it = s }) ⟦<TripleSeat256 as Posts<Record256>>⟧.has_seen
        (holding place.old.live place.old.loose.side) (holding place.new.live place.new.loose.side)
        item.old item.new stamp.old stamp.new result }
{
    read_place::<TriplePlace256, triple_place_256::Loose, Record256, TripleSeat256>(
        37,
        &mut place.live,
        &mut place.loose,
        item,
        stamp,
    )
}

#[unsafe(no_mangle)]
pub extern "C" fn nidzaru_triple_board_256_read_since(
    place: &mut triple_place_256::Handle,
    least: &Mark,
    item: &mut Record256,
    stamp: &mut Mark,
) -> u32
    ensures { IsBoardReadSince 37 (λ s. record { it = s }) ⟦<TripleSeat256 as Posts<Record256>>⟧.has_seen
        (holding place.old.live place.old.loose.side) (holding place.new.live place.new.loose.side)
        least.now item.old item.new stamp.old stamp.new result }
{
    read_place_since::<TriplePlace256, triple_place_256::Loose, Record256, TripleSeat256>(
        37,
        &mut place.live,
        &mut place.loose,
        least,
        item,
        stamp,
    )
}

#[unsafe(no_mangle)]
pub extern "C" fn nidzaru_triple_board_256_end(
    alloc: Global,
    place: &mut triple_place_256::Handle,
) -> u32
    ensures { IsEnd 37 (holding place.old.live place.old.loose.side)
        (holding place.new.live place.new.loose.side) result }
{
    end::<TriplePlace256, triple_place_256::Handle>(alloc, place)
}
