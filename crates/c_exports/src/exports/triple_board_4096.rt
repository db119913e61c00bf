// made by c/exports.py
//! A board over triple buffers with records of 4,096 bytes.
ghost use Rattle.c_registers.specs.Handles.{holding, IsEnd};
ghost use Rattle.c_boards.specs.Places.{IsBoardMake, IsBoardWrite, IsBoardRead, IsBoardReadSince};

use c_boards::{Mark, Posts, make_places, read_place, read_place_since, write_place};
use c_handles::handles::triple_place_4096;
use c_handles::{Record4096, TriplePlace4096, TripleSeat4096};
use c_registers::end;
use std::alloc::Global;

#[unsafe(no_mangle)]
pub extern "C" fn nidzaru_triple_board_4096_make(
    alloc: Global,
    first: &Record4096,
    limit: u64,
    places: &mut [triple_place_4096::Handle],
) -> u32
    ensures { IsBoardMake (λ h. h.live) (λ h. h.loose.side) 38 (λ s. record { it = s })
        ⟦<TripleSeat4096 as Posts<Record4096>>⟧.is_made limit places.old places.new first.now result }
{
    make_places::<TriplePlace4096, triple_place_4096::Handle, Record4096, TripleSeat4096>(
        alloc, first, limit, places,
    )
}

#[unsafe(no_mangle)]
pub extern "C" fn nidzaru_triple_board_4096_write(
    place: &mut triple_place_4096::Handle,
    item: &Record4096,
    stamp: &mut Mark,
) -> u32
    ensures { IsBoardWrite 38 (λ s. record { it = s }) ⟦<TripleSeat4096 as Posts<Record4096>>⟧.has_posted
        ⟦<TripleSeat4096 as Posts<Record4096>>⟧.is_refused
        (holding place.old.live place.old.loose.side) (holding place.new.live place.new.loose.side)
        item.now stamp.old stamp.new result }
{
    write_place::<TriplePlace4096, triple_place_4096::Loose, Record4096, TripleSeat4096>(
        38,
        &mut place.live,
        &mut place.loose,
        item,
        stamp,
    )
}

#[unsafe(no_mangle)]
pub extern "C" fn nidzaru_triple_board_4096_read(
    place: &mut triple_place_4096::Handle,
    item: &mut Record4096,
    stamp: &mut Mark,
) -> u32
    ensures { IsBoardRead 38 (λ s. record { it = s }) ⟦<TripleSeat4096 as Posts<Record4096>>⟧.has_seen
        (holding place.old.live place.old.loose.side) (holding place.new.live place.new.loose.side)
        item.old item.new stamp.old stamp.new result }
{
    read_place::<TriplePlace4096, triple_place_4096::Loose, Record4096, TripleSeat4096>(
        38,
        &mut place.live,
        &mut place.loose,
        item,
        stamp,
    )
}

#[unsafe(no_mangle)]
pub extern "C" fn nidzaru_triple_board_4096_read_since(
    place: &mut triple_place_4096::Handle,
    least: &Mark,
    item: &mut Record4096,
    stamp: &mut Mark,
) -> u32
    ensures { IsBoardReadSince 38 (λ s. record { it = s }) ⟦<TripleSeat4096 as Posts<Record4096>>⟧.has_seen
        (holding place.old.live place.old.loose.side) (holding place.new.live place.new.loose.side)
        least.now item.old item.new stamp.old stamp.new result }
{
    read_place_since::<TriplePlace4096, triple_place_4096::Loose, Record4096, TripleSeat4096>(
        38,
        &mut place.live,
        &mut place.loose,
        least,
        item,
        stamp,
    )
}

#[unsafe(no_mangle)]
pub extern "C" fn nidzaru_triple_board_4096_end(
    alloc: Global,
    place: &mut triple_place_4096::Handle,
) -> u32
    ensures { IsEnd 38 (holding place.old.live place.old.loose.side)
        (holding place.new.live place.new.loose.side) result }
{
    end::<TriplePlace4096, triple_place_4096::Handle>(alloc, place)
}
