// made by c/exports.py
//! A four-slot cell with records of 128 bytes.
ghost use Rattle.c_registers.specs.FourSlotCalls.{IsMade, HasWritten, HasRead};
ghost use Rattle.c_registers.specs.Handles.{holding, IsMake, IsWrite, IsRead, IsLook, IsEnd};

use c_handles::handles::{four_slot_reader_128, four_slot_writer_128};
use c_handles::{FourSlotReader128, FourSlotWriter128, Record128};
use c_registers::{FourSlotReader, FourSlotWriter, end, look, make, read, write};
use std::alloc::Global;

#[unsafe(no_mangle)]
pub extern "C" fn nidzaru_128_make(
    alloc: Global,
    first: &Record128,
    writer: &mut four_slot_writer_128::Handle,
    reader: &mut four_slot_reader_128::Handle,
) -> u32
    ensures { IsMake (39, 40) (λ p. record { it = p }) (λ g. record { it = g }) IsMade
        (holding writer.old.live writer.old.loose.side) (holding reader.old.live reader.old.loose.side)
        (holding writer.new.live writer.new.loose.side) (holding reader.new.live reader.new.loose.side)
        first.now result }
{
    make::<
        FourSlotWriter128,
        FourSlotReader128,
        four_slot_writer_128::Handle,
        four_slot_reader_128::Handle,
        Record128,
        FourSlotWriter<Record128>,
        FourSlotReader<Record128>,
    >(alloc, first, writer, reader)
}

#[unsafe(no_mangle)]
pub extern "C" fn nidzaru_128_write(
    writer: &mut four_slot_writer_128::Handle,
    item: &Record128,
) -> u32
    ensures { IsWrite 39 (λ p. record { it = p }) (λ p. p.number) HasWritten
        (holding writer.old.live writer.old.loose.side) (holding writer.new.live writer.new.loose.side)
        item.now result }
{
    write::<FourSlotWriter128, four_slot_writer_128::Loose, Record128, FourSlotWriter<Record128>>(
        39,
        &mut writer.live,
        &mut writer.loose,
        item,
    )
}

#[unsafe(no_mangle)]
pub extern "C" fn nidzaru_128_read(
    reader: &mut four_slot_reader_128::Handle,
    item: &mut Record128,
    number: &mut u64,
) -> u32
    ensures { IsRead 40 (λ g. record { it = g }) HasRead (holding reader.old.live reader.old.loose.side)
        (holding reader.new.live reader.new.loose.side) item.old item.new number.old number.new result }
{
    read::<FourSlotReader128, four_slot_reader_128::Loose, Record128, FourSlotReader<Record128>>(
        40,
        &mut reader.live,
        &mut reader.loose,
        item,
        number,
    )
}

#[unsafe(no_mangle)]
pub extern "C" fn nidzaru_128_look(
    reader: &mut four_slot_reader_128::Handle,
    number: &mut u64,
) -> u32
    ensures { IsLook 40 (λ g. record { it = g }) HasRead (holding reader.old.live reader.old.loose.side)
        (holding reader.new.live reader.new.loose.side) number.old number.new result }
{
    look::<FourSlotReader128, four_slot_reader_128::Loose, Record128, FourSlotReader<Record128>>(
        40,
        &mut reader.live,
        &mut reader.loose,
        number,
    )
}

#[unsafe(no_mangle)]
pub extern "C" fn nidzaru_128_end_writer(
    alloc: Global,
    writer: &mut four_slot_writer_128::Handle,
) -> u32
    ensures { IsEnd 39 (holding writer.old.live writer.old.loose.side)
        (holding writer.new.live writer.new.loose.side) result }
{
    end::<FourSlotWriter128, four_slot_writer_128::Handle>(alloc, writer)
}

#[unsafe(no_mangle)]
pub extern "C" fn nidzaru_128_end_reader(
    alloc: Global,
    reader: &mut four_slot_reader_128::Handle,
) -> u32
    ensures { IsEnd 40 (holding reader.old.live reader.old.loose.side)
        (holding reader.new.live reader.new.loose.side) result }
{
    end::<FourSlotReader128, four_slot_reader_128::Handle>(alloc, reader)
}
