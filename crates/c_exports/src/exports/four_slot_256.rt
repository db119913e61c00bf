// made by c/exports.py
//! A four-slot cell with records of 256 bytes.
ghost use Rattle.c_registers.specs.FourSlotCalls.{IsMade, HasWritten, HasRead};
ghost use Rattle.c_registers.specs.Handles.{holding, IsMake, IsWrite, IsRead, IsLook, IsEnd};

use c_handles::handles::{four_slot_reader_256, four_slot_writer_256};
use c_handles::{FourSlotReader256, FourSlotWriter256, Record256};
use c_registers::{FourSlotReader, FourSlotWriter, end, look, make, read, write};
use std::alloc::Global;

#[unsafe(no_mangle)]
pub extern "C" fn nidzaru_256_make(
    alloc: Global,
    first: &Record256,
    writer: &mut four_slot_writer_256::Handle,
    reader: &mut four_slot_reader_256::Handle,
) -> u32
    ensures { IsMake (13, 14) (λ p. record { it = p }) (λ g. record { it = g }) IsMade
        (holding writer.old.live writer.old.loose.side) (holding reader.old.live reader.old.loose.side)
        (holding writer.new.live writer.new.loose.side) (holding reader.new.live reader.new.loose.side)
        first.now result }
{
    make::<
        FourSlotWriter256,
        FourSlotReader256,
        four_slot_writer_256::Handle,
        four_slot_reader_256::Handle,
        Record256,
        FourSlotWriter<Record256>,
        FourSlotReader<Record256>,
    >(alloc, first, writer, reader)
}

#[unsafe(no_mangle)]
pub extern "C" fn nidzaru_256_write(
    writer: &mut four_slot_writer_256::Handle,
    item: &Record256,
) -> u32
    ensures { IsWrite 13 (λ p. record { it = p }) (λ p. p.number) HasWritten
        (holding writer.old.live writer.old.loose.side) (holding writer.new.live writer.new.loose.side)
        item.now result }
{
    write::<FourSlotWriter256, four_slot_writer_256::Loose, Record256, FourSlotWriter<Record256>>(
        13,
        &mut writer.live,
        &mut writer.loose,
        item,
    )
}

#[unsafe(no_mangle)]
pub extern "C" fn nidzaru_256_read(
    reader: &mut four_slot_reader_256::Handle,
    item: &mut Record256,
    number: &mut u64,
) -> u32
    ensures { IsRead 14 (λ g. record { it = g }) HasRead (holding reader.old.live reader.old.loose.side)
        (holding reader.new.live reader.new.loose.side) item.old item.new number.old number.new result }
{
    read::<FourSlotReader256, four_slot_reader_256::Loose, Record256, FourSlotReader<Record256>>(
        14,
        &mut reader.live,
        &mut reader.loose,
        item,
        number,
    )
}

#[unsafe(no_mangle)]
pub extern "C" fn nidzaru_256_look(
    reader: &mut four_slot_reader_256::Handle,
    number: &mut u64,
) -> u32
    ensures { IsLook 14 (λ g. record { it = g }) HasRead (holding reader.old.live reader.old.loose.side)
        (holding reader.new.live reader.new.loose.side) number.old number.new result }
{
    look::<FourSlotReader256, four_slot_reader_256::Loose, Record256, FourSlotReader<Record256>>(
        14,
        &mut reader.live,
        &mut reader.loose,
        number,
    )
}

#[unsafe(no_mangle)]
pub extern "C" fn nidzaru_256_end_writer(
    alloc: Global,
    writer: &mut four_slot_writer_256::Handle,
) -> u32
    ensures { IsEnd 13 (holding writer.old.live writer.old.loose.side)
        (holding writer.new.live writer.new.loose.side) result }
{
    end::<FourSlotWriter256, four_slot_writer_256::Handle>(alloc, writer)
}

#[unsafe(no_mangle)]
pub extern "C" fn nidzaru_256_end_reader(
    alloc: Global,
    reader: &mut four_slot_reader_256::Handle,
) -> u32
    ensures { IsEnd 14 (holding reader.old.live reader.old.loose.side)
        (holding reader.new.live reader.new.loose.side) result }
{
    end::<FourSlotReader256, four_slot_reader_256::Handle>(alloc, reader)
}
