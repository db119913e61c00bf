// made by c/exports.py
//! A four-slot cell with records of 64 bytes.
ghost use Rattle.c_registers.specs.FourSlotCalls.{IsMade, HasWritten, HasRead};
ghost use Rattle.c_registers.specs.Handles.{holding, IsMake, IsWrite, IsRead, IsLook, IsEnd};

use c_handles::handles::{four_slot_reader_64, four_slot_writer_64};
use c_handles::{FourSlotReader64, FourSlotWriter64, Record64};
use c_registers::{FourSlotReader, FourSlotWriter, end, look, make, read, write};
use std::alloc::Global;

#[unsafe(no_mangle)]
pub extern "C" fn nidzaru_64_make(
    alloc: Global,
    first: &Record64,
    writer: &mut four_slot_writer_64::Handle,
    reader: &mut four_slot_reader_64::Handle,
) -> u32
    ensures { IsMake (9, 10) (λ p. record { it = p }) (λ g. record { it = g }) IsMade
        (holding writer.old.live writer.old.loose.side) (holding reader.old.live reader.old.loose.side)
        (holding writer.new.live writer.new.loose.side) (holding reader.new.live reader.new.loose.side)
        first.now result }
{
    make::<
        FourSlotWriter64,
        FourSlotReader64,
        four_slot_writer_64::Handle,
        four_slot_reader_64::Handle,
        Record64,
        FourSlotWriter<Record64>,
        FourSlotReader<Record64>,
    >(alloc, first, writer, reader)
}

#[unsafe(no_mangle)]
pub extern "C" fn nidzaru_64_write(writer: &mut four_slot_writer_64::Handle, item: &Record64) -> u32
    ensures { IsWrite 9 (λ p. record { it = p }) (λ p. p.number) HasWritten
        (holding writer.old.live writer.old.loose.side) (holding writer.new.live writer.new.loose.side)
        item.now result }
{
    write::<FourSlotWriter64, four_slot_writer_64::Loose, Record64, FourSlotWriter<Record64>>(
        9,
        &mut writer.live,
        &mut writer.loose,
        item,
    )
}

#[unsafe(no_mangle)]
pub extern "C" fn nidzaru_64_read(
    reader: &mut four_slot_reader_64::Handle,
    item: &mut Record64,
    number: &mut u64,
) -> u32
    ensures { IsRead 10 (λ g. record { it = g }) HasRead (holding reader.old.live reader.old.loose.side)
        (holding reader.new.live reader.new.loose.side) item.old item.new number.old number.new result }
{
    read::<FourSlotReader64, four_slot_reader_64::Loose, Record64, FourSlotReader<Record64>>(
        10,
        &mut reader.live,
        &mut reader.loose,
        item,
        number,
    )
}

#[unsafe(no_mangle)]
pub extern "C" fn nidzaru_64_look(reader: &mut four_slot_reader_64::Handle, number: &mut u64) -> u32
    ensures { IsLook 10 (λ g. record { it = g }) HasRead (holding reader.old.live reader.old.loose.side)
        (holding reader.new.live reader.new.loose.side) number.old number.new result }
{
    look::<FourSlotReader64, four_slot_reader_64::Loose, Record64, FourSlotReader<Record64>>(
        10,
        &mut reader.live,
        &mut reader.loose,
        number,
    )
}

#[unsafe(no_mangle)]
pub extern "C" fn nidzaru_64_end_writer(
    alloc: Global,
    writer: &mut four_slot_writer_64::Handle,
) -> u32
    ensures { IsEnd 9 (holding writer.old.live writer.old.loose.side)
        (holding writer.new.live writer.new.loose.side) result }
{
    end::<FourSlotWriter64, four_slot_writer_64::Handle>(alloc, writer)
}

#[unsafe(no_mangle)]
pub extern "C" fn nidzaru_64_end_reader(
    alloc: Global,
    reader: &mut four_slot_reader_64::Handle,
) -> u32
    ensures { IsEnd 10 (holding reader.old.live reader.old.loose.side)
        (holding reader.new.live reader.new.loose.side) result }
{
    end::<FourSlotReader64, four_slot_reader_64::Handle>(alloc, reader)
}
