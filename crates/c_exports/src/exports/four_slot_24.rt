// made by c/exports.py
//! A four-slot cell with records of 24 bytes.
ghost use Rattle.c_registers.specs.FourSlotCalls.{IsMade, HasWritten, HasRead};
ghost use Rattle.c_registers.specs.Handles.{holding, IsMake, IsWrite, IsRead, IsLook, IsEnd};

use c_handles::handles::{four_slot_reader_24, four_slot_writer_24};
use c_handles::{FourSlotReader24, FourSlotWriter24, Record24};
use c_registers::{FourSlotReader, FourSlotWriter, end, look, make, read, write};
use std::alloc::Global;

#[unsafe(no_mangle)]
pub extern "C" fn nidzaru_24_make(
    alloc: Global,
    first: &Record24,
    writer: &mut four_slot_writer_24::Handle,
    reader: &mut four_slot_reader_24::Handle,
) -> u32
    ensures { IsMake (5, 6) (λ p. record { it = p }) (λ g. record { it = g }) IsMade
        (holding writer.old.live writer.old.loose.side) (holding reader.old.live reader.old.loose.side)
        (holding writer.new.live writer.new.loose.side) (holding reader.new.live reader.new.loose.side)
        first.now result }
{
    make::<
        FourSlotWriter24,
        FourSlotReader24,
        four_slot_writer_24::Handle,
        four_slot_reader_24::Handle,
        Record24,
        FourSlotWriter<Record24>,
        FourSlotReader<Record24>,
    >(alloc, first, writer, reader)
}

#[unsafe(no_mangle)]
pub extern "C" fn nidzaru_24_write(writer: &mut four_slot_writer_24::Handle, item: &Record24) -> u32
    ensures { IsWrite 5 (λ p. record { it = p }) (λ p. p.number) HasWritten
        (holding writer.old.live writer.old.loose.side) (holding writer.new.live writer.new.loose.side)
        item.now result }
{
    write::<FourSlotWriter24, four_slot_writer_24::Loose, Record24, FourSlotWriter<Record24>>(
        5,
        &mut writer.live,
        &mut writer.loose,
        item,
    )
}

#[unsafe(no_mangle)]
pub extern "C" fn nidzaru_24_read(
    reader: &mut four_slot_reader_24::Handle,
    item: &mut Record24,
    number: &mut u64,
) -> u32
    ensures { IsRead 6 (λ g. record { it = g }) HasRead (holding reader.old.live reader.old.loose.side)
        (holding reader.new.live reader.new.loose.side) item.old item.new number.old number.new result }
{
    read::<FourSlotReader24, four_slot_reader_24::Loose, Record24, FourSlotReader<Record24>>(
        6,
        &mut reader.live,
        &mut reader.loose,
        item,
        number,
    )
}

#[unsafe(no_mangle)]
pub extern "C" fn nidzaru_24_look(reader: &mut four_slot_reader_24::Handle, number: &mut u64) -> u32
    ensures { IsLook 6 (λ g. record { it = g }) HasRead (holding reader.old.live reader.old.loose.side)
        (holding reader.new.live reader.new.loose.side) number.old number.new result }
{
    look::<FourSlotReader24, four_slot_reader_24::Loose, Record24, FourSlotReader<Record24>>(
        6,
        &mut reader.live,
        &mut reader.loose,
        number,
    )
}

#[unsafe(no_mangle)]
pub extern "C" fn nidzaru_24_end_writer(
    alloc: Global,
    writer: &mut four_slot_writer_24::Handle,
) -> u32
    ensures { IsEnd 5 (holding writer.old.live writer.old.loose.side)
        (holding writer.new.live writer.new.loose.side) result }
{
    end::<FourSlotWriter24, four_slot_writer_24::Handle>(alloc, writer)
}

#[unsafe(no_mangle)]
pub extern "C" fn nidzaru_24_end_reader(
    alloc: Global,
    reader: &mut four_slot_reader_24::Handle,
) -> u32
    ensures { IsEnd 6 (holding reader.old.live reader.old.loose.side)
        (holding reader.new.live reader.new.loose.side) result }
{
    end::<FourSlotReader24, four_slot_reader_24::Handle>(alloc, reader)
}
