// made by c/exports.py
//! A four-slot cell with records of 8 bytes.
ghost use Rattle.c_registers.specs.FourSlotCalls.{IsMade, HasWritten, HasRead};
ghost use Rattle.c_registers.specs.Handles.{holding, IsMake, IsWrite, IsRead, IsLook, IsEnd};

use c_handles::handles::{four_slot_reader_8, four_slot_writer_8};
use c_handles::{FourSlotReader8, FourSlotWriter8, Record8};
use c_registers::{FourSlotReader, FourSlotWriter, end, look, make, read, write};
use std::alloc::Global;

#[unsafe(no_mangle)]
pub extern "C" fn nidzaru_8_make(
    alloc: Global,
    first: &Record8,
    writer: &mut four_slot_writer_8::Handle,
    reader: &mut four_slot_reader_8::Handle,
) -> u32
    ensures { IsMake (1, 2) (λ p. record { it = p }) (λ g. record { it = g }) IsMade
        (holding writer.old.live writer.old.loose.side) (holding reader.old.live reader.old.loose.side)
        (holding writer.new.live writer.new.loose.side) (holding reader.new.live reader.new.loose.side)
        first.now result }
{
    make::<
        FourSlotWriter8,
        FourSlotReader8,
        four_slot_writer_8::Handle,
        four_slot_reader_8::Handle,
        Record8,
        FourSlotWriter<Record8>,
        FourSlotReader<Record8>,
    >(alloc, first, writer, reader)
}

#[unsafe(no_mangle)]
pub extern "C" fn nidzaru_8_write(writer: &mut four_slot_writer_8::Handle, item: &Record8) -> u32
    ensures { IsWrite 1 (λ p. record { it = p }) (λ p. p.number) HasWritten
        (holding writer.old.live writer.old.loose.side) (holding writer.new.live writer.new.loose.side)
        item.now result }
{
    write::<FourSlotWriter8, four_slot_writer_8::Loose, Record8, FourSlotWriter<Record8>>(
        1,
        &mut writer.live,
        &mut writer.loose,
        item,
    )
}

#[unsafe(no_mangle)]
pub extern "C" fn nidzaru_8_read(
    reader: &mut four_slot_reader_8::Handle,
    item: &mut Record8,
    number: &mut u64,
) -> u32
    ensures { IsRead 2 (λ g. record { it = g }) HasRead (holding reader.old.live reader.old.loose.side)
        (holding reader.new.live reader.new.loose.side) item.old item.new number.old number.new result }
{
    read::<FourSlotReader8, four_slot_reader_8::Loose, Record8, FourSlotReader<Record8>>(
        2,
        &mut reader.live,
        &mut reader.loose,
        item,
        number,
    )
}

#[unsafe(no_mangle)]
pub extern "C" fn nidzaru_8_look(reader: &mut four_slot_reader_8::Handle, number: &mut u64) -> u32
    ensures { IsLook 2 (λ g. record { it = g }) HasRead (holding reader.old.live reader.old.loose.side)
        (holding reader.new.live reader.new.loose.side) number.old number.new result }
{
    look::<FourSlotReader8, four_slot_reader_8::Loose, Record8, FourSlotReader<Record8>>(
        2,
        &mut reader.live,
        &mut reader.loose,
        number,
    )
}

#[unsafe(no_mangle)]
pub extern "C" fn nidzaru_8_end_writer(
    alloc: Global,
    writer: &mut four_slot_writer_8::Handle,
) -> u32
    ensures { IsEnd 1 (holding writer.old.live writer.old.loose.side)
        (holding writer.new.live writer.new.loose.side) result }
{
    end::<FourSlotWriter8, four_slot_writer_8::Handle>(alloc, writer)
}

#[unsafe(no_mangle)]
pub extern "C" fn nidzaru_8_end_reader(
    alloc: Global,
    reader: &mut four_slot_reader_8::Handle,
) -> u32
    ensures { IsEnd 2 (holding reader.old.live reader.old.loose.side)
        (holding reader.new.live reader.new.loose.side) result }
{
    end::<FourSlotReader8, four_slot_reader_8::Handle>(alloc, reader)
}
