// made by c/exports.py
//! A four-slot cell with records of 4,096 bytes.
ghost use Rattle.c_registers.specs.FourSlotCalls.{IsMade, HasWritten, HasRead};
ghost use Rattle.c_registers.specs.Handles.{holding, IsMake, IsWrite, IsRead, IsLook, IsEnd};

use c_handles::handles::{four_slot_reader_4096, four_slot_writer_4096};
use c_handles::{FourSlotReader4096, FourSlotWriter4096, Record4096};
use c_registers::{FourSlotReader, FourSlotWriter, end, look, make, read, write};
use std::alloc::Global;

#[unsafe(no_mangle)]
pub extern "C" fn nidzaru_4096_make(
    alloc: Global,
    first: &Record4096,
    writer: &mut four_slot_writer_4096::Handle,
    reader: &mut four_slot_reader_4096::Handle,
) -> u32
    ensures { IsMake (21, 22) (λ p. record { it = p }) (λ g. record { it = g }) IsMade
        (holding writer.old.live writer.old.loose.side) (holding reader.old.live reader.old.loose.side)
        (holding writer.new.live writer.new.loose.side) (holding reader.new.live reader.new.loose.side)
        first.now result }
{
    make::<
        FourSlotWriter4096,
        FourSlotReader4096,
        four_slot_writer_4096::Handle,
        four_slot_reader_4096::Handle,
        Record4096,
        FourSlotWriter<Record4096>,
        FourSlotReader<Record4096>,
    >(alloc, first, writer, reader)
}

#[unsafe(no_mangle)]
pub extern "C" fn nidzaru_4096_write(
    writer: &mut four_slot_writer_4096::Handle,
    item: &Record4096,
) -> u32
    ensures { IsWrite 21 (λ p. record { it = p }) (λ p. p.number) HasWritten
        (holding writer.old.live writer.old.loose.side) (holding writer.new.live writer.new.loose.side)
        item.now result }
{
    write::<
        FourSlotWriter4096,
        four_slot_writer_4096::Loose,
        Record4096,
        FourSlotWriter<Record4096>,
    >(21, &mut writer.live, &mut writer.loose, item)
}

#[unsafe(no_mangle)]
pub extern "C" fn nidzaru_4096_read(
    reader: &mut four_slot_reader_4096::Handle,
    item: &mut Record4096,
    number: &mut u64,
) -> u32
    ensures { IsRead 22 (λ g. record { it = g }) HasRead (holding reader.old.live reader.old.loose.side)
        (holding reader.new.live reader.new.loose.side) item.old item.new number.old number.new result }
{
    read::<
        FourSlotReader4096,
        four_slot_reader_4096::Loose,
        Record4096,
        FourSlotReader<Record4096>,
    >(22, &mut reader.live, &mut reader.loose, item, number)
}

#[unsafe(no_mangle)]
pub extern "C" fn nidzaru_4096_look(
    reader: &mut four_slot_reader_4096::Handle,
    number: &mut u64,
) -> u32
    ensures { IsLook 22 (λ g. record { it = g }) HasRead (holding reader.old.live reader.old.loose.side)
        (holding reader.new.live reader.new.loose.side) number.old number.new result }
{
    look::<
        FourSlotReader4096,
        four_slot_reader_4096::Loose,
        Record4096,
        FourSlotReader<Record4096>,
    >(22, &mut reader.live, &mut reader.loose, number)
}

#[unsafe(no_mangle)]
pub extern "C" fn nidzaru_4096_end_writer(
    alloc: Global,
    writer: &mut four_slot_writer_4096::Handle,
) -> u32
    ensures { IsEnd 21 (holding writer.old.live writer.old.loose.side)
        (holding writer.new.live writer.new.loose.side) result }
{
    end::<FourSlotWriter4096, four_slot_writer_4096::Handle>(alloc, writer)
}

#[unsafe(no_mangle)]
pub extern "C" fn nidzaru_4096_end_reader(
    alloc: Global,
    reader: &mut four_slot_reader_4096::Handle,
) -> u32
    ensures { IsEnd 22 (holding reader.old.live reader.old.loose.side)
        (holding reader.new.live reader.new.loose.side) result }
{
    end::<FourSlotReader4096, four_slot_reader_4096::Handle>(alloc, reader)
}
