// made by c/exports.py
//! A four-slot cell with records of 1,024 bytes.
ghost use Rattle.c_registers.specs.FourSlotCalls.{IsMade, HasWritten, HasRead};
ghost use Rattle.c_registers.specs.Handles.{holding, IsMake, IsWrite, IsRead, IsLook, IsEnd};

use c_handles::handles::{four_slot_reader_1024, four_slot_writer_1024};
use c_handles::{FourSlotReader1024, FourSlotWriter1024, Record1024};
use c_registers::{FourSlotReader, FourSlotWriter, end, look, make, read, write};
use std::alloc::Global;

#[unsafe(no_mangle)]
pub extern "C" fn nidzaru_1024_make(
    alloc: Global,
    first: &Record1024,
    writer: &mut four_slot_writer_1024::Handle,
    reader: &mut four_slot_reader_1024::Handle,
) -> u32
    ensures { IsMake (17, 18) (λ p. record { it = p }) (λ g. record { it = g }) IsMade
        (holding writer.old.live writer.old.loose.side) (holding reader.old.live reader.old.loose.side)
        (holding writer.new.live writer.new.loose.side) (holding reader.new.live reader.new.loose.side)
        first.now result }
{
    make::<
        FourSlotWriter1024,
        FourSlotReader1024,
        four_slot_writer_1024::Handle,
        four_slot_reader_1024::Handle,
        Record1024,
        FourSlotWriter<Record1024>,
        FourSlotReader<Record1024>,
    >(alloc, first, writer, reader)
}

#[unsafe(no_mangle)]
pub extern "C" fn nidzaru_1024_write(
    writer: &mut four_slot_writer_1024::Handle,
    item: &Record1024,
) -> u32
    ensures { IsWrite 17 (λ p. record { it = p }) (λ p. p.number) HasWritten
        (holding writer.old.live writer.old.loose.side) (holding writer.new.live writer.new.loose.side)
        item.now result }
{
    write::<
        FourSlotWriter1024,
        four_slot_writer_1024::Loose,
        Record1024,
        FourSlotWriter<Record1024>,
    >(17, &mut writer.live, &mut writer.loose, item)
}

#[unsafe(no_mangle)]
pub extern "C" fn nidzaru_1024_read(
    reader: &mut four_slot_reader_1024::Handle,
    item: &mut Record1024,
    number: &mut u64,
) -> u32
    ensures { IsRead 18 (λ g. record { it = g }) HasRead (holding reader.old.live reader.old.loose.side)
        (holding reader.new.live reader.new.loose.side) item.old item.new number.old number.new result }
{
    read::<
        FourSlotReader1024,
        four_slot_reader_1024::Loose,
        Record1024,
        FourSlotReader<Record1024>,
    >(18, &mut reader.live, &mut reader.loose, item, number)
}

#[unsafe(no_mangle)]
pub extern "C" fn nidzaru_1024_look(
    reader: &mut four_slot_reader_1024::Handle,
    number: &mut u64,
) -> u32
    ensures { IsLook 18 (λ g. record { it = g }) HasRead (holding reader.old.live reader.old.loose.side)
        (holding reader.new.live reader.new.loose.side) number.old number.new result }
{
    look::<
        FourSlotReader1024,
        four_slot_reader_1024::Loose,
        Record1024,
        FourSlotReader<Record1024>,
    >(18, &mut reader.live, &mut reader.loose, number)
}

#[unsafe(no_mangle)]
pub extern "C" fn nidzaru_1024_end_writer(
    alloc: Global,
    writer: &mut four_slot_writer_1024::Handle,
) -> u32
    ensures { IsEnd 17 (holding writer.old.live writer.old.loose.side)
        (holding writer.new.live writer.new.loose.side) result }
{
    end::<FourSlotWriter1024, four_slot_writer_1024::Handle>(alloc, writer)
}

#[unsafe(no_mangle)]
pub extern "C" fn nidzaru_1024_end_reader(
    alloc: Global,
    reader: &mut four_slot_reader_1024::Handle,
) -> u32
    ensures { IsEnd 18 (holding reader.old.live reader.old.loose.side)
        (holding reader.new.live reader.new.loose.side) result }
{
    end::<FourSlotReader1024, four_slot_reader_1024::Handle>(alloc, reader)
}
