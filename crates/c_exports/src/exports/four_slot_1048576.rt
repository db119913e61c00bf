// made by c/exports.py
//! A four-slot cell with records of 1,048,576 bytes.
ghost use Rattle.c_registers.specs.FourSlotCalls.{IsMade, HasWritten, HasRead};
ghost use Rattle.c_registers.specs.Handles.{holding, IsMake, IsWrite, IsRead, IsLook, IsEnd};

use c_handles::handles::{four_slot_reader_1048576, four_slot_writer_1048576};
use c_handles::{FourSlotReader1048576, FourSlotWriter1048576, Record1048576};
use c_registers::{FourSlotReader, FourSlotWriter, end, look, make, read, write};
use std::alloc::Global;

#[unsafe(no_mangle)]
pub extern "C" fn nidzaru_1048576_make(
    alloc: Global,
    first: &Record1048576,
    writer: &mut four_slot_writer_1048576::Handle,
    reader: &mut four_slot_reader_1048576::Handle,
) -> u32
    ensures { IsMake (29, 30) (λ p. record { it = p }) (λ g. record { it = g }) IsMade
        (holding writer.old.live writer.old.loose.side) (holding reader.old.live reader.old.loose.side)
        (holding writer.new.live writer.new.loose.side) (holding reader.new.live reader.new.loose.side)
        first.now result }
{
    make::<
        FourSlotWriter1048576,
        FourSlotReader1048576,
        four_slot_writer_1048576::Handle,
        four_slot_reader_1048576::Handle,
        Record1048576,
        FourSlotWriter<Record1048576>,
        FourSlotReader<Record1048576>,
    >(alloc, first, writer, reader)
}

#[unsafe(no_mangle)]
pub extern "C" fn nidzaru_1048576_write(
    writer: &mut four_slot_writer_1048576::Handle,
    item: &Record1048576,
) -> u32
    ensures { IsWrite 29 (λ p. record { it = p }) (λ p. p.number) HasWritten
        (holding writer.old.live writer.old.loose.side) (holding writer.new.live writer.new.loose.side)
        item.now result }
{
    write::<
        FourSlotWriter1048576,
        four_slot_writer_1048576::Loose,
        Record1048576,
        FourSlotWriter<Record1048576>,
    >(29, &mut writer.live, &mut writer.loose, item)
}

#[unsafe(no_mangle)]
pub extern "C" fn nidzaru_1048576_read(
    reader: &mut four_slot_reader_1048576::Handle,
    item: &mut Record1048576,
    number: &mut u64,
) -> u32
    ensures { IsRead 30 (λ g. record { it = g }) HasRead (holding reader.old.live reader.old.loose.side)
        (holding reader.new.live reader.new.loose.side) item.old item.new number.old number.new result }
{
    read::<
        FourSlotReader1048576,
        four_slot_reader_1048576::Loose,
        Record1048576,
        FourSlotReader<Record1048576>,
    >(30, &mut reader.live, &mut reader.loose, item, number)
}

#[unsafe(no_mangle)]
pub extern "C" fn nidzaru_1048576_look(
    reader: &mut four_slot_reader_1048576::Handle,
    number: &mut u64,
) -> u32
    ensures { IsLook 30 (λ g. record { it = g }) HasRead (holding reader.old.live reader.old.loose.side)
        (holding reader.new.live reader.new.loose.side) number.old number.new result }
{
    look::<
        FourSlotReader1048576,
        four_slot_reader_1048576::Loose,
        Record1048576,
        FourSlotReader<Record1048576>,
    >(30, &mut reader.live, &mut reader.loose, number)
}

#[unsafe(no_mangle)]
pub extern "C" fn nidzaru_1048576_end_writer(
    alloc: Global,
    writer: &mut four_slot_writer_1048576::Handle,
) -> u32
    ensures { IsEnd 29 (holding writer.old.live writer.old.loose.side)
        (holding writer.new.live writer.new.loose.side) result }
{
    end::<FourSlotWriter1048576, four_slot_writer_1048576::Handle>(alloc, writer)
}

#[unsafe(no_mangle)]
pub extern "C" fn nidzaru_1048576_end_reader(
    alloc: Global,
    reader: &mut four_slot_reader_1048576::Handle,
) -> u32
    ensures { IsEnd 30 (holding reader.old.live reader.old.loose.side)
        (holding reader.new.live reader.new.loose.side) result }
{
    end::<FourSlotReader1048576, four_slot_reader_1048576::Handle>(alloc, reader)
}
