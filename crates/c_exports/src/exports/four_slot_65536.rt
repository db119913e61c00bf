// made by c/exports.py
//! A four-slot cell with records of 65,536 bytes.
ghost use Rattle.c_registers.specs.FourSlotCalls.{IsMade, HasWritten, HasRead};
ghost use Rattle.c_registers.specs.Handles.{holding, IsMake, IsWrite, IsRead, IsLook, IsEnd};

use c_handles::handles::{four_slot_reader_65536, four_slot_writer_65536};
use c_handles::{FourSlotReader65536, FourSlotWriter65536, Record65536};
use c_registers::{FourSlotReader, FourSlotWriter, end, look, make, read, write};
use std::alloc::Global;

#[unsafe(no_mangle)]
pub extern "C" fn nidzaru_65536_make(
    alloc: Global,
    first: &Record65536,
    writer: &mut four_slot_writer_65536::Handle,
    reader: &mut four_slot_reader_65536::Handle,
) -> u32
    ensures { IsMake (25, 26) (λ p. record { it = p }) (λ g. record { it = g }) IsMade
        (holding writer.old.live writer.old.loose.side) (holding reader.old.live reader.old.loose.side)
        (holding writer.new.live writer.new.loose.side) (holding reader.new.live reader.new.loose.side)
        first.now result }
{
    make::<
        FourSlotWriter65536,
        FourSlotReader65536,
        four_slot_writer_65536::Handle,
        four_slot_reader_65536::Handle,
        Record65536,
        FourSlotWriter<Record65536>,
        FourSlotReader<Record65536>,
    >(alloc, first, writer, reader)
}

#[unsafe(no_mangle)]
pub extern "C" fn nidzaru_65536_write(
    writer: &mut four_slot_writer_65536::Handle,
    item: &Record65536,
) -> u32
    ensures { IsWrite 25 (λ p. record { it = p }) (λ p. p.number) HasWritten
        (holding writer.old.live writer.old.loose.side) (holding writer.new.live writer.new.loose.side)
        item.now result }
{
    write::<
        FourSlotWriter65536,
        four_slot_writer_65536::Loose,
        Record65536,
        FourSlotWriter<Record65536>,
    >(25, &mut writer.live, &mut writer.loose, item)
}

#[unsafe(no_mangle)]
pub extern "C" fn nidzaru_65536_read(
    reader: &mut four_slot_reader_65536::Handle,
    item: &mut Record65536,
    number: &mut u64,
) -> u32
    ensures { IsRead 26 (λ g. record { it = g }) HasRead (holding reader.old.live reader.old.loose.side)
        (holding reader.new.live reader.new.loose.side) item.old item.new number.old number.new result }
{
    read::<
        FourSlotReader65536,
        four_slot_reader_65536::Loose,
        Record65536,
        FourSlotReader<Record65536>,
    >(26, &mut reader.live, &mut reader.loose, item, number)
}

#[unsafe(no_mangle)]
pub extern "C" fn nidzaru_65536_look(
    reader: &mut four_slot_reader_65536::Handle,
    number: &mut u64,
) -> u32
    ensures { IsLook 26 (λ g. record { it = g }) HasRead (holding reader.old.live reader.old.loose.side)
        (holding reader.new.live reader.new.loose.side) number.old number.new result }
{
    look::<
        FourSlotReader65536,
        four_slot_reader_65536::Loose,
        Record65536,
        FourSlotReader<Record65536>,
    >(26, &mut reader.live, &mut reader.loose, number)
}

#[unsafe(no_mangle)]
pub extern "C" fn nidzaru_65536_end_writer(
    alloc: Global,
    writer: &mut four_slot_writer_65536::Handle,
) -> u32
    ensures { IsEnd 25 (holding writer.old.live writer.old.loose.side)
        (holding writer.new.live writer.new.loose.side) result }
{
    end::<FourSlotWriter65536, four_slot_writer_65536::Handle>(alloc, writer)
}

#[unsafe(no_mangle)]
pub extern "C" fn nidzaru_65536_end_reader(
    alloc: Global,
    reader: &mut four_slot_reader_65536::Handle,
) -> u32
    ensures { IsEnd 26 (holding reader.old.live reader.old.loose.side)
        (holding reader.new.live reader.new.loose.side) result }
{
    end::<FourSlotReader65536, four_slot_reader_65536::Handle>(alloc, reader)
}
