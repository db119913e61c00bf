// made by c/exports.py
//! A triple buffer with records of 1,048,576 bytes.
ghost use Rattle.c_handles.specs.declared.record.Record1048576.{Record1048576};
ghost use Rattle.c_registers.specs.TripleCalls.{IsMade, HasWritten, HasRead, HasPublished, at_hand, in_slot};
ghost use Rattle.c_registers.specs.Handles.{holding, IsMake, IsWrite, IsRead, IsLook, IsHold, IsPublish, IsEnd};

use c_handles::handles::{triple_reader_1048576, triple_writer_1048576};
use c_handles::{Record1048576, TripleReader1048576, TripleWriter1048576};
use c_registers::{
    DONE, TripleReader, TripleWriter, end, hold, look, make, publish, read, slot, write,
};
use std::alloc::Global;

#[unsafe(no_mangle)]
pub extern "C" fn nidzaru_triple_1048576_make(
    alloc: Global,
    first: &Record1048576,
    writer: &mut triple_writer_1048576::Handle,
    reader: &mut triple_reader_1048576::Handle,
) -> u32
    ensures { IsMake (31, 32) (λ p. record { it = p }) (λ g. record { it = g }) IsMade
        (holding writer.old.live writer.old.loose.side) (holding reader.old.live reader.old.loose.side)
        (holding writer.new.live writer.new.loose.side) (holding reader.new.live reader.new.loose.side)
        first.now result }
{
    make::<
        TripleWriter1048576,
        TripleReader1048576,
        triple_writer_1048576::Handle,
        triple_reader_1048576::Handle,
        Record1048576,
        TripleWriter<Record1048576>,
        TripleReader<Record1048576>,
    >(alloc, first, writer, reader)
}

#[unsafe(no_mangle)]
pub extern "C" fn nidzaru_triple_1048576_write(
    writer: &mut triple_writer_1048576::Handle,
    item: &Record1048576,
) -> u32
    ensures { IsWrite 31 (λ p. record { it = p }) (λ p. p.number) HasWritten
        (holding writer.old.live writer.old.loose.side) (holding writer.new.live writer.new.loose.side)
        item.now result }
{
    write::<
        TripleWriter1048576,
        triple_writer_1048576::Loose,
        Record1048576,
        TripleWriter<Record1048576>,
    >(31, &mut writer.live, &mut writer.loose, item)
}

#[unsafe(no_mangle)]
pub extern "C" fn nidzaru_triple_1048576_read(
    reader: &mut triple_reader_1048576::Handle,
    item: &mut Record1048576,
    number: &mut u64,
) -> u32
    ensures { IsRead 32 (λ g. record { it = g }) HasRead (holding reader.old.live reader.old.loose.side)
        (holding reader.new.live reader.new.loose.side) item.old item.new number.old number.new result }
{
    read::<
        TripleReader1048576,
        triple_reader_1048576::Loose,
        Record1048576,
        TripleReader<Record1048576>,
    >(32, &mut reader.live, &mut reader.loose, item, number)
}

#[unsafe(no_mangle)]
pub extern "C" fn nidzaru_triple_1048576_look(
    reader: &mut triple_reader_1048576::Handle,
    number: &mut u64,
) -> u32
    ensures { IsLook 32 (λ g. record { it = g }) HasRead (holding reader.old.live reader.old.loose.side)
        (holding reader.new.live reader.new.loose.side) number.old number.new result }
{
    look::<
        TripleReader1048576,
        triple_reader_1048576::Loose,
        Record1048576,
        TripleReader<Record1048576>,
    >(32, &mut reader.live, &mut reader.loose, number)
}

#[unsafe(no_mangle)]
pub extern "C" fn nidzaru_triple_1048576_hold<'a>(
    reader: &'a mut triple_reader_1048576::Handle,
    at: &mut &'a [u64],
) -> u32
    ensures { IsHold 32 (λ g. record { it = g }) (λ g. (at_hand {W = Record1048576} g).words.words)
        (holding reader.old.live reader.old.loose.side) at.old.now at.new.now result }
{
    let live = reader.live;
    match hold::<TripleReader1048576, triple_reader_1048576::Loose, Record1048576>(
        &mut reader.loose,
        32,
        live,
    ) {
        Err(status) => status,
        Ok(record) => {
            *at = record.words.as_slice();
            DONE
        }
    }
}

#[unsafe(no_mangle)]
pub extern "C" fn nidzaru_triple_1048576_loan<'a>(
    writer: &'a mut triple_writer_1048576::Handle,
    at: &mut &'a mut [u64],
) -> u32
    ensures { IsHold 31 (λ p. record { it = p }) (λ p. (in_slot {W = Record1048576} p).words.words)
        (holding writer.old.live writer.old.loose.side) at.old.now at.new.now result }
{
    let live = writer.live;
    match slot::<TripleWriter1048576, triple_writer_1048576::Loose, Record1048576>(
        &mut writer.loose,
        31,
        live,
    ) {
        Err(status) => status,
        Ok(record) => {
            *at = record.words.as_mut_slice();
            DONE
        }
    }
}

#[unsafe(no_mangle)]
pub extern "C" fn nidzaru_triple_1048576_publish(writer: &mut triple_writer_1048576::Handle) -> u32
    ensures { IsPublish 31 (λ p. record { it = p }) (λ p. p.number) HasPublished
        (holding writer.old.live writer.old.loose.side) (holding writer.new.live writer.new.loose.side) result }
{
    publish::<TripleWriter1048576, triple_writer_1048576::Loose, Record1048576>(
        31,
        &mut writer.live,
        &mut writer.loose,
    )
}

#[unsafe(no_mangle)]
pub extern "C" fn nidzaru_triple_1048576_end_writer(
    alloc: Global,
    writer: &mut triple_writer_1048576::Handle,
) -> u32
    ensures { IsEnd 31 (holding writer.old.live writer.old.loose.side)
        (holding writer.new.live writer.new.loose.side) result }
{
    end::<TripleWriter1048576, triple_writer_1048576::Handle>(alloc, writer)
}

#[unsafe(no_mangle)]
pub extern "C" fn nidzaru_triple_1048576_end_reader(
    alloc: Global,
    reader: &mut triple_reader_1048576::Handle,
) -> u32
    ensures { IsEnd 32 (holding reader.old.live reader.old.loose.side)
        (holding reader.new.live reader.new.loose.side) result }
{
    end::<TripleReader1048576, triple_reader_1048576::Handle>(alloc, reader)
}
